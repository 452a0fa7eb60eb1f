// The literals that an analysis met.
ghost use Rattle.std.specs.Prelude.{◌≡◌, ◌<◌, ◌≤◌, ◌^◌, ◌∷◌, []};
ghost use Rattle.std.specs.Prelude.{OnOk, OnErr, IfOk, reverse};
ghost use Rattle.dsv_cnf.specs.Formula.{contains};
ghost use Rattle.dsv_cnf.specs.Formula.{IsOver};

use dsv_base::NoMemory;
use dsv_cnf::{Lit, LiteralSet};
use std::alloc::Global;
use std::marker::Model;

/// A set of literals that knows in which order they came.
#[derive(Drop)]
pub struct Seen {
    /// The literals, to be asked whether one was met.
    set: LiteralSet,
    /// The same literals, in the order in which they came.
    inserted: Vec<Lit>,
}

impl Model for Seen {
    ghost use Rattle.dsv_solver.specs.SeenView.{SeenView};

    ghost Value = { SeenView };

    ghost use Rattle.dsv_solver.specs.SeenInside.{view_of, IsSeen};

    ghost view = { view_of };

    ghost invariant = { IsSeen };
}

impl Seen {
    /// No literals, over so many variables, at most 2^31.
    pub fn new(alloc: Global, vars: u32) -> Result<Seen, NoMemory>
        requires { vars ≤ 2 ^ 31 }
        ensures { IfOk result (λ s. s ≡ record { vars = vars; literals = [] }) }
    {
        Ok(Seen {
            set: LiteralSet::new(alloc, vars)?,
            inserted: Vec::new(alloc),
        })
    }

    /// The literals, in the order in which they came.
    pub fn as_slice(&self) -> &[Lit]
        ensures items { self.now.literals ≡ reverse result.now }
        ensures over { IsOver self.now.vars result.now }
    {
        self.inserted.as_slice()
    }

    /// Whether a literal, of one of the set's variables, is in the set.
    pub fn contains(&self, literal: Lit) -> bool
        requires { literal.var < self.now.vars }
        ensures { result ≡ contains self.now.literals literal }
    {
        self.set.contains(literal)
    }

    /// Adds a literal, of one of the set's variables; where there is no memory for it, the set
    /// stays as it was.
    pub fn insert(&mut self, literal: Lit) -> Result<(), NoMemory>
        requires { literal.var < self.old.vars }
        ensures ok { OnOk result (self.new
            ≡ record self.old { literals = literal ∷ self.old.literals }) }
        ensures err { OnErr result (self.new ≡ self.old) }
    {
        self.inserted.push(literal)?;
        self.set.insert(literal);
        Ok(())
    }

    /// Takes all literals out. The marks are written anew only once in 2^32 - 1 rounds.
    pub fn clear(&mut self)
        ensures { self.new ≡ record self.old { literals = [] } }
    {
        self.set.clear();
        self.inserted.clear();
    }
}
