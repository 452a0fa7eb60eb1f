// A set of literals that is emptied at once.
ghost use Rattle.std.specs.Prelude.{◌≡◌, ◌<◌, ◌≤◌, ◌^◌, IfOk};
ghost use Rattle.dsv_cnf.specs.LiteralSet.{empty_set, set_of, with};

use crate::Lit;
use dsv_base::NoMemory;
use std::alloc::Global;
use std::marker::Model;

/// A set of literals: those whose mark is the number of the current round. A new round empties the
/// set.
#[derive(Drop)]
pub struct LiteralSet {
    vars: u32,
    round: u32,
    marks: Vec<u32>,
}

impl Model for LiteralSet {
    ghost use Rattle.dsv_cnf.specs.LiteralSet.{SetView};

    ghost Value = { SetView };

    ghost use Rattle.dsv_cnf.specs.SetInside.{view_of, IsSet};

    ghost view = { view_of };

    ghost invariant = { IsSet };
}

impl LiteralSet {
    /// No literals, over so many variables, at most 2^31.
    pub fn new(alloc: Global, vars: u32) -> Result<Self, NoMemory>
        requires { vars ≤ 2 ^ 31 }
        ensures { IfOk result (λ s. s ≡ empty_set vars) }
    {
        Ok(LiteralSet {
            vars,
            round: 1,
            marks: vec![in alloc; 0; 2 * vars as usize]?,
        })
    }

    /// Whether a literal, of one of the set's variables, is in the set.
    pub fn contains(&self, literal: Lit) -> bool
        requires { literal.var < self.now.vars }
        ensures { result ≡ set_of self.now literal }
    {
        self.marks[literal.code() as usize] == self.round
    }

    /// Adds a literal, of one of the set's variables. It takes no memory.
    pub fn insert(&mut self, literal: Lit)
        requires { literal.var < self.old.vars }
        ensures vars { self.new.vars ≡ self.old.vars }
        ensures set { set_of self.new ≡ with literal (set_of self.old) }
    {
        self.marks[literal.code() as usize] = self.round;
    }

    /// Takes all literals out. The marks are written anew only once in 2^32 - 1 rounds.
    pub fn clear(&mut self)
        ensures { self.new ≡ empty_set self.old.vars }
    {
        if self.round == u32::MAX {
            self.marks.fill(0);
            self.round = 1;
            return;
        }
        self.round += 1;
    }
}
