// The literals of a trail, which literals they make false, and where each variable stands.
ghost use Rattle.std.specs.Prelude.{◌≡◌, ℕ, ◌-◌, ◌<◌, ◌≤◌, [], ◌∷◌, ◌++◌};
ghost use Rattle.std.specs.Prelude.{Some, length, slice_get, take, true, IfOk};
ghost use Rattle.dsv_trail.specs.declared.marks.Mark.{Mark};
ghost use Rattle.dsv_trail.specs.Marks.{mark_of, AreMarks, IsOpen, IsSet};
ghost use Rattle.dsv_trail.specs.Places.{falsifies, place_of};

use dsv_base::NoMemory;
use dsv_cnf::Lit;
use std::alloc::Global;
use std::marker::Model;

/// A literal that is true, its level, and the number of the clause that implied it, from 0 on. A
/// decision has no clause.
#[derive(Clone, Copy)]
pub struct Mark {
    pub literal: Lit,
    pub level: u32,
    pub reason: Option<u32>,
}

/// Literals of different variables, in the order in which they came. All their room is taken at the
/// beginning.
#[derive(Drop)]
pub(crate) struct MarkList {
    /// How many variables there are.
    vars: u32,
    /// By literal: whether it is false, that is, its negation is here.
    falses: Vec<bool>,
    /// By variable: where its literal is, if there is one.
    places: Vec<u32>,
    /// The literals in order.
    marks: Vec<Mark>,
}

impl Model for MarkList {
    ghost use Rattle.dsv_trail.specs.MarkListView.{MarkListView};

    ghost Value = { MarkListView };

    ghost use Rattle.dsv_trail.specs.MarkListInside.{view_of, IsMarkList};

    ghost view = { view_of };

    ghost invariant = { IsMarkList };
}

impl MarkList {
    /// No literals yet, and room for one of each variable.
    pub fn new(alloc: Global, vars: u32) -> Result<Self, NoMemory>
        ensures { IfOk result (λ m. m ≡ record { vars = vars; marks = [] }) }
    {
        Ok(MarkList {
            vars,
            falses: vec![in alloc; false; 2 * vars as usize]?,
            places: vec![in alloc; 0; vars as usize]?,
            marks: Vec::with_capacity(alloc, vars as usize)?,
        })
    }

    /// How many variables there are.
    pub fn vars(&self) -> u32
        ensures { result ≡ self.now.vars }
    {
        self.vars
    }

    /// How many literals there are: fewer than variables while one is open.
    pub fn len(&self) -> u32
        ensures value { result ≡ length self.now.marks }
        ensures whole { AreMarks self.now.vars self.now.marks }
        ensures room { (v : ℕ) → v < self.now.vars → IsOpen self.now.marks v →
            length self.now.marks < self.now.vars }
    {
        self.marks.len() as u32
    }

    /// The mark at this place, from 0 on.
    pub fn at(&self, i: u32) -> Mark
        requires { i < length self.now.marks }
        ensures at { slice_get self.now.marks i ≡ Some result }
        ensures over { result.literal.var < self.now.vars }
    {
        self.marks[i as usize]
    }

    /// Where the negation of a false literal is.
    pub fn place_of(&self, literal: Lit) -> u32
        requires over { literal.var < self.now.vars }
        requires is_false { falsifies self.now.marks literal ≡ true }
        ensures { result ≡ place_of self.now.marks literal }
    {
        self.places[literal.var() as usize]
    }

    /// Whether the literal is false.
    pub fn is_false(&self, literal: Lit) -> bool
        requires { literal.var < self.now.vars }
        ensures value { result ≡ falsifies self.now.marks literal }
        ensures whole { AreMarks self.now.vars self.now.marks }
    {
        self.falses[literal.code() as usize]
    }

    /// The mark of a variable that isn't open.
    pub fn mark(&self, var: u32) -> Mark
        requires over { var < self.now.vars }
        requires set { IsSet self.now.marks var }
        ensures { mark_of self.now.marks var ≡ Some result }
    {
        self.marks[self.places[var as usize] as usize]
    }

    /// Appends the literal of an open variable. It takes no memory.
    pub fn push(&mut self, literal: Lit, level: u32, reason: Option<u32>)
        requires over { literal.var < self.old.vars }
        requires free { IsOpen self.old.marks literal.var }
        ensures state { self.new ≡ record self.old {
          marks = self.old.marks ++ record { literal = literal; level = level; reason = reason }
              ∷ [];
        } }
        ensures few { length self.new.marks ≤ self.new.vars }
    {
        let place = self.marks.len() as u32;
        self.falses[literal.negation().code() as usize] = true;
        self.places[literal.var() as usize] = place;
        self.marks.push_reserved(Mark {
            literal,
            level,
            reason,
        });
    }

    /// Takes the last literal away.
    fn pop(&mut self)
        requires { 0 < length self.old.marks }
        ensures { self.new ≡ record self.old {
          marks = take (length self.old.marks - 1) self.old.marks;
        } }
    {
        if let Some(mark) = self.marks.pop() {
            self.falses[mark.literal.negation().code() as usize] = false;
        }
    }

    /// Keeps so many literals, in time that is linear in how many go.
    pub fn truncate(&mut self, len: u32)
        requires { len ≤ length self.old.marks }
        ensures { self.new ≡ record self.old { marks = take len self.old.marks } }
    {
        while self.len() > len {
            self.pop();
        }
    }
}
