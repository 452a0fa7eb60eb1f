// The trail: marks and the levels that decisions begin.
ghost use Rattle.std.specs.Prelude.{◌≡◌, ◌<◌, ◌≤◌, [], length};
ghost use Rattle.std.specs.Prelude.{List, None, Some, slice_get, true, IfOk, IsSome};
ghost use Rattle.dsv_cnf.specs.Literal.{Literal};
ghost use Rattle.dsv_trail.specs.Marks.{level_of, literal_at, reason_of, value_of, IsOpen, IsSet};
ghost use Rattle.dsv_trail.specs.Places.{falsifies, place_of};
ghost use Rattle.dsv_trail.specs.Levels.{after_back, after_decide, after_imply, IsTrail};
ghost use Rattle.dsv_trail.specs.Justification.{IsJustified, IsReason};

use crate::marks::{Mark, MarkList};
use dsv_base::NoMemory;
use dsv_cnf::{Formula, Lit};
use std::alloc::Global;
use std::marker::Model;

/// The literals that are true, in the order in which they became so. A literal is decided, which
/// begins a level, or is implied by a clause at the present level; its variable has no other
/// literal here. Levels are counted from 0, which no decision begins.
#[derive(Drop)]
pub struct Trail {
    /// The literals with their levels and reasons.
    marks: MarkList,
    /// How many literals there were before each decision.
    limits: Vec<u32>,
}

impl Model for Trail {
    ghost use Rattle.dsv_trail.specs.TrailView.{TrailView};

    ghost Value = { TrailView };

    ghost use Rattle.dsv_trail.specs.TrailInside.{view_of, IsTrailInside};

    ghost view = { view_of };

    ghost invariant = { IsTrailInside };
}

impl Trail {
    /// An empty trail at level 0, for variables that are numbered from 0 and are below `vars`. It
    /// takes all the memory that the trail will ever need.
    pub fn new(alloc: Global, vars: u32) -> Result<Trail, NoMemory>
        ensures { IfOk result (λ t. t ≡ record { vars = vars; marks = []; limits = [] }) }
    {
        Ok(Trail {
            marks: MarkList::new(alloc, vars)?,
            limits: Vec::with_capacity(alloc, vars as usize)?,
        })
    }

    /// How many variables there are.
    pub fn vars(&self) -> u32
        ensures { result ≡ self.now.vars }
    {
        self.marks.vars()
    }

    /// How many literals there are, at most as many as variables.
    pub fn len(&self) -> u32
        ensures value { result ≡ length self.now.marks }
        ensures whole { IsTrail self.now }
    {
        self.marks.len()
    }

    /// The present level: how many decisions there are.
    pub fn level(&self) -> u32
        ensures { result ≡ length self.now.limits }
    {
        self.limits.len() as u32
    }

    /// The literal at this place, counted from 0 and below `len`.
    pub fn at(&self, i: u32) -> Lit
        requires { i < length self.now.marks }
        ensures at { literal_at self.now.marks i ≡ Some result }
        ensures over { result.var < self.now.vars }
    {
        self.marks.at(i).literal
    }

    /// The literal at this place with its level and its reason. Places are counted from 0 and are
    /// below `len`.
    pub fn mark(&self, i: u32) -> Mark
        requires { i < length self.now.marks }
        ensures at { slice_get self.now.marks i ≡ Some result }
        ensures over { result.literal.var < self.now.vars }
    {
        self.marks.at(i)
    }

    /// How many literals there were before the decision that began the level `level + 1`, which is
    /// at most the present one.
    pub fn limit(&self, level: u32) -> u32
        requires { level < length self.now.limits }
        ensures { slice_get self.now.limits level ≡ Some result }
    {
        self.limits[level as usize]
    }

    /// The place at which a false literal became false.
    pub fn place_of(&self, lit: Lit) -> u32
        requires over { lit.var < self.now.vars }
        requires is_false { falsifies self.now.marks lit ≡ true }
        ensures { result ≡ place_of self.now.marks lit }
    {
        self.marks.place_of(lit)
    }

    /// Whether the literal is true, or none while its variable is open.
    pub fn value(&self, lit: Lit) -> Option<bool>
        requires { lit.var < self.now.vars }
        ensures value { result ≡ value_of self.now.marks lit }
        ensures free { result ≡ None → IsOpen self.now.marks lit.var }
        ensures set { IsSome result → IsSet self.now.marks lit.var }
    {
        if self.marks.is_false(lit) {
            Some(false)
        } else if self.marks.is_false(lit.negation()) {
            Some(true)
        } else {
            None
        }
    }

    /// Whether the literal is false.
    pub fn is_false(&self, lit: Lit) -> bool
        requires { lit.var < self.now.vars }
        ensures { result ≡ falsifies self.now.marks lit }
    {
        self.marks.is_false(lit)
    }

    /// The number of the clause that implied the variable's literal, or none where it was decided.
    /// The variable isn't open.
    pub fn reason(&self, var: u32) -> Option<u32>
        requires over { var < self.now.vars }
        requires set { IsSet self.now.marks var }
        ensures { result ≡ reason_of self.now.marks var }
    {
        self.marks.mark(var).reason
    }

    /// The level at which the variable got its literal, at most the present one. The variable isn't
    /// open.
    pub fn level_of(&self, var: u32) -> u32
        requires over { var < self.now.vars }
        requires set { IsSet self.now.marks var }
        ensures value { result ≡ level_of self.now.marks var }
        ensures most { result ≤ length self.now.limits }
    {
        self.marks.mark(var).level
    }

    /// Begins the next level with an open literal. It takes no memory.
    pub fn decide(&mut self, lit: Lit)
        requires over { lit.var < self.old.vars }
        requires free { IsOpen self.old.marks lit.var }
        ensures state { self.new ≡ after_decide self.old lit }
        ensures justified { (clauses : List (List Literal)) →
            IsJustified self.old clauses → IsJustified self.new clauses }
    {
        let place = self.marks.len();
        self.limits.push_reserved(place);
        let level = self.limits.len() as u32;
        self.marks.push(lit, level, None);
    }

    /// Appends an open literal at the present level. The clause of the number `reason`, from 0 on,
    /// has the literal, and its others are false. It takes no memory.
    pub fn imply(&mut self, lit: Lit, reason: u32, clauses: &Formula)
        requires over { lit.var < self.old.vars }
        requires free { IsOpen self.old.marks lit.var }
        requires reason { IsReason clauses.now.clauses reason self.old.marks lit }
        ensures state { self.new ≡ after_imply self.old lit reason }
        ensures justified { IsJustified self.old clauses.now.clauses
            → IsJustified self.new clauses.now.clauses }
    {
        let level = self.level();
        self.marks.push(lit, level, Some(reason));
    }

    /// Takes away the literals of all levels above this one, which is at most the present one, in
    /// time that is linear in how many go.
    pub fn back_to(&mut self, level: u32)
        requires { level ≤ length self.old.limits }
        ensures state { self.new ≡ after_back self.old level }
        ensures justified { (clauses : List (List Literal)) →
            IsJustified self.old clauses → IsJustified self.new clauses }
    {
        let level = level as usize;
        if level < self.limits.len() {
            self.marks.truncate(self.limits[level]);
            self.limits.truncate(level);
        }
    }
}
