// Truth assignments.
ghost use Rattle.std.specs.Prelude.{◌≡◌, ◌^◌, ◌<◌, length, replicate, slice_set, IfOk, false};
ghost use Rattle.dsv_cnf.specs.Formula.{IsOver, assignment_of, clause_value};

use crate::Lit;
use dsv_base::NoMemory;
use std::alloc::Global;
use std::marker::Model;

/// A truth value for each of some variables. Contracts see it as the list of these values.
#[derive(Drop)]
pub struct Assignment {
    values: Vec<bool>,
}

impl Model for Assignment {
    ghost use Rattle.std.specs.Prelude.{◌^◌, ◌<◌, Bool, List, length};

    ghost Value = { List Bool };

    ghost view = { λ a. a.values.items };

    ghost invariant = { λ a. length a.values.items < 2 ^ 32 };
}

impl Assignment {
    /// So many variables, all false.
    pub fn new(alloc: Global, vars: u32) -> Result<Self, NoMemory>
        ensures { IfOk result (λ a. a ≡ replicate vars false) }
    {
        Ok(Assignment {
            values: vec![in alloc; false; vars as usize]?,
        })
    }

    /// How many variables have a value.
    pub fn vars(&self) -> u32
        ensures { result ≡ length self.now }
    {
        self.values.len() as u32
    }

    /// The value of the variable with this number, from 0 on.
    pub fn get(&self, var: u32) -> bool
        requires { var < length self.now }
        ensures { result ≡ assignment_of self.now var }
    {
        self.values[var as usize]
    }

    /// Gives the variable with this number, from 0 on, this value.
    pub fn set(&mut self, var: u32, value: bool)
        requires { var < length self.old }
        ensures { self.new ≡ slice_set self.old var value }
    {
        self.values[var as usize] = value;
    }
}

/// Whether some literal of the clause is true.
pub fn holds(clause: &[Lit], values: &Assignment) -> bool
    requires { IsOver (length values.now) clause.now }
    ensures { result ≡ clause_value (assignment_of values.now) clause.now }
{
    for literal in clause {
        if values.get(literal.var()) == literal.is_positive() {
            return true;
        }
    }
    false
}
