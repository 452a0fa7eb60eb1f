// Decisions, until a clause is false or every variable has a value.
ghost use Rattle.std.specs.Prelude.{◌≡◌, ◌≤◌, ◌^◌, false, IfOk, IfSome, MatchOption, Some};
ghost use Rattle.dsv_solver.specs.Propagation.{IsReady, IsConflict};
ghost use Rattle.dsv_solver.specs.Search.{IsFull, IsOpenAt, IsComplete};
ghost use Rattle.dsv_solver.specs.Ending.{IsRestarted};

use crate::order::Order;
use crate::state::State;
use dsv_base::NoMemory;
use dsv_cnf::Lit;
use dsv_trail::Trail;

/// The literal that is decided next in the order, if its variable is open.
fn next_literal(trail: &Trail, order: &mut Order) -> Option<Lit>
    requires { trail.now.vars ≤ 2 ^ 31 }
    ensures { IfSome result (IsOpenAt trail.now) }
{
    let var = order.pop()?;
    if var >= trail.vars() {
        return None;
    }
    let literal = Lit::new(var, order.phase(var));
    match trail.value(literal) {
        None => Some(literal),
        Some(_) => None,
    }
}

/// The negation of the first open variable.
fn first_open(trail: &Trail) -> Option<Lit>
    requires { trail.now.vars ≤ 2 ^ 31 }
    ensures { MatchOption result (IsFull trail.now) (IsOpenAt trail.now) }
{
    for var in 0..trail.vars() {
        let literal = Lit::new(var, false);
        match trail.value(literal) {
            None => return Some(literal),
            Some(_) => {}
        }
    }
    None
}

/// An open literal, by the order; or the first one, where the order has none.
fn choose(trail: &Trail, order: &mut Order) -> Option<Lit>
    requires { trail.now.vars ≤ 2 ^ 31 }
    ensures { MatchOption result (IsFull trail.now) (IsOpenAt trail.now) }
{
    for _ in 0..order.len() {
        if let Some(literal) = next_literal(trail, order) {
            return Some(literal);
        }
    }
    first_open(trail)
}

/// Puts the variables of the literals from this place on back into the order.
pub(crate) fn put_back(order: &mut Order, trail: &Trail, from: u32) {
    for i in from..trail.len() {
        order.put_back(trail.at(i));
    }
}

impl State {
    /// Decides and propagates until every variable has a value, or the number of a clause that is
    /// false.
    pub fn advance(&mut self, order: &mut Order) -> Result<Option<u32>, NoMemory>
        requires ready { IsReady self.old.clauses self.old.trail self.old.watches self.old.head }
        ensures clauses { self.new.clauses ≡ self.old.clauses }
        ensures ready { IfOk result (λ r. IsReady self.new.clauses self.new.trail self.new.watches
            self.new.head) }
        ensures answer { IfOk result (λ r. MatchOption r (IsComplete self.new.trail self.new.head)
            (IsConflict self.new.clauses self.new.trail)) }
    {
        let mut found = self.propagate()?;
        while found.is_none() {
            let _count = self.trail.len(); // its range, for the proof
            let _vars = self.clauses.vars(); // its range, for the proof
            let Some(literal) = choose(&self.trail, order) else {
                return Ok(None);
            };
            self.trail.decide(literal);
            found = self.propagate()?;
        }
        Ok(found)
    }

    /// Goes back to level 0.
    pub fn restart(&mut self, order: &mut Order)
        ensures clauses { self.new.clauses ≡ self.old.clauses }
        ensures watches { self.new.watches ≡ self.old.watches }
        ensures trail { IsRestarted self.old.trail self.new.trail self.old.head self.new.head }
    {
        if self.trail.level() > 0 {
            let limit = self.trail.limit(0);
            put_back(order, &self.trail, limit);
            self.trail.back_to(0);
            self.head = self.trail.len();
        }
    }
}
