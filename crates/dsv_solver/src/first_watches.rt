// The formula's clauses are watched at level 0.
ghost use Rattle.std.specs.Prelude.{◌<◌, ◌-◌, ◌^◌};
ghost use Rattle.std.specs.Prelude.{true, IfOk};
ghost use Rattle.std.specs.Prelude.{MatchOption, length, Some};
ghost use Rattle.dsv_solver.specs.Solving.{IsBegun, IsStuck, IsSettling, IsOther, AreAllOne};

use crate::analyse::first_literal;
use crate::watches::{Pair, Watches};
use dsv_base::NoMemory;
use dsv_cnf::{Formula, Lit};
use dsv_trail::Trail;

/// A literal of the clause that is another one.
#[tactic(auto, using(crate::proofs::Others::none, crate::proofs::Others::at, crate::proofs::Others::more))]
fn other_than(clause: &[Lit], first: Lit) -> Option<Lit>
    ensures { MatchOption result (AreAllOne clause.now first) (IsOther clause.now first) }
{
    for literal in clause {
        if !literal.is(&first) {
            return Some(*literal);
        }
    }
    None
}

/// Watches a clause, and puts its literal where it has one alone. It answers whether the clause
/// isn't false.
fn settle(
    clauses: &Formula,
    trail: &mut Trail,
    watches: &mut Watches,
    i: u32,
) -> Result<bool, NoMemory>
    requires begun { IsBegun clauses.now trail.old watches.old i }
    requires inside { i < length clauses.now.clauses }
    requires few { length clauses.now.clauses < 2 ^ 32 - 1 }
    ensures { IfOk result (IsSettling clauses.now trail.new watches.new i) }
{
    let clause = clauses.clause(i);
    let Some(first) = first_literal(clause) else {
        return Ok(false);
    };
    if let Some(other) = other_than(clause, first) {
        watches.add(Pair { one: first, other })?;
        return Ok(true);
    }
    if trail.is_false(first) {
        return Ok(false);
    }
    watches.add(Pair {
        one: first,
        other: first,
    })?;
    if trail.is_false(first.negation()) {
        return Ok(true);
    }
    let _count = trail.len(); // its range, for the proof
    trail.imply(first, i, clauses);
    Ok(true)
}

/// Watches all clauses; or the number of one that is false.
pub fn load(
    clauses: &Formula,
    trail: &mut Trail,
    watches: &mut Watches,
) -> Result<Option<u32>, NoMemory>
    requires begun { IsBegun clauses.now trail.old watches.old 0 }
    requires few { length clauses.now.clauses < 2 ^ 32 - 1 }
    ensures { IfOk result (λ r. MatchOption r (IsBegun clauses.now trail.new watches.new
        (length clauses.now.clauses)) (IsStuck clauses.now trail.new)) }
{
    for i in 0..clauses.len() {
        if !settle(clauses, trail, watches, i)? {
            return Ok(Some(i));
        }
    }
    Ok(None)
}
