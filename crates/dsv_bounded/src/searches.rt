// Questions about a subject's runs of so many samples: overflow over all lists of inputs, and limit
// cycles from all starts.
ghost use Rattle.std.specs.Prelude.{◌≤◌, ◌^◌, IfOk};
ghost use Rattle.dsv_bounded.specs.Refusals.{IsSized};
ghost use Rattle.dsv_bounded.specs.RunQuestions.{job_size_of, BreaksWithin, overflow_formula_of};
ghost use Rattle.dsv_bounded.specs.RunQuestions.{CyclesWithin, IsCycle, cycle_formula_of};
ghost use Rattle.dsv_hints.specs.Lessons.{IsRefutation, IsSpent};
ghost use Rattle.dsv_hints.specs.Searches.{IfHappens, IfNever, IfSpent};
ghost use Rattle.dsv_realise.specs.Runs.{IsTrace};

use crate::cycles::netlist_cycle;
use crate::overflows::netlist_overflow;
use crate::refusals::{BoundedRefusal, accept_size};
use dsv_hints::Searched;
use dsv_meaning::{Cycle, Trace};
use dsv_realise::{Asking, Subject};
use std::alloc::Global;

/// Whether a list of 1 to 64 inputs in range breaks a subject from registers of zeros: first some
/// lists are tried, and then there is a search that learns at most so many clauses. A trace that is
/// found replays in the subject's equations.
pub fn overflow_within<S: Subject>(
    alloc: Global,
    asking: &Asking<S>,
    samples: u32,
    conflicts: u32,
) -> Result<Searched<Trace>, BoundedRefusal>
    requires some { 1 ≤ samples }
    requires few { samples ≤ 64 }
    requires allowed { 1 ≤ conflicts }
    requires limited { conflicts ≤ 2 ^ 30 }
    ensures sized { IsSized (job_size_of (S.view asking.now.subject.now) samples) result }
    // No list of so many inputs in range breaks it.
    ensures never { IfOk result
        (IfNever (λ log. BreaksWithin (S.view asking.now.subject.now) samples → ⊥)) }
    // The log is a derivation of the empty clause from the job's formula.
    ensures refuted { IfOk result (IfNever
        (IsRefutation (overflow_formula_of (S.view asking.now.subject.now) samples) conflicts)) }
    ensures trace { IfOk result (IfHappens (IsTrace (S.view asking.now.subject.now) samples)) }
    ensures spent { IfOk result (IfSpent
        (IsSpent (overflow_formula_of (S.view asking.now.subject.now) samples) conflicts)) }
{
    accept_size(asking, samples)?;
    Ok(netlist_overflow(alloc, &asking.ranged_netlist(), samples, conflicts)?)
}

/// Whether a start has a limit cycle of a period from 1 to `periods`, which is 1 to 64: first some
/// starts are tried, and then there is a search that learns at most so many clauses. A cycle that
/// is found replays in the subject's equations.
pub fn cycle_within<S: Subject>(
    alloc: Global,
    asking: &Asking<S>,
    periods: u32,
    conflicts: u32,
) -> Result<Searched<Cycle>, BoundedRefusal>
    requires some { 1 ≤ periods }
    requires few { periods ≤ 64 }
    requires allowed { 1 ≤ conflicts }
    requires limited { conflicts ≤ 2 ^ 30 }
    ensures sized { IsSized (job_size_of (S.view asking.now.subject.now) periods) result }
    // No start has a cycle of such a period.
    ensures never { IfOk result
        (IfNever (λ log. CyclesWithin (S.view asking.now.subject.now) periods → ⊥)) }
    // The log is a derivation of the empty clause from the job's formula.
    ensures refuted { IfOk result (IfNever
        (IsRefutation (cycle_formula_of (S.view asking.now.subject.now) periods) conflicts)) }
    ensures cycle { IfOk result (IfHappens (IsCycle (S.view asking.now.subject.now) periods)) }
    ensures spent { IfOk result (IfSpent
        (IsSpent (cycle_formula_of (S.view asking.now.subject.now) periods) conflicts)) }
{
    accept_size(asking, periods)?;
    Ok(netlist_cycle(alloc, &asking.ranged_netlist(), periods, conflicts)?)
}
