// The formulas of questions about a subject's runs.
ghost use Rattle.std.specs.Prelude.{◌≡◌, ◌≤◌, ◌↔◌, IfOk};
ghost use Rattle.dsv_bounded.specs.Refusals.{IsSized};
ghost use Rattle.dsv_bounded.specs.RunQuestions.{job_size_of, Happens, question_formula};
ghost use Rattle.dsv_bounded.specs.RunQuestions.{BreaksWithin, overflow_formula_of};
ghost use Rattle.dsv_bounded.specs.RunQuestions.{CyclesWithin, cycle_formula_of};
ghost use Rattle.dsv_cnf.specs.Formula.{IsSatisfiable};

use crate::cycles::netlist_cycle_formula;
use crate::overflows::netlist_overflow_formula;
use crate::refusals::{BoundedRefusal, accept_size};
use dsv_cnf::Formula;
use dsv_names::RunProperty;
use dsv_realise::{Asking, Subject};
use std::alloc::Global;

/// The formula of an overflow within so many samples.
fn overflow_formula<S: Subject>(
    alloc: Global,
    asking: &Asking<S>,
    samples: u32,
) -> Result<Formula, BoundedRefusal>
    requires { samples ≤ 64 }
    ensures sized { IsSized (job_size_of (S.view asking.now.subject.now) samples) result }
    ensures formula { IfOk result
        (λ f. f ≡ overflow_formula_of (S.view asking.now.subject.now) samples) }
    ensures told { IfOk result
        (λ f. IsSatisfiable f.clauses ↔ BreaksWithin (S.view asking.now.subject.now) samples) }
{
    accept_size(asking, samples)?;
    Ok(netlist_overflow_formula(alloc, &asking.ranged_netlist(), samples)?)
}

/// The formula of a limit cycle of a period up to this.
fn cycle_formula<S: Subject>(
    alloc: Global,
    asking: &Asking<S>,
    periods: u32,
) -> Result<Formula, BoundedRefusal>
    requires some { 1 ≤ periods }
    requires few { periods ≤ 64 }
    ensures sized { IsSized (job_size_of (S.view asking.now.subject.now) periods) result }
    ensures formula { IfOk result
        (λ f. f ≡ cycle_formula_of (S.view asking.now.subject.now) periods) }
    ensures told { IfOk result
        (λ f. IsSatisfiable f.clauses ↔ CyclesWithin (S.view asking.now.subject.now) periods) }
{
    accept_size(asking, periods)?;
    Ok(netlist_cycle_formula(alloc, &asking.ranged_netlist(), periods)?)
}

/// The formula of the question whether a property happens within 1 to 64 samples.
pub fn formula<S: Subject>(
    alloc: Global,
    asking: &Asking<S>,
    property: RunProperty,
    samples: u32,
) -> Result<Formula, BoundedRefusal>
    requires some { 1 ≤ samples }
    requires few { samples ≤ 64 }
    ensures sized { IsSized (job_size_of (S.view asking.now.subject.now) samples) result }
    ensures formula { IfOk result
        (λ f. f ≡ question_formula property (S.view asking.now.subject.now) samples) }
    // Some assignment satisfies it exactly where the property happens.
    ensures told { IfOk result
        (λ f. IsSatisfiable f.clauses ↔ Happens property (S.view asking.now.subject.now) samples) }
{
    match property {
        RunProperty::Overflow => overflow_formula(alloc, asking, samples),
        RunProperty::LimitCycle => cycle_formula(alloc, asking, samples),
    }
}
