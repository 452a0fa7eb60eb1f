// The formulas of a candidate's sentences.
ghost use Rattle.std.specs.Prelude.{◌≡◌, IfOk};
ghost use Rattle.dsv_cnf.specs.Formula.{IsUnsatisfiable};
ghost use Rattle.dsv_invariant.specs.Causes.{Holds, IsShaped};
ghost use Rattle.dsv_invariant.specs.Formulas.{set_formula_of};

use crate::netlists::netlist_of;
use crate::parts::part_goal;
use dsv_base::NoMemory;
use dsv_bounded::goal_formula;
use dsv_cnf::Formula;
use dsv_quantiser::Quantised;
use dsv_realise::Asking;
use dsv_template::{Candidate, SetPart};
use std::alloc::Global;

/// The formula that a sentence of the candidate is broken for a quantised controller.
#[tactic(auto, unfolding(crate::specs::Formulas::set_formula_of))]
pub fn set_formula(
    alloc: Global,
    asking: &Asking<Quantised>,
    candidate: &Candidate,
    part: SetPart,
) -> Result<Formula, NoMemory>
    requires shaped { IsShaped asking.now.subject.now candidate.now }
    ensures formula { IfOk result
        (λ f. f ≡ set_formula_of asking.now.subject.now candidate.now part) }
    // Where no assignment satisfies it, the sentence holds in the written equations.
    ensures holds { IfOk result
        (λ f. IsUnsatisfiable f.clauses → Holds asking.now.subject.now candidate.now part) }
{
    let net = netlist_of(asking);
    let goal = part_goal(alloc, asking.subject, net, candidate, part)?;
    let blasted = goal_formula(alloc, goal)?;
    Ok(blasted.formula)
}
