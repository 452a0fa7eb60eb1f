// Seeks a set that a controller never leaves among those that are offered.
ghost use Rattle.std.specs.Prelude.{◌≡◌, ◌<◌, [], Some, IfOk, IfSome};
ghost use Rattle.dsv_bounded.specs.Refusals.{IsSized};
ghost use Rattle.dsv_invariant.specs.Shapes.{shape_of};
ghost use Rattle.dsv_invariant.specs.Limits.{unbounded_samples};
ghost use Rattle.dsv_template.specs.Shapes.{IsLawful};
ghost use Rattle.dsv_base.specs.Lists.{AreBlocks, IsTurn};
ghost use Rattle.dsv_cli.specs.Causes.{IsOfSets};
ghost use Rattle.dsv_cli.specs.Proposers.{AreSetsAsked};
ghost use Rattle.dsv_bounded.specs.RunQuestions.{IsWithin, job_size_of};
ghost use Rattle.dsv_cli.specs.SetAsking.{turn_of, candidate_of, found_of, IsJudgedSet};
ghost use Rattle.dsv_cli.specs.SetAsking.{IfKept, IfNoSet};
ghost use Rattle.dsv_invariant.specs.Sets.{KeepsTo, NoneIsGood, candidates, told_for};
ghost use Rattle.dsv_base.specs.Lists.{IsSuffix, IfFirst};
ghost use Rattle.dsv_report.specs.Printing.{HasPlaces};
ghost use Rattle.dsv_template.specs.declared.verdict.Why.TheVariants as why;
ghost use Rattle.dsv_unroll.specs.Goals.{most_size};
ghost use Rattle.dsv_realise.specs.Controllers.{of_controller};

use crate::questions::question_stop;
use crate::turns::{Turn, first_accepted};
use dsv_base::NoMemory;
use dsv_bounded::BoundedRefusal;
use dsv_command::Budget;
use dsv_invariant::{accept_unbounded, check_candidate, shape_of};
use dsv_quantiser::Quantised;
use dsv_realise::Asking;
use dsv_report::{Answer, Stop};
use dsv_template::{Candidate, InvariantProposer, KeptSet, KeptSets, ThreeLogs, Why};
use std::alloc::Global;

/// What came of asking a proposer of sets once.
type SetTurn = Turn<(Candidate, ThreeLogs), KeptSet>;

/// What came of asking where this was found of the offer.
fn turn_of(candidate: Candidate, why: Why) -> SetTurn
    ensures made { result ≡ turn_of candidate why }
    ensures offer { candidate_of result ≡ Some candidate }
    ensures found { found_of result ≡ Some why }
{
    match why {
        Why::Good(logs) => Turn::Accepted((candidate, logs)),
        why => Turn::Refused(KeptSet { candidate, why }),
    }
}

/// What came of asking the proposers of sets.
#[derive(Drop)]
pub enum SetAnswer {
    /// The controller never leaves the candidate's set.
    Kept {
        candidate: Candidate,
        logs: ThreeLogs,
    },
    /// No candidate is good: all of them with their causes.
    NoInvariant {
        kept: KeptSets,
    },
}

/// What comes of asking the proposers in their order ([`first_accepted`]).
fn asked_sets(
    alloc: Global,
    asking: &Asking<Quantised>,
    budget: &Budget,
    sets: &mut Vec<Box<dyn InvariantProposer>>,
) -> Result<SetAnswer, NoMemory>
    requires { IsWithin (of_controller asking.now.subject.now) unbounded_samples }
    ensures suffix { IsSuffix (λ b. b.ptr) sets.old.items sets.new.items }
    ensures good { IfOk result
        (λ a. IfKept a (KeepsTo asking.now.subject.now budget.now.conflicts)) }
    ensures last { IfOk result (λ a. IfKept a (λ candidate logs.
        IfFirst sets.new.items (λ b. last b ≡ Some candidate))) }
    ensures heard { IfOk result (λ a. IfKept a (λ candidate logs.
        IfFirst sets.new.items (λ b. heard b (why.Good logs)))) }
    ensures none_left { IfOk result (λ a. IfNoSet a (λ kept. sets.new.items ≡ [])) }
    ensures causes { IfOk result
        (λ a. IfNoSet a (NoneIsGood asking.now.subject.now budget.now.conflicts)) }
    ensures blocks { IfOk result (λ a. IfNoSet a (λ kept. AreBlocks 32
        (told_for (λ b shape. to_come b shape) asking.now.subject.now sets.old.items)
        (candidates kept))) }
{
    let shape = shape_of(asking.subject);
    // Asks a proposer once, and tells it what was found of its offer.
    let ask = |first: &mut Box<dyn InvariantProposer>| -> Result<SetTurn, NoMemory>
        requires lawful { IsLawful shape }
        ensures same { first.new.ptr ≡ first.old.ptr }
        ensures judged { IfOk result
            (IsJudgedSet asking.entry.now.subject.now budget.entry.now.conflicts) }
        ensures last { IfOk result (λ came. IfSome (candidate_of came) (λ c.
            last first.new ≡ Some c)) }
        ensures turn { IfOk result (λ came. IsTurn (to_come first.old shape)
            (to_come first.new shape) (candidate_of came)) }
        ensures heard { IfOk result (λ came. IfSome (found_of came) (λ why.
            heard first.new why)) }
    {
        let Some(candidate) = first.propose(alloc, &shape)? else {
            return Ok(Turn::Nothing);
        };
        let why = check_candidate(alloc, asking, &candidate, budget.conflicts)?;
        first.tell(&why);
        Ok(turn_of(candidate, why))
    };
    let mut kept = KeptSets::new(alloc);
    match first_accepted(sets, &mut kept, ask)? {
        Some((candidate, logs)) => Ok(SetAnswer::Kept { candidate, logs }),
        None => Ok(SetAnswer::NoInvariant { kept }),
    }
}

/// Seeks a set that a controller never leaves and in which it never overflows, among those that the
/// proposers offer, who are asked in their order. One that offers nothing, or whose 32nd offer
/// wasn't good, is dropped; one whose offer is good stays in front. The size of the job is tested
/// before anybody is asked.
pub fn seek_set(
    alloc: Global,
    quantised: &Quantised,
    budget: &Budget,
    sets: &mut Vec<Box<dyn InvariantProposer>>,
) -> Result<SetAnswer, BoundedRefusal>
    // The job is refused exactly where it is too large, want of memory aside, and nobody is asked
    // then.
    ensures sized { IsSized (job_size_of (of_controller quantised.now) unbounded_samples) result }
    ensures unasked { most_size < job_size_of (of_controller quantised.now) unbounded_samples
        → sets.new.items ≡ sets.old.items }
    // What is left of the proposers: the last of them, and only the first was asked.
    ensures suffix { IsSuffix (λ b. b.ptr) sets.old.items sets.new.items }
    // A set is good, the first proposer that is left gave it last, and has heard that it is good.
    ensures good { IfOk result (λ a. IfKept a (KeepsTo quantised.now budget.now.conflicts)) }
    ensures last { IfOk result (λ a. IfKept a (λ candidate logs.
        IfFirst sets.new.items (λ b. last b ≡ Some candidate))) }
    ensures heard { IfOk result (λ a. IfKept a (λ candidate logs.
        IfFirst sets.new.items (λ b. heard b (why.Good logs)))) }
    // No set: no proposer is left, no kept candidate is good, and they were asked in their order.
    ensures none_left { IfOk result (λ a. IfNoSet a (λ kept. sets.new.items ≡ [])) }
    ensures causes { IfOk result (λ a. IfNoSet a (NoneIsGood quantised.now budget.now.conflicts)) }
    ensures blocks { IfOk result (λ a. IfNoSet a (λ kept. AreBlocks 32
        (told_for (λ b shape. to_come b shape) quantised.now sets.old.items) (candidates kept))) }
{
    accept_unbounded(quantised)?;
    let asking = Asking::of(alloc, quantised)?;
    Ok(asked_sets(alloc, &asking, budget, sets)?)
}

/// The answer on runs of any length, by what the proposers of sets offer.
pub(crate) fn sets_answer(
    alloc: Global,
    quantised: &Quantised,
    budget: &Budget,
    sets: &mut Vec<Box<dyn InvariantProposer>>,
) -> Result<Answer, Stop>
    ensures sets { IsOfSets budget.now.conflicts quantised.now result }
    ensures places { IfOk result HasPlaces }
    ensures proposers { AreSetsAsked (λ b. b.ptr) (λ b. last b) (λ b shape. to_come b shape)
        (λ w. w ≡ quantised.now) sets.old.items sets.new.items result }
{
    match seek_set(alloc, quantised, budget, sets) {
        Ok(SetAnswer::Kept { candidate, logs }) => Ok(Answer::Always { candidate, logs }),
        Ok(SetAnswer::NoInvariant { kept }) => Ok(Answer::NoInvariant { kept }),
        Err(refusal) => Err(question_stop(refusal)),
    }
}
