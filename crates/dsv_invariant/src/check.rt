// Candidates checked for a quantised controller.
ghost use Rattle.std.proofs.Props.{props};
ghost use Rattle.std.specs.Prelude.{◌≤◌, ◌^◌, IfOk, IfErr};
ghost use Rattle.dsv_invariant.specs.Netlists.{Realises};
ghost use Rattle.dsv_invariant.specs.Causes.{IsGood, IsFinding, IsShaped, IsCause};
ghost use Rattle.dsv_invariant.specs.Obstacles.{IfFound};

use crate::netlists::netlist_of;
use crate::parts::Obstacle;
use dsv_base::NoMemory;
use dsv_meaning::registers;
use dsv_netlist::Netlist;
use dsv_quantiser::Quantised;
use dsv_realise::Asking;
use dsv_template::{Candidate, SetPart, ThreeLogs, Why};
use std::alloc::Global;

/// A candidate that is checked for a quantised controller, of which this is the netlist, by
/// searches of which each learns at most so many clauses.
#[derive(Clone, Copy)]
pub(crate) struct Check<'a> {
    pub(crate) quantised: &'a Quantised,
    pub(crate) net: &'a Netlist,
    pub(crate) candidate: &'a Candidate,
    pub(crate) conflicts: u32,
    ghost realises: { Realises quantised.now net.now } by { Prim.hlevel props },
    ghost shaped: { IsShaped quantised.now candidate.now },
    ghost allowed: { 1 ≤ conflicts },
    ghost limited: { conflicts ≤ 2 ^ 30 },
}

impl<'a> Check<'a> {
    /// A log for each sentence of the candidate, or what is found where one isn't shown.
    fn three_logs(&self, alloc: Global) -> Result<ThreeLogs, Obstacle>
        ensures good { IfOk result
            (IsGood self.now.quantised.now self.now.conflicts self.now.candidate.now) }
        ensures found { IfErr result
            (IfFound (IsFinding self.now.quantised.now self.now.conflicts self.now.candidate.now)) }
    {
        let base = self.part_log(alloc, SetPart::Base)?;
        let step = self.part_log(alloc, SetPart::Step)?;
        let safe = self.part_log(alloc, SetPart::Safe)?;
        Ok(ThreeLogs { base, step, safe })
    }
}

/// What is found of a candidate for a quantised controller. A candidate whose numbers aren't as
/// they have to be is told so, and then the base, the step and the safe sentence are asked in this
/// order, each of a search that learns at most so many clauses. The first that isn't shown is the
/// answer, and each break replays. The job's size isn't looked at: `accept_unbounded` tests it.
pub fn check_candidate(
    alloc: Global,
    asking: &Asking<Quantised>,
    candidate: &Candidate,
    conflicts: u32,
) -> Result<Why, NoMemory>
    requires allowed { 1 ≤ conflicts }
    requires limited { conflicts ≤ 2 ^ 30 }
    ensures cause { IfOk result (IsCause asking.now.subject.now conflicts candidate.now) }
{
    let quantised = asking.subject;
    if !candidate.is_shaped(registers(quantised.realisation(), quantised.order() as u32)) {
        return Ok(Why::BadShape);
    }
    let check = Check {
        quantised,
        net: netlist_of(asking),
        candidate,
        conflicts,
    };
    match check.three_logs(alloc) {
        Ok(logs) => Ok(Why::Good(logs)),
        Err(Obstacle::Found(why)) => Ok(why),
        Err(Obstacle::NoMemory) => Err(NoMemory),
    }
}
