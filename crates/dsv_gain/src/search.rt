// The gain of a netlist.
ghost use Rattle.std.specs.Prelude.{◌≡◌, IfOk};
ghost use Rattle.dsv_gain.specs.Gains.{first_gain};
ghost use Rattle.dsv_gain.specs.Narrowing.{gain_of};
ghost use Rattle.dsv_network.specs.Laws.{IsWithin};
ghost use Rattle.dsv_gain.specs.Safe.{HoldInRuns, NeverBreaks, IfSafe};

use crate::box_ranges::with_narrowed;
use crate::starts::{word_starts, words_network};
use dsv_base::NoMemory;
use dsv_network::Outlook;
use dsv_realise::RangedNetlist;
use std::alloc::Global;

/// What a pass over the samples below the limit finds, from registers that are any words.
fn first_gain(alloc: Global, subject: &RangedNetlist, limit: u32) -> Result<Outlook, NoMemory>
    ensures { IfOk result (λ gain. gain
        ≡ first_gain subject.now.net.now subject.now.low subject.now.high limit) }
{
    let network = words_network(alloc, subject)?;
    let starts = word_starts(alloc, subject)?;
    dsv_network::gain_of(alloc, &network, starts, limit)
}

/// What is found of the runs of a netlist from registers of zeros, over inputs in its range, of any
/// length, by passes over the samples below the limit: the first one from registers that are any
/// words, and those after it, at most eight, from what registers hold by the ranges before. It ends
/// with the pass by which no range narrows by more than a sixteenth.
pub fn gain_of(alloc: Global, subject: &RangedNetlist, limit: u32) -> Result<Outlook, NoMemory>
    ensures made { IfOk result (λ gain. gain
        ≡ gain_of subject.now.net.now subject.now.low subject.now.high limit) }
    ensures holds { IfOk result (λ gain. IfSafe gain (λ g. HoldInRuns
        subject.now.net.now subject.now.low subject.now.high g.ranges)) }
    ensures safe { IfOk result (λ gain. IfSafe gain (λ g. NeverBreaks
        subject.now.net.now subject.now.low subject.now.high)) }
    ensures within { IfOk result (λ gain. IfSafe gain (IsWithin limit)) }
{
    let _count = subject.net.len(); // its range, for the proof
    let found = first_gain(alloc, subject, limit)?;
    with_narrowed(alloc, subject, limit, found)
}
