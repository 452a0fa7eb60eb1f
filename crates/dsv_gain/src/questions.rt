// Overflow of a subject over runs of any length, by the gain of its netlist.
ghost use Rattle.std.specs.Prelude.{◌≡◌, IfOk, IfSome};
ghost use Rattle.dsv_gain.specs.Safe.{IfSafe};
ghost use Rattle.dsv_gain.specs.Subjects.{outlook_of, HoldsAlways, NeverOverflows, most_driven};
ghost use Rattle.dsv_realise.specs.Runs.{IsTrace};

use crate::lists::driven_trace;
use crate::search::gain_of;
use dsv_base::NoMemory;
use dsv_meaning::Trace;
use dsv_network::Outlook;
use dsv_realise::{Asking, Subject};
use std::alloc::Global;

/// What is found of a subject's runs from registers of zeros, over inputs in its range, of any
/// length, by the samples below the limit.
pub fn gain<S: Subject>(alloc: Global, asking: &Asking<S>, limit: u32) -> Result<Outlook, NoMemory>
    ensures made { IfOk result (λ gain. gain ≡ outlook_of (S.view asking.now.subject.now) limit) }
    ensures holds { IfOk result
        (λ gain. IfSafe gain (λ g. HoldsAlways (S.view asking.now.subject.now) g.ranges)) }
    ensures safe { IfOk result
        (λ gain. IfSafe gain (λ g. NeverOverflows (S.view asking.now.subject.now))) }
{
    gain_of(alloc, &asking.ranged_netlist(), limit)
}

/// A trace that breaks a subject, found among the lists of inputs that drive exact values farthest:
/// those of this sample, and then those of the samples after it.
pub fn driven<S: Subject>(
    alloc: Global,
    asking: &Asking<S>,
    sample: u32,
) -> Result<Option<Trace>, NoMemory>
    ensures { IfOk result
        (λ trace. IfSome trace (IsTrace (S.view asking.now.subject.now) most_driven)) }
{
    driven_trace(alloc, &asking.ranged_netlist(), sample)
}
