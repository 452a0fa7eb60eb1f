// The netlist of a quantised controller.
ghost use Rattle.dsv_invariant.specs.Netlists.{Realises};

use dsv_netlist::Netlist;
use dsv_quantiser::Quantised;
use dsv_realise::Asking;

/// The netlist of a quantised controller. It runs as the written equations do.
pub(crate) fn netlist_of<'a>(asking: &'a Asking<'_, Quantised>) -> &'a Netlist
    ensures { Realises asking.now.subject.now result.now }
{
    let _order = asking.subject.order(); // its range, for the proof
    &asking.net
}
