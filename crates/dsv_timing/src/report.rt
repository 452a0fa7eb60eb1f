// What a sample takes, and the time that it has.
ghost use Rattle.std.specs.Prelude.{◌≡◌};
ghost use Rattle.dsv_netlist.specs.Counts.{counts_of};
ghost use Rattle.dsv_reader.specs.Controllers.{IsTime};
ghost use Rattle.dsv_timing.specs.Cycles.{cycles_of};

use crate::work::{TimingReport, cycles};
use dsv_netlist::Netlist;
use dsv_reader::Controller;

/// What a sample of a controller's netlist takes, and the time that the controller's file gives it.
pub fn timing_report(controller: &Controller, net: &Netlist) -> TimingReport
    ensures counts { result.counts ≡ counts_of net.now }
    ensures cycles { result.cycles ≡ cycles_of (counts_of net.now) controller.now.costs }
    ensures clock { result.clock ≡ controller.now.clock }
    ensures sample_time { result.sample_time ≡ controller.now.sample_time }
    ensures time { IsTime result.sample_time }
{
    let counts = net.counts();
    TimingReport {
        counts,
        cycles: cycles(&counts, controller.costs()),
        clock: controller.clock(),
        sample_time: *controller.sample_time(),
    }
}
