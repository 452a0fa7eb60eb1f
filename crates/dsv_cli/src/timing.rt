// Checks whether the work of a sample is done in time.
ghost use Rattle.dsv_cli.specs.Causes.{IsOfTiming, IsPlain};

use dsv_quantiser::Quantised;
use dsv_reader::Controller;
use dsv_realise::realise;
use dsv_report::{Answer, Stop};
use dsv_timing::{in_time, timing_report};
use std::alloc::Global;

/// The answer whether a sample is done in time.
pub(crate) fn timing_answer(
    alloc: Global,
    controller: &Controller,
    quantised: &Quantised,
) -> Result<Answer, Stop>
    ensures timing { IsOfTiming controller.now quantised.now result }
    ensures plain { IsPlain result }
{
    let net = realise(alloc, quantised)?;
    let report = timing_report(controller, &net);
    if in_time(report.cycles, report.clock, &report.sample_time) {
        Ok(Answer::OnTime(report))
    } else {
        Ok(Answer::Late(report))
    }
}
