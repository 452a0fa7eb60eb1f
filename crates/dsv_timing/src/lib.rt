//! Timing: how many cycles the work of a sample takes, and whether it is done in time.
#![tactic(auto, using(dsv_algebra::proofs::Casts::casts))]

mod deadline;
mod report;
mod work;

pub use deadline::in_time;
pub use report::timing_report;
pub use work::{TimingReport, cycles};
