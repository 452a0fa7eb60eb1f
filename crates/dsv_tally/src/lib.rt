//! The counts of generated controllers by what is found of them, and the logs of searches that gave
//! up. `dsv_generator` makes them, and `dsv_report` writes them.
#![tactic(auto)]

mod tally;

pub use tally::{Generated, SpentLog, SpentLogs, Tally};
