//! Generated controllers: second-order controllers with pseudo-random coefficients, what is found
//! of each, and how many there are of each finding.
#![tactic(auto, using(dsv_algebra::proofs::Casts::casts))]

mod controllers;
mod draws;
mod finding;
mod generator;
mod tally;

pub use finding::{Finding, RootFinding};
pub use generator::{CONFLICTS, SAMPLES, generate};
