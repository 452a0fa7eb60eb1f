//! What is found of a state-space controller in words by the table of its polynomial.
#![tactic(auto, using(dsv_algebra::proofs::Casts::casts))]

mod finding;
mod rows;

pub use finding::state_finding;
