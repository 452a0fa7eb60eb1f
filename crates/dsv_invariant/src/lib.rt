//! Overflow over runs of any length: whether a quantised controller keeps to a candidate's set, by
//! a search for what breaks each of its sentences.
#![tactic(auto)]

mod breaks;
mod check;
mod exits;
mod formulas;
mod netlists;
mod outside;
mod parts;
mod shape;
mod size;

pub use check::check_candidate;
pub use formulas::set_formula;
pub use shape::shape_of;
pub use size::{UNBOUNDED_SAMPLES, accept_unbounded};
