//! Goals of bit-vector terms made simpler before they become circuits: constants are folded, and
//! products by constants become sums of shifted copies.
#![tactic(auto)]

mod constants;
mod digits;
mod pairs;
mod part;
mod rewriting;

pub use rewriting::simplify;
