//! Exact integer algebra: whole numbers that are refused where they pass a bound, the greatest
//! common divisor, and the definitions and lemmas on vectors, matrices and quadratic forms that the
//! crates above cite.
#![tactic(auto)]

mod divisor;
mod whole;

pub use divisor::common_divisor;
pub use whole::NarrowInteger;
