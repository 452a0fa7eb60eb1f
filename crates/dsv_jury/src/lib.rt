//! Jury's recursion on the coefficients of a polynomial, in exact arithmetic, as a verdict alone.
#![tactic(auto)]

mod factor;
mod law;
mod recursion;
mod verdict;

pub use law::one_verdict;
pub use recursion::jury;
pub use verdict::Jury;
