//! Exact fractions in lowest terms, whose parts have 128 bits, and the decimal numbers that spell
//! them.
#![tactic(auto)]

mod compare;
mod decimal;
mod divisor;
mod fraction;
mod law;
pub mod number;
mod wholes;

pub use decimal::DecimalRefusal;
pub use fraction::{Frac, FracList, MOST_COEFFICIENTS, TooWide};
pub use law::longest_number_is_taken;
