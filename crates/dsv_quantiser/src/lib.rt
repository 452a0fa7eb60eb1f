//! Quantised controllers.
#![tactic(auto)]

mod law;
mod quantisation;
mod quantised;
mod range;
mod refusal;
mod words;

pub use law::converted_leading_is_one;
pub use quantisation::{quantise, quantise_in};
pub use quantised::Quantised;
pub use range::{InputRange, range_of};
pub use refusal::QuantRefusal;
pub use words::{Coeffs, MOST_COEFFICIENTS, b_words};
