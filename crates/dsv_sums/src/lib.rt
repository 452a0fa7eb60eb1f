//! Forms that are found for a polynomial of any order: sums of its steps, with squares by rounded
//! elimination.
#![tactic(auto)]

mod elimination;
mod partial_sums;
mod quotient;
mod search;

pub use elimination::squares_of;
pub use search::{MOST_LOOKS, SumOffer, first_offer};
