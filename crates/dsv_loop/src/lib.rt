//! The loop of a quantised controller with its plant: the polynomial whose roots decide on its
//! stability.
#![tactic(auto)]

mod expansion;
mod law;
mod loops;
mod products;
mod quotients;
mod refusal;
mod transfer;

pub use law::{loop_is_its_recursion, plant_is_made_whole, sections_are_in_series};
pub use loops::loop_polynomial;
pub use refusal::{LoopRefusal, LoopStop};
