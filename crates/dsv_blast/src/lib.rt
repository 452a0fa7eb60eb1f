//! The formula of a bit-vector goal, made of gates with prime clauses.
#![tactic(auto)]

mod circuit;
mod gates;
mod goal_formula;
mod model_values;
mod multiples;
mod places;
mod term_bits;
mod words;

pub use goal_formula::{Blasted, blast};
pub use model_values::values_of;
pub use places::BitPlaces;
