//! Texts as lines, lines as pieces between spaces, and the numbers that pieces are.
#![tactic(auto, using(dsv_algebra::proofs::Casts::casts))]

mod lines;
mod numbers;
mod pieces;

pub use lines::{Line, Lines};
pub use numbers::{integer_of, is_numeral, numeral_of, positive_of};
pub use pieces::{Pieces, length_before, spaces_in};
