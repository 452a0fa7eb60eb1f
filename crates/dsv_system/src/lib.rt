//! Systems that run in words, apart from what they compute: their runs, and what breaks in them.
#![tactic(auto)]

mod exact_list;
mod outside;
mod rows;

pub use exact_list::{ExactList, MOST_EXACT};
pub use outside::{OutsideValue, first_outside};
pub use rows::{Row, Rows, is_heard};
