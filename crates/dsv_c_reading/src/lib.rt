//! What the text of C is read as, from its bytes: the program that it was written of.
#![tactic(auto)]

mod law;

pub use law::{names_are_good, programs_are_read_back, subjects_are_read_back};
