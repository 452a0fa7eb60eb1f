//! Fixed-point words: numbers of a few bits in two's complement, and the roundings by which exact
//! numbers become words.
#![tactic(auto)]

mod format;
mod whole;
mod word;

pub use format::{BadWidth, Format, WIDEST_WORD};
