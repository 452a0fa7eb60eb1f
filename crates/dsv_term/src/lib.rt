//! Bit-vector terms that share what is equal, with the meaning of SMT-LIB's theory
//! FixedSizeBitVectors.
#![tactic(auto)]

mod eval;
mod goal;
mod law;
mod lists;
mod makers;
mod node;
mod terms;
mod word;

pub use eval::Scratch;
pub use goal::Goal;
pub use law::widest_term;
pub use lists::{InputList, ValueList};
pub use node::{MAX_WIDTH, TermId, TermNode};
pub use terms::Terms;
pub use word::Word;
