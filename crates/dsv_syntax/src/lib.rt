//! The grammar of the files of controllers and plants: from tokens to the fields of the blocks.
#![tactic(auto)]

mod entry;
mod law;
mod parser;
mod parsing;

pub use entry::{Entries, Entry, Label};
pub use law::{first_unexpected_is_refused, grammar_is_read, plant_grammar_is_read};
pub use parsing::{Syntax, parse, parse_system};
