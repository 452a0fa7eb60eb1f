//! The inputs of a run, as the text of a file: whole numbers between blanks and commas.
#![tactic(auto)]

mod input_text;
mod refusal;

pub use input_text::{MOST_FILE_INPUTS, read_inputs};
pub use refusal::{InputsEnd, InputsRefusal};
