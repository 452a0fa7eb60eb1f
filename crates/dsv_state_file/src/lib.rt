//! The file of a state-space controller: its matrices, the format of its words and the range of its
//! inputs, read line by line.
#![tactic(auto)]

mod law;
mod limits;
mod reader;
mod refusal;
mod state_file;
mod vectors;
mod words;

pub use law::{state_faults_are_told, state_texts_are_read};
pub use limits::MOST_STATES;
pub use reader::read_state;
pub use refusal::StateRefusal;
pub use state_file::StateFile;
pub use vectors::FracGrid;
