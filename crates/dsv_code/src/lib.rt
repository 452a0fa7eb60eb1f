//! The C of a subject: the names of its registers, what its comments say, and its text.
#![tactic(auto)]

mod code;
mod law;
mod notes;

pub use code::{CodeRefusal, code_of};
pub use law::code_runs_as_its_subject;
pub use notes::{CodeNotes, cascade_notes, controller_notes, state_notes};
