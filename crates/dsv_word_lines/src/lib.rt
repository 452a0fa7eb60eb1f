//! The lines of a report that tell which file it is about, and the words of its coefficients.
#![tactic(auto)]

mod cascades;
mod coefficients;
mod control_characters;
mod controllers;
mod costs;
mod digests;
mod line_parts;
mod lines;
mod states;
mod text;

pub use cascades::put_cascade_lines;
pub use control_characters::put_shown;
pub use controllers::put_controller_lines;
pub use costs::put_costs;
pub use digests::{digest_of, put_digest};
pub use states::put_state_lines;
pub use text::TextSink;
