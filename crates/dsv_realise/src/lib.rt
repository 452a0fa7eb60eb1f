//! The netlists of quantised controllers, runs of netlists over inputs, and subjects, of which
//! questions about runs are asked.
#![tactic(auto)]

mod asking;
mod controllers;
mod forms;
mod lines;
mod netlist;
mod nodes;
mod parts;
mod ranged_netlist;
mod realisations;
mod replays;
mod simulation;
mod subject;
mod subject_netlist;
mod summands;

pub use asking::Asking;
pub use lines::narrow_line;
pub use netlist::realise;
pub use nodes::source_nodes;
pub use ranged_netlist::RangedNetlist;
pub use replays::{replay_cycle, replayed_trace};
pub use simulation::simulate_netlist;
pub use subject::Subject;
pub use subject_netlist::SubjectNetlist;
pub use summands::{Summands, push_products};
