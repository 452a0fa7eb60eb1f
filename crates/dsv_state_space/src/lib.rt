//! State-space controllers in words: x' = A x + b u, y = c x + d u.
#![tactic(auto, using(dsv_algebra::proofs::Casts::casts))]

mod falls;
mod lane;
mod law;
mod netlist;
mod place;
mod quantisation;
mod refusal;
mod search;
mod subject;
mod system;

pub use falls::check_state_falls;
pub use law::largest_system;
pub use netlist::state_net;
pub use place::Place;
pub use quantisation::quantise_state;
pub use refusal::StateQuantRefusal;
pub use search::state_offer;
pub use system::{MOST_STATES, StateSystem, WordRow, WordRows};
