//! Runs of a netlist over so many samples as bit-vector terms: goals that are 1 exactly for the
//! inputs that break, for the start words of a cycle, or for what breaks a sentence of a candidate
//! set.
#![tactic(auto, using(dsv_algebra::proofs::Casts::casts))]

mod cycle;
mod facts;
mod fitting;
mod inputs;
mod job_size;
mod law;
mod lists;
mod nodes;
mod overflow;
mod rules;
mod run;
mod sample;
mod set_goals;
mod sets;
mod states;
mod unroller;

pub use cycle::cycle_goal;
pub use inputs::InputRange;
pub use job_size::size;
pub use law::facts_keep_root;
pub use overflow::overflow_goal;
pub use rules::FitRule;
pub use set_goals::set_goal;
