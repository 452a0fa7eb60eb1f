//! What a quantised controller computes: the written equations of its realisations.
#![tactic(auto)]

mod chains;
mod counts;
mod lines;
mod replays;
mod simulation;
mod steps;
mod summands;

pub use counts::{MOST_ORDER, forward_registers, products, registers, sums};
pub use replays::{Cycle, CycleReplay, OverflowReplay, Trace, replay_cycle, replay_overflow};
pub use simulation::simulate;
pub use summands::{MOST_SUMMANDS, Summand};
