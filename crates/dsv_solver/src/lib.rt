//! A clause-learning solver with watched literals, which writes a log of what it learned.
#![tactic(auto)]

mod analyse;
mod first_watches;
mod learn;
mod luby;
mod order;
mod propagate;
mod search;
mod seen;
mod solver;
mod state;
mod watches;

pub use solver::solve;
