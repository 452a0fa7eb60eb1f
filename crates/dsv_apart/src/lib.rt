//! That no system has both a form that strictly falls and a form that keeps a trajectory away from
//! 0.
#![tactic(auto)]

mod law;

pub use law::nothing_is_both;
