//! The transfer function of a quantised controller: what its coefficients in z say of the exact
//! runs of the written equations.
#![tactic(auto)]

mod law;

pub use law::runs_meet_the_transfer_function;
