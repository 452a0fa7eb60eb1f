//! What rounding does to a netlist's values: its run in words beside its exact run, and the exact
//! run of the written equations.
#![tactic(auto, using(dsv_algebra::proofs::Casts::casts))]

mod law;
mod multiples;
mod offers;

pub use law::{
    controllers_run_apart, differences_obey_the_step, exact_runs_are_written, outputs_differ,
    runs_are_one, runs_exist, written_runs_are_exact, written_runs_are_one, written_runs_exist,
};
pub use multiples::{Multiples, holds_at, multiples_of};
pub use offers::{RoundoffOffer, WordRange};
