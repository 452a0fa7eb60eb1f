//! A checker of refutations that are written as steps with hints, as LRAT proofs are: each step
//! adds a clause that follows from the named clauses by unit propagation, or deletes clauses.
#![tactic(auto)]

mod checker;
mod hints;
mod search;
mod step;
mod store;

pub use checker::{Checker, check};
pub use hints::Move;
pub use search::Searched;
pub use step::{HintList, LitList, Log, Step, StepRefusal, Verdict};
