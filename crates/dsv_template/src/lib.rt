//! Sets of registers that a controller never leaves: candidates, objects that offer them and need
//! no trust, the one that is built in, and what a judged candidate is told.
#![tactic(auto, using(dsv_algebra::proofs::Casts::casts))]

mod box_proposer;
mod candidate;
mod kept;
mod law;
mod limits;
mod proposer;
mod shape;
mod verdict;

pub use box_proposer::BoxProposer;
pub use candidate::{Candidate, CoefficientList, Inequality, InequalityList};
pub use kept::{KeptSet, KeptSets};
pub use law::{kept_sets_never_break, room_of_candidates};
pub use limits::{
    MOST_BIT_LENGTHS, MOST_BOUND, MOST_COEFFICIENT, MOST_DEPTH, MOST_INEQUALITIES, MOST_REGISTERS,
};
pub use proposer::InvariantProposer;
pub use shape::Shape;
pub use verdict::{SetPart, ThreeLogs, Why};
