//! Forms that show whether the trajectories of a polynomial fall: objects that offer them and need
//! no trust, the one that is built in, and what a checked offer shows.
#![tactic(auto)]

mod checked_form;
mod kept;
mod proposer;
mod sum_proposer;

pub use checked_form::{CheckedForm, accepted_form, check_offer};
pub use kept::{KeptForm, KeptForms};
pub use proposer::FormProposer;
pub use sum_proposer::SumProposer;
