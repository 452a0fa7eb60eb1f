//! The closed forms: forms, in terms of a polynomial's coefficients, that show whether its
//! trajectories fall.
#![tactic(auto)]

mod choice;
mod coefficients;
mod entries;
mod first;
mod law;
mod narrow;
mod root;
mod second;
mod starts;

pub use choice::closed_form;
pub use law::closed_forms_are_accepted;
