//! The check of certificates: what a certificate claims of a controller is made anew from the
//! controller's file, and nothing else that the certificate says is believed. A form may also be
//! checked against the loop of a controller with a plant, and against a state-space controller,
//! along whose states it has to fall.
#![tactic(auto)]

mod check_refusal;
mod checked_logs;
mod checks;
mod law;
mod line_numbers;
mod loops;
mod state_forms;
mod tables;

pub use check_refusal::CheckRefusal;
pub use checks::check;
pub use law::{checks_are_apart, formats_are_compared, no_loop_is_refused_alone};
pub use state_forms::{StateForm, check_state_form};
