//! Overflow over runs of any length: linear forms from registers of zeros and from registers that
//! are any words, and lists of inputs for what they can't rule out. And how far outputs are from
//! those of exact runs.
#![tactic(auto, using(dsv_algebra::proofs::Casts::casts))]

mod box_ranges;
mod boxes;
mod controllers;
mod error_ranges;
mod error_search;
mod law;
mod lists;
mod networks;
mod questions;
mod ranges;
mod reaches;
mod roundoff;
mod search;
mod starts;

pub use controllers::{controller_error, rounding_error};
pub use dsv_network::{Gain, Outlook, Ranges};
pub use error_ranges::error_of;
pub use error_search::error_bound;
pub use law::{
    controllers_stay_near, depths_forget_starts, gains_are_found_again, gains_are_safe,
    longest_list, offers_fit, outputs_stay_near, registers_stay_near,
};
pub use lists::{MOST_DRIVEN, driven_trace};
pub use questions::{driven, gain};
pub use roundoff::{ErrorBound, ShownError};
pub use search::gain_of;
