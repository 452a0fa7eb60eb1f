//! Quadratic forms that show whether the trajectories of a polynomial fall, and the check of what
//! is offered for that.
#![tactic(auto)]

mod checks;
mod fall;
mod law;
mod matrix;
mod offers;
mod poly;
mod refusal;
mod squares;
mod start_checks;
mod sums;

pub use checks::check_falls;
pub use fall::{fall_form, negative_image_entry, sum_less_image};
pub use law::offers_are_read_in_their_places;
pub use offers::{Falls, Form, FormOffer, GREATEST_ORDER, KeptAway, Squares};
pub use poly::{BadPoly, GREATEST_COEFFICIENT, MOST_COEFFICIENTS, Poly};
pub use refusal::{FormRefusal, OfferPart};
pub use squares::{check_definite, check_semidefinite, sum_of_squares};
pub use start_checks::check_kept_away;
pub use sums::{negation, number_of, sum_with_product};
