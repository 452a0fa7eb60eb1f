//! The Schur-Cohn form of a polynomial, which is negative somewhere where the polynomial has a root
//! outside the unit circle, and loses a square in each step; and the search for an offer that
//! begins with it, on both sides of stability and at every order.
#![tactic(auto)]

mod cholesky;
mod direction;
mod form;
mod law;
mod offer;
mod refinement;
mod search;
mod width;

pub use form::schur_cohn_form;
pub use law::schur_cohn_offers_are_accepted;
pub use offer::negative_offer;
pub use search::schur_cohn_offer;
