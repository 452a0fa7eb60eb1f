//! Ellipsoids that the words of a controller in direct form I never leave, whatever its inputs do
//! and however its products are rounded: the check of one that is offered, and a search for one.
#![tactic(auto, using(dsv_algebra::proofs::Casts::casts))]

mod check;
mod disturbance;
mod elimination;
mod entries;
mod gramian;
mod intervals;
mod refusal;
mod search;
mod sizes;

pub use check::check_ellipsoid;
pub use dsv_certfile::Ellipsoid;
pub use refusal::EllipsoidRefusal;
pub use search::ellipsoid_offer;
