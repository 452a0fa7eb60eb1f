//! The polynomial that a property of a quantised controller tests.
#![tactic(auto)]

mod common_twos;
mod law;
mod list;
mod polynomials;
mod side;

pub use law::common_twos_are_taken_out;
pub use polynomials::{poly_of, polynomial_of, z_list};
pub use side::{Side, Tested, side_of};
