//! The coefficients of transfer functions in the delta operator.
#![tactic(auto)]

mod conversion;
mod denominators;
mod powers;
mod powers_of_z;
mod refusal;
mod synthetic;

pub use conversion::{DeltaPair, to_delta};
pub use denominators::{common_denominator, numerator};
pub use powers_of_z::{ZCoeffs, z_poly};
pub use refusal::{DeltaWide, PolyWide};
