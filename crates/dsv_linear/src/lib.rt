//! Facts of linear forms. Up to the first break of a run nothing wraps, so each exact value of a
//! netlist is a linear form in the inputs and in one error for each rounded product; its range is a
//! sum of worst cases.
#![tactic(auto, using(dsv_algebra::proofs::Casts::casts))]

mod arithmetic;
mod division;
mod extremes;
mod fact;
mod form;
mod intervals;
mod nodes;
mod options;
mod point;
mod powers;
mod range;
mod rounding;
mod run;
mod small;

pub use arithmetic::unit;
pub use extremes::{extreme_sums, factor_sum, outer_range, whole_range};
pub use fact::Fact;
pub use form::Form;
pub use intervals::are_words;
pub use options::{copy_of, difference_of, product_of, sum_of};
pub use point::{Entry, Estimate, Point, Start};
pub use powers::{one, power};
pub use range::{Factor, Range};
pub use rounding::{error_range, step, symbol_range};
pub use run::{Facts, facts_of, no_point, zero_start};

/// What coefficients are multiplied by.
pub const SCALE: u64 = 1 << 53;

/// What the ends of symbols' ranges are multiplied by.
pub const RANGE_SCALE: u64 = 1 << 7;
