// Quantised controllers, and candidates for those with two registers.
use dsv_names::{OverflowMode, Realisation, Rounding};
use dsv_quantiser::Quantised;
use dsv_template::{Candidate, CoefficientList, Inequality, InequalityList};
use dsv_test_setup::quantised_of;
use dsv_word::Format;
use std::alloc::Global;

/// y = 0.5 x + 0.5 y_1, with inputs from -1 to 1.
pub(crate) const HALVES: &str =
    "digital_system d = { .b = {0.5}, .b_size = 1, .a = {1.0, -0.5}, .a_size = 2 };
implementation r = { .int_bits = 2, .frac_bits = 2, .max = 1.0, .min = -1.0 };";

/// y = x + 0.9 y_1, which becomes x + y_1 in words of four bits.
pub(crate) const SUMS: &str =
    "digital_system d = { .b = {1.0}, .b_size = 1, .a = {1.0, -0.9}, .a_size = 2 };
implementation r = { .int_bits = 2, .frac_bits = 2, .max = 1.0, .min = -1.0 };";

/// y = 0.5 x + 0.25 x_1 - 0.5 y_1, with inputs from 0.25 to 1.
pub(crate) const ALTERNATING: &str =
    "digital_system d = { .b = {0.5, 0.25}, .b_size = 2, .a = {1.0, 0.5}, .a_size = 2 };
implementation r = { .int_bits = 2, .frac_bits = 2, .max = 1.0, .min = 0.25 };";

/// A quantised controller, with FLOOR.
#[derive(Clone, Copy)]
pub(crate) struct Design {
    pub controller: &'static str,
    pub int_bits: u32,
    pub frac_bits: u32,
    pub realisation: Realisation,
    pub overflow: OverflowMode,
}

/// The controller of a design in words.
pub(crate) fn quantised_in(alloc: Global, design: &Design) -> Option<Quantised> {
    let format = Format::new(
        design.int_bits,
        design.frac_bits,
        Rounding::Floor,
        design.overflow,
    )
    .ok()?;
    quantised_of(alloc, design.controller, format, design.realisation)
}

/// The inequality that the sum of each coefficient times its register is at most a number.
#[derive(Clone, Copy)]
pub(crate) struct Bound(pub &'static [i64], pub i64);

/// A candidate: its inequalities, and its depth.
#[derive(Clone, Copy)]
pub(crate) struct Offer(pub &'static [Bound], pub u32);

/// The inequality of a bound.
fn inequality(bound: &Bound) -> Option<Inequality> {
    let mut coefficients = CoefficientList::new();
    for coefficient in bound.0 {
        coefficients.try_push(*coefficient).ok()?;
    }
    Some(Inequality {
        coefficients,
        bound: bound.1,
    })
}

/// The candidate of an offer.
pub(crate) fn candidate_of(offer: &Offer) -> Option<Candidate> {
    let mut inequalities = InequalityList::new();
    for bound in offer.0 {
        inequalities.try_push(inequality(bound)?).ok()?;
    }
    Some(Candidate {
        inequalities,
        depth: offer.1,
    })
}
