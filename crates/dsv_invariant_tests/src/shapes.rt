// What proposers are told, and jobs that are too large.
use crate::designs::{Design, HALVES, quantised_in};
use dsv_bounded::TooLarge;
use dsv_invariant::{accept_unbounded, shape_of};
use dsv_names::{OverflowMode, Realisation};
use dsv_template::Shape;
use std::alloc::Global;

/// A controller of order 8: in the operator with delta 1 its coefficients are those of (d + 1)^8.
const EIGHTH: &str = "digital_system d = { .b = {1.0}, .b_size = 1,
    .a = {1.0, 0.0, 0.0, 0.0, 0.0, 0.0, 0.0, 0.0, 0.0}, .a_size = 9 };
implementation r = { .int_bits = 16, .frac_bits = 16, .max = 1.0, .min = -1.0, .delta = 1.0 };";

/// y = 0.5 x + 0.5 y_1 with delta 0.5.
const DELTA_HALVES: &str =
    "digital_system d = { .b = {0.5}, .b_size = 1, .a = {1.0, -0.5}, .a_size = 2 };
implementation r = { .int_bits = 2, .frac_bits = 2, .max = 1.0, .min = -1.0, .delta = 0.5 };";

/// A quantised controller.
fn design(controller: &'static str, bits: u32, realisation: Realisation) -> Design {
    Design {
        controller,
        int_bits: bits,
        frac_bits: bits,
        realisation,
        overflow: OverflowMode::Wrap,
    }
}

/// A quantised controller of four bits, and of how many registers and earlier inputs proposers are
/// told.
struct Told(&'static str, Realisation, u32, u32);

const TOLD: [Told; 3] = [
    Told(HALVES, Realisation::Dfi, 2, 1),
    Told(HALVES, Realisation::Tdfii, 1, 0),
    Told(DELTA_HALVES, Realisation::Ddfi, 2, 0),
];

/// Whether proposers are told so, of words of four bits and inputs from -1 to 1.
fn is_told(alloc: Global, row: &Told) -> Option<bool> {
    let quantised = quantised_in(alloc, &design(row.0, 2, row.1))?;
    let wanted = Shape {
        registers: row.2,
        past_inputs: row.3,
        lo: -8,
        hi: 7,
        xlo: -4,
        xhi: 4,
    };
    Some(shape_of(&quantised) == wanted)
}

#[test]
fn earlier_inputs_are_told_of_the_direct_form_one_alone(rt: HostRuntime) {
    for row in &TOLD {
        assert!(rt; is_told(rt.alloc(), row) == Some(true));
    }
}

/// Whether a controller of order 8 with 33 products in words of 32 bits is refused for the size
/// 9 * 33 * 32^2.
fn is_refused(alloc: Global) -> Option<bool> {
    let quantised = quantised_in(alloc, &design(EIGHTH, 16, Realisation::Ddfi))?;
    Some(accept_unbounded(&quantised) == Err(TooLarge { size: 304_128 }))
}

#[test]
fn a_job_that_is_too_large_is_refused(rt: HostRuntime) {
    assert!(rt; is_refused(rt.alloc()) == Some(true));
}
