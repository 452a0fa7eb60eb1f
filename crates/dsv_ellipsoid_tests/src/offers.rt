// Offers that are found, and controllers for which there are none.
use crate::controllers::{Design, SHORT, WORKED};
use dsv_ellipsoid::ellipsoid_offer;
use dsv_names::Realisation;
use std::alloc::Global;
use std::test::Fail;

/// A resonator of radius 0.95 and angle 0.3.
const LONGER: &str = "digital_system d = { .b = {0.05}, .b_size = 1,
 .a = {1.0, -1.815139329, 0.9025}, .a_size = 3 };
implementation r = { .int_bits = 4, .frac_bits = 12, .max = 1.0, .min = -1.0 };";

/// A resonator of radius 0.98 and angle 1.0.
const LONG: &str = "digital_system d = { .b = {0.02}, .b_size = 1,
 .a = {1.0, -1.058992520, 0.9604}, .a_size = 3 };
implementation r = { .int_bits = 4, .frac_bits = 12, .max = 1.0, .min = -1.0 };";

/// A resonator of radius 0.99 and angle 0.3.
const NARROW: &str = "digital_system d = { .b = {0.01}, .b_size = 1,
 .a = {1.0, -1.891566248, 0.9801}, .a_size = 3 };
implementation r = { .int_bits = 4, .frac_bits = 12, .max = 1.0, .min = -1.0 };";

/// A resonator of radius 0.995 and angle 1.0.
const NARROWEST: &str = "digital_system d = { .b = {0.005}, .b_size = 1,
 .a = {1.0, -1.075201589, 0.990025}, .a_size = 3 };
implementation r = { .int_bits = 4, .frac_bits = 12, .max = 1.0, .min = -1.0 };";

/// A low-pass of order 1.
const FIRST: &str = "digital_system d = { .b = {0.25}, .b_size = 1, .a = {1.0, -0.5}, .a_size = 2 };
implementation r = { .int_bits = 2, .frac_bits = 14, .max = 1.0, .min = -1.0 };";

/// The mean of four inputs.
const MEAN: &str = "digital_system d = { .b = {0.25, 0.25, 0.25, 0.25}, .b_size = 4,
 .a = {1.0}, .a_size = 1 };
implementation r = { .int_bits = 4, .frac_bits = 12, .max = 1.0, .min = -1.0 };";

/// A Butterworth low-pass of order 4.
const BUTTERWORTH: &str = "digital_system d = {
 .b = {0.00482434, 0.01929737, 0.02894606, 0.01929737, 0.00482434}, .b_size = 5,
 .a = {1.0, -2.36951301, 2.31398841, -1.05466541, 0.18737949}, .a_size = 5 };
implementation r = { .int_bits = 8, .frac_bits = 16, .max = 1.0, .min = -1.0 };";

/// A controller of order 7.
const SEVENTH: &str = "digital_system d = { .b = {0.01}, .b_size = 1,
 .a = {1.0, -0.5, 0.25, -0.125, 0.0625, 0.0, 0.0, 0.1}, .a_size = 8 };
implementation r = { .int_bits = 8, .frac_bits = 12, .max = 1.0, .min = -1.0 };";

/// A controller, the sum of the sizes of what its poles answer to a pulse times the greatest
/// disturbance, which no bound is below, and the greatest bound that is wanted.
#[derive(Clone, Copy)]
struct Row {
    design: Design,
    least: i64,
    most: i64,
}

/// The controllers; the sums were computed in another program.
const ROWS: [Row; 11] = [
    Row {
        design: WORKED,
        least: 631,
        most: 720,
    },
    Row {
        design: Design {
            text: SHORT,
            int_bits: 4,
            frac_bits: 12,
        },
        least: 3235,
        most: 3700,
    },
    Row {
        design: Design {
            text: SHORT,
            int_bits: 4,
            frac_bits: 28,
        },
        least: 211518177,
        most: 255000000,
    },
    Row {
        design: Design {
            text: LONGER,
            int_bits: 4,
            frac_bits: 12,
        },
        least: 9039,
        most: 10200,
    },
    Row {
        design: Design {
            text: LONG,
            int_bits: 4,
            frac_bits: 12,
        },
        least: 3152,
        most: 3600,
    },
    Row {
        design: Design {
            text: NARROW,
            int_bits: 4,
            frac_bits: 12,
        },
        least: 9042,
        most: 10300,
    },
    Row {
        design: Design {
            text: NARROWEST,
            int_bits: 4,
            frac_bits: 28,
        },
        least: 203572368,
        most: 240000000,
    },
    Row {
        design: Design {
            text: FIRST,
            int_bits: 2,
            frac_bits: 14,
        },
        least: 8193,
        most: 8500,
    },
    Row {
        design: Design {
            text: MEAN,
            int_bits: 4,
            frac_bits: 12,
        },
        least: 4099,
        most: 4200,
    },
    Row {
        design: Design {
            text: BUTTERWORTH,
            int_bits: 8,
            frac_bits: 16,
        },
        least: 93219,
        most: 115000,
    },
    Row {
        design: Design {
            text: SEVENTH,
            int_bits: 8,
            frac_bits: 12,
        },
        least: 82,
        most: 120,
    },
];

/// A design in words of 16 bits, 12 of them after the point.
fn short_words(text: &'static str) -> Design {
    Design {
        text,
        int_bits: 4,
        frac_bits: 12,
    }
}

/// Whether an offer is found for the row's controller, with a bound as wanted.
fn is_found(alloc: Global, row: &Row) -> Option<bool> {
    let quantised = row.design.quantised_in(alloc, Realisation::Dfi)?;
    let offer = ellipsoid_offer(&quantised)?;
    Some(row.least <= offer.bound && offer.bound <= row.most)
}

#[test]
fn offers_are_found_with_bounds_near_the_least(rt: HostRuntime) -> Result<(), Fail> {
    let alloc = rt.alloc();
    let mut met = true;
    for row in &ROWS {
        met = met && is_found(alloc, row) == Some(true);
    }
    assert!(rt; met);
    Ok(())
}

/// A root outside of the unit circle.
const UNSTABLE: &str = "digital_system d = { .b = {0.1}, .b_size = 1,
 .a = {1.0, -0.5, 1.25}, .a_size = 3 };
implementation r = { .int_bits = 4, .frac_bits = 12, .max = 1.0, .min = -1.0 };";

/// A root on the unit circle.
const INTEGRATOR: &str = "digital_system d = { .b = {0.1}, .b_size = 1,
 .a = {1.0, -1.0}, .a_size = 2 };
implementation r = { .int_bits = 4, .frac_bits = 12, .max = 1.0, .min = -1.0 };";

/// The resonator of radius 0.9 with a wide accumulator.
const WIDE: &str = "digital_system d = { .b = {0.1}, .b_size = 1,
 .a = {1.0, -0.972544152, 0.81}, .a_size = 3 };
implementation r = { .int_bits = 4, .frac_bits = 12, .max = 1.0, .min = -1.0, .wide = 1 };";

/// A gain, which has no output before.
const GAIN: &str = "digital_system d = { .b = {0.5}, .b_size = 1, .a = {1.0}, .a_size = 1 };
implementation r = { .int_bits = 4, .frac_bits = 12, .max = 1.0, .min = -1.0 };";

/// The order 8.
const EIGHTH: &str = "digital_system d = { .b = {0.01}, .b_size = 1,
 .a = {1.0, 0.0, 0.0, 0.0, 0.0, 0.0, 0.0, 0.0, 0.25}, .a_size = 9 };
implementation r = { .int_bits = 4, .frac_bits = 12, .max = 1.0, .min = -1.0 };";

/// A gain at rest of 16 for words that end at 8.
const LOUD: &str =
    "digital_system d = { .b = {1.0}, .b_size = 1, .a = {1.0, -0.9375}, .a_size = 2 };
implementation r = { .int_bits = 4, .frac_bits = 12, .max = 1.0, .min = -1.0 };";

/// Whether the controller has words of 16 bits and no offer is found for it.
fn has_none(alloc: Global, text: &'static str, realisation: Realisation) -> bool {
    match short_words(text).quantised_in(alloc, realisation) {
        Some(quantised) => ellipsoid_offer(&quantised).is_none(),
        None => false,
    }
}

#[test]
fn others_have_no_offer(rt: HostRuntime) -> Result<(), Fail> {
    let alloc = rt.alloc();
    let mut met = true;
    for text in [UNSTABLE, INTEGRATOR, WIDE, GAIN, EIGHTH, LOUD] {
        met = met && has_none(alloc, text, Realisation::Dfi);
    }
    assert!(rt; met);
    Ok(())
}

#[test]
fn other_realisations_have_no_offer(rt: HostRuntime) -> Result<(), Fail> {
    let alloc = rt.alloc();
    let mut met = true;
    for realisation in [Realisation::Dfii, Realisation::Tdfii] {
        met = met && has_none(alloc, SHORT, realisation);
    }
    assert!(rt; met);
    Ok(())
}
