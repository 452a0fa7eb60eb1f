// How far the output is from that of exact arithmetic, worked out by hand, in direct form I. Ranges
// are in words.
use crate::controllers::Design;
use dsv_base::Items;
use dsv_gain::{controller_error, rounding_error};
use dsv_linear::Range;
use dsv_names::{Realisation, Rounding};
use dsv_realise::Asking;
use dsv_roundoff::{RoundoffOffer, WordRange, holds_at};
use std::alloc::Global;
use std::test::Fail;

/// y = 0.5 x + 0.5 y_1: both products are rounded.
const HALVES: &str = "digital_system d = { .b = {0.5}, .b_size = 1, .a = {1.0, -0.5}, .a_size = 2 };
implementation r = { .int_bits = 8, .frac_bits = 8, .max = 1.0, .min = -1.0 };";

/// y = 1.5 x: order 0.
const SCALE: &str = "digital_system d = { .b = {1.5}, .b_size = 1, .a = {1.0}, .a_size = 1 };
implementation r = { .int_bits = 3, .frac_bits = 1, .max = 1.0, .min = -1.0 };";

/// y = x + x_1: products that need no rounding.
const PAIR: &str =
    "digital_system d = { .b = {1.0, 1.0}, .b_size = 2, .a = {1.0, 0.0}, .a_size = 2 };
implementation r = { .int_bits = 4, .frac_bits = 4, .max = 2.0, .min = -1.0 };";

/// y = x + y_1, over the input 0: a pole on the circle, whose product is exact.
const HELD: &str = "digital_system d = { .b = {1.0}, .b_size = 1, .a = {1.0, -1.0}, .a_size = 2 };
implementation r = { .int_bits = 4, .frac_bits = 4, .max = 0.0, .min = 0.0 };";

/// y = 0.5 x - y_1: a pole on the circle, and a product that is rounded.
const TURNING: &str = "digital_system d = { .b = {0.5}, .b_size = 1, .a = {1.0, 1.0}, .a_size = 2 };
implementation r = { .int_bits = 4, .frac_bits = 4, .max = 0.0, .min = 0.0 };";

/// A design, and the bound that is wanted: its depth, its least and its greatest word.
#[derive(Clone, Copy)]
struct Row {
    text: &'static str,
    int_bits: u32,
    frac_bits: u32,
    rounding: Rounding,
    wanted: Option<(u32, i128, i128)>,
}

// HALVES: in FLOOR 0.5 x loses less than a word, and -(-0.5 y_1), whose product is rounded down and
// then subtracted, wins less than a word: at most 255/256 each, so y is off by at most 510/256 in
// all samples together. The box is -3 to 3, and from there it is off by at most
// 510/256 (1 - 2^-n) + 3 2^-n after n samples, which is 2.5 after one and 2.1 after three; by then
// what is left of the box is less than a word. In CEIL the signs are exchanged. In NEAREST the one
// product is off by -127/256 to 128/256, and so is the other.
//
// SCALE: a half is lost or won at most. PAIR, HELD: nothing is.
//
// TURNING: what is lost is never forgotten, so there is no bound.
const ROWS: [Row; 8] = [
    Row {
        text: HALVES,
        int_bits: 8,
        frac_bits: 8,
        rounding: Rounding::Floor,
        wanted: Some((2, -3, 3)),
    },
    Row {
        text: HALVES,
        int_bits: 8,
        frac_bits: 8,
        rounding: Rounding::Ceil,
        wanted: Some((2, -3, 3)),
    },
    Row {
        text: HALVES,
        int_bits: 8,
        frac_bits: 8,
        rounding: Rounding::Nearest,
        wanted: Some((2, -3, 3)),
    },
    Row {
        text: SCALE,
        int_bits: 3,
        frac_bits: 1,
        rounding: Rounding::Floor,
        wanted: Some((0, -1, 0)),
    },
    Row {
        text: SCALE,
        int_bits: 3,
        frac_bits: 1,
        rounding: Rounding::Ceil,
        wanted: Some((0, 0, 1)),
    },
    Row {
        text: PAIR,
        int_bits: 4,
        frac_bits: 4,
        rounding: Rounding::Floor,
        wanted: Some((0, 0, 0)),
    },
    Row {
        text: HELD,
        int_bits: 4,
        frac_bits: 4,
        rounding: Rounding::Floor,
        wanted: Some((0, 0, 0)),
    },
    Row {
        text: TURNING,
        int_bits: 4,
        frac_bits: 4,
        rounding: Rounding::Floor,
        wanted: None,
    },
];

/// Whether it is the range of these ends.
fn is_range(range: &Range, low: i128, high: i128) -> bool {
    range.low.get() == low && range.high.get() == high
}

/// Whether a row's bound is the one that is wanted.
fn is_right(alloc: Global, row: &Row) -> Option<bool> {
    let design = Design::of_wrapped_words(row.text, row.int_bits, row.frac_bits, row.rounding);
    let quantised = design.quantised_in(alloc, Realisation::Dfi)?;
    let asking = Asking::of(alloc, &quantised).ok()?;
    let bound = rounding_error(alloc, &asking, 64).ok()?;
    Some(match (&bound, &row.wanted) {
        (Some(bound), Some((depth, low, high))) => {
            bound.offer.depth == *depth && is_range(&bound.output, *low, *high)
        }
        (None, None) => true,
        _ => false,
    })
}

#[test]
fn bounds_are_those_by_hand(rt: HostRuntime) -> Result<(), Fail> {
    let alloc = rt.alloc();
    let mut met = true;
    for row in &ROWS {
        met = met && is_right(alloc, row) == Some(true);
    }
    assert!(rt; met);
    Ok(())
}

/// A box for the registers of `HALVES`, x_1 and y_1, or of too few, and what it shows at depth 0.
#[derive(Clone, Copy)]
struct Offered {
    ends: &'static [(i64, i64)],
    wanted: Option<(i128, i128)>,
}

// From a box of -c to c y is off by at most 255/256 + c/2 after a sample.
const OFFERED: [Offered; 5] = [
    Offered {
        ends: &[(0, 0), (-2, 2)],
        wanted: Some((-2, 2)),
    },
    Offered {
        ends: &[(0, 0), (-1, 1)],
        wanted: None,
    },
    // 0 isn't in the box
    Offered {
        ends: &[(0, 0), (1, 4)],
        wanted: None,
    },
    Offered {
        ends: &[(0, 0)],
        wanted: None,
    },
    // no word of 16 bits
    Offered {
        ends: &[(0, 0), (-2, 32768)],
        wanted: None,
    },
];

/// Whether an offer of depth 0 shows what is wanted.
fn shows_right(alloc: Global, offered: &Offered) -> Option<bool> {
    let design = Design::of_wrapped_words(HALVES, 8, 8, Rounding::Floor);
    let quantised = design.quantised_in(alloc, Realisation::Dfi)?;
    let mut ranges = Items::new(alloc);
    for (low, high) in offered.ends {
        let range = WordRange {
            low: *low,
            high: *high,
        };
        ranges.push(range).ok()?;
    }
    let offer = RoundoffOffer { depth: 0, ranges };
    let asking = Asking::of(alloc, &quantised).ok()?;
    let shown = controller_error(alloc, &asking, &offer).ok()?;
    Some(match (&shown, &offered.wanted) {
        (Some(range), Some((low, high))) => is_range(range, *low, *high),
        (None, None) => true,
        _ => false,
    })
}

#[test]
fn offers_show_what_they_do_by_hand(rt: HostRuntime) -> Result<(), Fail> {
    let alloc = rt.alloc();
    let mut met = true;
    for offered in &OFFERED {
        met = met && shows_right(alloc, offered) == Some(true);
    }
    assert!(rt; met);
    Ok(())
}

#[test]
fn a_value_past_the_last_is_no_multiple(rt: HostRuntime) {
    let says = [true, false];
    assert!(rt; holds_at(&says, 0) && !holds_at(&says, 1) && !holds_at(&says, 2));
}
