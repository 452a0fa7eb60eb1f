// Answers that are worked out by hand, in direct form I. A sample of order 1 has five exact values:
// b_0 x, b_1 x_1, their sum, a_1 y_1, and y.
use crate::controllers::Design;
use dsv_gain::{Outlook, gain};
use dsv_linear::Range;
use dsv_names::{Realisation, Rounding};
use dsv_realise::Asking;
use std::alloc::Global;
use std::test::Fail;

/// y = x + y_1, over inputs from 0 to 1 sixteenth, which is the word 1.
const SUMS: &str = "digital_system d = { .b = {1.0}, .b_size = 1, .a = {1.0, -1.0}, .a_size = 2 };
implementation r = { .int_bits = 4, .frac_bits = 4, .max = 0.0625, .min = 0.0 };";

/// y = 1.5 x, over the input 1, whose word is 2.
const SCALE: &str = "digital_system d = { .b = {1.5}, .b_size = 1, .a = {1.0}, .a_size = 1 };
implementation r = { .int_bits = 3, .frac_bits = 1, .max = 1.0, .min = 1.0 };";

/// The same over the input 0.5, whose word is 1: the product is 1.5 words.
const HALF: &str = "digital_system d = { .b = {1.5}, .b_size = 1, .a = {1.0}, .a_size = 1 };
implementation r = { .int_bits = 3, .frac_bits = 1, .max = 0.5, .min = 0.5 };";

/// y = x + x_1, over inputs from -1 to 2.
const PAIR: &str =
    "digital_system d = { .b = {1.0, 1.0}, .b_size = 2, .a = {1.0, 0.0}, .a_size = 2 };
implementation r = { .int_bits = 4, .frac_bits = 0, .max = 2.0, .min = -1.0 };";

/// y = x + 2^30 y_1, over the input 0: each value is 0.
const STEEP: &str =
    "digital_system d = { .b = {1.0}, .b_size = 1, .a = {1.0, -1073741824.0}, .a_size = 2 };
implementation r = { .int_bits = 32, .frac_bits = 0, .max = 0.0, .min = 0.0 };";

/// The answer that is wanted.
#[derive(Clone, Copy)]
enum Wanted {
    /// Depth, the sample of the ranges, and their ends.
    Safe(u32, u32, &'static [(i128, i128)]),
    /// Sample and value.
    Leaves(u32, usize),
    Deep,
}

/// A design, a limit, and the answer.
#[derive(Clone, Copy)]
struct Row {
    text: &'static str,
    int_bits: u32,
    frac_bits: u32,
    rounding: Rounding,
    limit: u32,
    wanted: Wanted,
}

// SUMS: both products are exact. So after n + 1 samples y is at most n + 1 words, which is 127 for
// 127 samples, and 128 for 128. From any words it leaves the words at once, so it has no depth.
//
// PAIR: the products are exact. What the register of x_1 held at the start counts three words in
// the values of sample 0, and nothing in those of sample 1.
//
// STEEP: the coefficient of the word that y_1 began with in a_1 y_1 is 2^53 times 2^30, 2^60 and
// 2^90 in samples 0, 1 and 2, and forms end below 2^126.
const ROWS: [Row; 11] = [
    Row {
        text: SUMS,
        int_bits: 4,
        frac_bits: 4,
        rounding: Rounding::Floor,
        limit: 128,
        wanted: Wanted::Leaves(127, 4),
    },
    Row {
        text: SUMS,
        int_bits: 4,
        frac_bits: 4,
        rounding: Rounding::Floor,
        limit: 127,
        wanted: Wanted::Deep,
    },
    Row {
        text: SCALE,
        int_bits: 3,
        frac_bits: 1,
        rounding: Rounding::Floor,
        limit: 8,
        wanted: Wanted::Safe(0, 0, &[(3, 3)]),
    },
    Row {
        text: SCALE,
        int_bits: 2,
        frac_bits: 1,
        rounding: Rounding::Floor,
        limit: 8,
        wanted: Wanted::Safe(0, 0, &[(3, 3)]),
    },
    Row {
        text: SCALE,
        int_bits: 3,
        frac_bits: 1,
        rounding: Rounding::Floor,
        limit: 0,
        wanted: Wanted::Deep,
    },
    Row {
        text: HALF,
        int_bits: 3,
        frac_bits: 1,
        rounding: Rounding::Floor,
        limit: 8,
        wanted: Wanted::Safe(0, 0, &[(1, 1)]),
    },
    Row {
        text: HALF,
        int_bits: 3,
        frac_bits: 1,
        rounding: Rounding::Ceil,
        limit: 8,
        wanted: Wanted::Safe(0, 0, &[(2, 2)]),
    },
    Row {
        text: HALF,
        int_bits: 3,
        frac_bits: 1,
        rounding: Rounding::Nearest,
        limit: 8,
        wanted: Wanted::Safe(0, 0, &[(2, 2)]),
    },
    Row {
        text: PAIR,
        int_bits: 4,
        frac_bits: 0,
        rounding: Rounding::Floor,
        limit: 8,
        wanted: Wanted::Safe(0, 1, &[(-1, 2), (-1, 2), (-2, 4), (0, 0), (-2, 4)]),
    },
    Row {
        text: PAIR,
        int_bits: 4,
        frac_bits: 0,
        rounding: Rounding::Floor,
        limit: 1,
        wanted: Wanted::Safe(0, 0, &[(-1, 2), (-1, 2), (-2, 4), (0, 0), (-2, 4)]),
    },
    Row {
        text: STEEP,
        int_bits: 32,
        frac_bits: 0,
        rounding: Rounding::Floor,
        limit: 8,
        wanted: Wanted::Leaves(2, 3),
    },
];

/// Whether these are the ends of the ranges.
fn are_ends(ranges: &[Range], ends: &[(i128, i128)]) -> bool {
    let mut met = ranges.len() == ends.len();
    for (range, end) in ranges.iter().zip(ends) {
        met = met && range.low.get() == end.0 && range.high.get() == end.1;
    }
    met
}

/// Whether it is the answer that is wanted.
fn is_wanted(outlook: &Outlook, wanted: &Wanted) -> bool {
    match (outlook, wanted) {
        (Outlook::Safe(gain), Wanted::Safe(depth, settled, ends)) => {
            gain.depth == *depth
                && gain.settled == *settled
                && are_ends(gain.ranges.as_slice(), ends)
        }
        (Outlook::Leaves { sample, value }, Wanted::Leaves(first, second)) => {
            *sample == *first && *value == *second
        }
        (Outlook::Deep, Wanted::Deep) => true,
        _ => false,
    }
}

/// Whether a row's answer is the one that is wanted.
fn is_right(alloc: Global, row: &Row) -> Option<bool> {
    let design = Design::of_wrapped_words(row.text, row.int_bits, row.frac_bits, row.rounding);
    let quantised = design.quantised_in(alloc, Realisation::Dfi)?;
    let asking = Asking::of(alloc, &quantised).ok()?;
    let outlook = gain(alloc, &asking, row.limit).ok()?;
    Some(is_wanted(&outlook, &row.wanted))
}

#[test]
fn answers_are_those_by_hand(rt: HostRuntime) -> Result<(), Fail> {
    let alloc = rt.alloc();
    let mut met = true;
    for row in &ROWS {
        met = met && is_right(alloc, row) == Some(true);
    }
    assert!(rt; met);
    Ok(())
}
