// What is found of runs of cascades of any length: ranges beside those of a model that sums the
// forms of the operations of both sections, and lists that break, by hand.
use crate::sections::{GAIN, HALF, INTEGRATOR, PAIR, Section, WIDE_HALF, cascade_of};
use dsv_gain::{Outlook, driven, gain};
use dsv_linear::Range;
use dsv_meaning::Trace;
use dsv_names::{OverflowMode, Realisation, Rounding};
use dsv_realise::Asking;
use std::alloc::Global;

/// The answer that is wanted.
#[derive(Clone, Copy)]
enum Wanted {
    /// Depth, the sample of the ranges, and their ends.
    Safe(u32, u32, &'static [(i128, i128)]),
    /// Sample and value.
    Leaves(u32, usize),
    Deep,
}

/// Sections, a limit, and the answer.
struct Outlooked {
    sections: &'static [Section],
    limit: u32,
    wanted: Wanted,
}

/// Order 1 and order 2 in words of six bits.
const HALF_6: Section = Section {
    frac_bits: 4,
    ..HALF
};

const PAIR_6: Section = Section {
    frac_bits: 4,
    ..PAIR
};

/// The same in words of seven bits, rounded to the nearest, in the transposed form.
const HALF_7: Section = Section {
    int_bits: 3,
    frac_bits: 4,
    rounding: Rounding::Nearest,
    realisation: Realisation::Tdfii,
    ..HALF
};

const PAIR_7: Section = Section {
    int_bits: 3,
    frac_bits: 4,
    rounding: Rounding::Nearest,
    realisation: Realisation::Tdfii,
    ..PAIR
};

/// Order 1 in words of seven bits with a wide accumulator, in direct form II.
const WIDE_7: Section = Section {
    int_bits: 3,
    frac_bits: 4,
    realisation: Realisation::Dfii,
    ..WIDE_HALF
};

const OUTLOOKS: [Outlooked; 6] = [
    Outlooked {
        sections: &[HALF_6, PAIR_6],
        limit: 64,
        wanted: Wanted::Safe(
            1,
            6,
            &[
                (-8, 8),
                (0, 0),
                (-8, 8),
                (-9, 8),
                (-17, 17),
                (-9, 8),
                (0, 0),
                (-9, 8),
                (0, 0),
                (-9, 8),
                (-8, 6),
                (-16, 17),
                (-4, 3),
                (-13, 14),
            ],
        ),
    },
    Outlooked {
        sections: &[HALF_7, PAIR_7],
        limit: 64,
        wanted: Wanted::Safe(
            2,
            9,
            &[
                (-8, 8),
                (-17, 17),
                (0, 0),
                (-9, 9),
                (-9, 9),
                (-9, 9),
                (-14, 14),
                (0, 0),
                (-7, 7),
                (-7, 7),
                (-5, 5),
                (0, 0),
                (-4, 4),
                (-4, 4),
            ],
        ),
    },
    Outlooked {
        sections: &[WIDE_7, WIDE_7],
        limit: 64,
        wanted: Wanted::Safe(0, 9, &[(-33, 32), (-17, 16), (-37, 32), (-19, 16)]),
    },
    Outlooked {
        sections: &[HALF_6, PAIR_6],
        limit: 1,
        wanted: Wanted::Deep,
    },
    Outlooked {
        sections: &[HALF, PAIR],
        limit: 64,
        wanted: Wanted::Safe(
            2,
            5,
            &[
                (-2, 2),
                (0, 0),
                (-2, 2),
                (-3, 2),
                (-5, 5),
                (-3, 2),
                (0, 0),
                (-3, 2),
                (0, 0),
                (-3, 2),
                (-3, 2),
                (-6, 6),
                (-2, 1),
                (-5, 6),
            ],
        ),
    },
    Outlooked {
        sections: &[HALF, INTEGRATOR],
        limit: 64,
        wanted: Wanted::Leaves(2, 9),
    },
];

/// Whether these are the ends of the ranges.
fn are_ends(ranges: &[Range], ends: &[(i128, i128)]) -> bool {
    let mut met = ranges.len() == ends.len();
    for (range, end) in ranges.iter().zip(ends) {
        met = met && range.low.get() == end.0 && range.high.get() == end.1;
    }
    met
}

/// Whether it is the answer that is wanted.
fn is_wanted(outlook: &Outlook, wanted: &Wanted) -> bool {
    match (outlook, wanted) {
        (Outlook::Safe(gain), Wanted::Safe(depth, settled, ends)) => {
            gain.depth == *depth
                && gain.settled == *settled
                && are_ends(gain.ranges.as_slice(), ends)
        }
        (Outlook::Leaves { sample, value }, Wanted::Leaves(first, second)) => {
            *sample == *first && *value == *second
        }
        (Outlook::Deep, Wanted::Deep) => true,
        _ => false,
    }
}

/// Whether a row's answer is the one that is wanted.
fn is_right(alloc: Global, row: &Outlooked) -> Option<bool> {
    let cascade = cascade_of(alloc, row.sections)?.ok()?;
    let asking = Asking::of(alloc, &cascade).ok()?;
    let outlook = gain(alloc, &asking, row.limit).ok()?;
    Some(is_wanted(&outlook, &row.wanted))
}

#[test]
fn ranges_are_those_of_both_sections(rt: HostRuntime) {
    for row in &OUTLOOKS {
        assert!(rt; is_right(rt.alloc(), row) == Some(true));
    }
}

/// y = x over inputs from 0 to 0.25, which is the word 1, in words of six bits that wrap.
const UNIT: Section = Section {
    text: "digital_system d = { .b = {1.0}, .b_size = 1, .a = {1.0}, .a_size = 1 };
implementation i = { .int_bits = 4, .frac_bits = 2, .max = 0.25, .min = 0.0 };",
    int_bits: 4,
    overflow: OverflowMode::Wrap,
    ..GAIN
};

/// y = x + y_1, likewise: over ones y(n) is n + 1, and the words end at 31.
const SUMS: Section = Section {
    text: "digital_system d = { .b = {1.0}, .b_size = 1, .a = {1.0, -1.0}, .a_size = 2 };
implementation i = { .int_bits = 4, .frac_bits = 2, .max = 0.25, .min = 0.0 };",
    ..UNIT
};

/// The trace that is found where the ranges leave the words.
fn trace_of(alloc: Global, sections: &[Section]) -> Option<Trace> {
    let cascade = cascade_of(alloc, sections)?.ok()?;
    let asking = Asking::of(alloc, &cascade).ok()?;
    match gain(alloc, &asking, 64).ok()? {
        Outlook::Leaves { sample, .. } => driven(alloc, &asking, sample).ok()?,
        _ => None,
    }
}

/// Whether it is the one over 32 ones, whose sum is 32 and wraps to -32, in this value.
fn is_ramp(trace: &Trace, value: u32) -> bool {
    let mut met = trace.inputs.len() == 32 && trace.outputs.len() == 32;
    for (n, x) in trace.inputs.as_slice().iter().enumerate() {
        met = met && *x == 1;
    }
    let mut wanted: i64 = 0;
    for y in trace.outputs.as_slice() {
        wanted = if wanted == 31 {
            -32
        } else {
            wanted.saturating_add(1)
        };
        met = met && *y == wanted;
    }
    met && trace.sample == 31 && trace.value == value && trace.exact == 32
}

/// Sections, and the number of the value that breaks.
struct Driven {
    sections: &'static [Section],
    value: u32,
}

/// The sum is the last of the five values of its section, and the other has one.
const DRIVEN: [Driven; 3] = [
    Driven {
        sections: &[UNIT, SUMS],
        value: 5,
    },
    Driven {
        sections: &[SUMS, UNIT],
        value: 4,
    },
    Driven {
        sections: &[UNIT, UNIT, SUMS, UNIT],
        value: 6,
    },
];

/// Whether the row's trace is found.
fn is_driven(alloc: Global, row: &Driven) -> bool {
    match trace_of(alloc, row.sections) {
        Some(trace) => is_ramp(&trace, row.value),
        None => false,
    }
}

#[test]
fn a_sum_is_driven_out_of_its_words(rt: HostRuntime) {
    for row in &DRIVEN {
        assert!(rt; is_driven(rt.alloc(), row));
    }
}

/// What is found in lists that don't break.
fn quiet_trace(alloc: Global) -> Option<Option<Trace>> {
    let cascade = cascade_of(alloc, &[HALF_6, PAIR_6])?.ok()?;
    let asking = Asking::of(alloc, &cascade).ok()?;
    driven(alloc, &asking, 0).ok()
}

#[test]
fn none_is_found_where_none_breaks(rt: HostRuntime) {
    assert!(rt; matches!(quiet_trace(rt.alloc()), Some(None)));
}
