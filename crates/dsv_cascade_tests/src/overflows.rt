// Overflow of cascades: an answer by hand, answers beside all lists of inputs, and sizes of jobs.
use crate::runs::{MODES, Made, SECOND, SERIES, made_in, series_rows};
use crate::sections::{GAIN, HALF, PAIR, REALISATIONS, Section, cascade_of};
use dsv_bounded::{BoundedRefusal, overflow_within};
use dsv_hints::Searched;
use dsv_meaning::Trace;
use dsv_names::{OverflowMode, Realisation};
use dsv_realise::Asking;
use dsv_system::Rows;
use dsv_word::Format;
use std::alloc::Global;

/// y = x over the input 1, whose word is 4.
const UNIT: Section = Section {
    text: "digital_system d = { .b = {1.0}, .b_size = 1, .a = {1.0}, .a_size = 1 };
implementation i = { .int_bits = 2, .frac_bits = 2, .max = 1.0, .min = 1.0 };",
    overflow: OverflowMode::Wrap,
    ..GAIN
};

/// y = 1.75 x, over the input 1.
const STEEP: Section = Section {
    text: "digital_system d = { .b = {1.75}, .b_size = 1, .a = {1.0}, .a_size = 1 };
implementation i = { .int_bits = 2, .frac_bits = 2, .max = 1.0, .min = 1.0 };",
    ..UNIT
};

/// The answer within one sample.
fn answer_of(alloc: Global, sections: &[Section]) -> Option<Searched<Trace>> {
    let cascade = cascade_of(alloc, sections)?.ok()?;
    let asking = Asking::of(alloc, &cascade).ok()?;
    overflow_within(alloc, &asking, 1, 1_000).ok()
}

/// Whether the second steep section breaks: 4, 7, and 49 fourths, which is 12 and wraps to -4.
fn breaks_in_the_last(answer: &Option<Searched<Trace>>) -> bool {
    match answer {
        Some(Searched::Happens(trace)) => {
            trace.inputs.as_slice() == [4].as_slice()
                && trace.outputs.as_slice() == [-4].as_slice()
                && trace.sample == 0
                && trace.value == 2
                && trace.exact == 12
        }
        _ => false,
    }
}

#[test]
fn the_second_steep_section_breaks(rt: HostRuntime) {
    let answer = answer_of(rt.alloc(), &[UNIT, STEEP, STEEP]);
    assert!(rt; breaks_in_the_last(&answer));
}

#[test]
fn one_steep_section_never_breaks(rt: HostRuntime) {
    let answer = answer_of(rt.alloc(), &[UNIT, STEEP]);
    assert!(rt; matches!(answer, Some(Searched::Never(_))));
}

/// y = x over inputs from 0 to 0.25, the words 0 and 1.
const NARROW: Section = Section {
    text: "digital_system d = { .b = {1.0}, .b_size = 1, .a = {1.0}, .a_size = 1 };
implementation i = { .int_bits = 2, .frac_bits = 2, .max = 0.25, .min = 0.0 };",
    ..UNIT
};

#[test]
fn the_inputs_are_those_of_section_0(rt: HostRuntime) {
    let answer = answer_of(rt.alloc(), &[NARROW, STEEP, STEEP]);
    assert!(rt; matches!(answer, Some(Searched::Never(_))));
}

/// Whether an exact value is no word.
fn has_outside(format: &Format, rows: &Rows) -> bool {
    for row in rows.as_slice() {
        if !row.exact.as_slice().iter().all(|value| format.fits(*value)) {
            return true;
        }
    }
    false
}

/// Whether these inputs break one of the sections in series.
fn do_break(alloc: Global, made: &Made, inputs: &[i64]) -> Option<bool> {
    let format = made.sections.as_slice().first()?.format();
    for rows in &series_rows(alloc, made.sections.as_slice(), inputs)? {
        if has_outside(&format, rows) {
            return Some(true);
        }
    }
    Some(false)
}

/// Whether some list of two inputs, from -1 to 1, breaks one of the sections in series.
fn some_list_breaks(alloc: Global, made: &Made) -> Option<bool> {
    for first in -1..2 {
        for second in -1..2 {
            if do_break(alloc, made, &[first, second])? {
                return Some(true);
            }
        }
    }
    Some(false)
}

/// Whether some list of two inputs breaks the sections, where the answer within two samples says so
/// too: that it happens, by inputs that break, or that it never does.
fn right_answer(alloc: Global, made: &Made) -> Option<bool> {
    let breaks = some_list_breaks(alloc, made)?;
    let asking = Asking::of(alloc, &made.cascade).ok()?;
    let is_right = match overflow_within(alloc, &asking, 2, 50_000).ok()? {
        Searched::Happens(trace) => breaks && do_break(alloc, made, trace.inputs.as_slice())?,
        Searched::Never(_) => !breaks,
        Searched::Spent(_) => false,
    };
    if is_right { Some(breaks) } else { None }
}

/// In how many cases of a series some list breaks, and in how many none does, where all answers are
/// right.
fn right_answers(alloc: Global, series: &[Section]) -> Option<(u32, u32)> {
    let mut broken: u32 = 0;
    let mut clean: u32 = 0;
    for realisation in &REALISATIONS {
        for mode in &MODES {
            let made = made_in(alloc, series, *realisation, *mode)?;
            if right_answer(alloc, &made)? {
                broken = broken.saturating_add(1);
            } else {
                clean = clean.saturating_add(1);
            }
        }
    }
    Some((broken, clean))
}

/// In how many of the 36 cases of each series some list breaks, and in how many none does.
const COUNTS: [(u32, u32); 6] = [(4, 32), (4, 32), (28, 8), (8, 28), (12, 24), (20, 16)];

#[test]
fn answers_are_those_of_all_lists(rt: HostRuntime) {
    for (series, counts) in SERIES.iter().zip(&COUNTS) {
        assert!(rt; right_answers(rt.alloc(), series) == Some(*counts));
    }
}

/// y = 1.75 x in words of 25 bits.
const STEEP_25: Section = Section {
    frac_bits: 23,
    ..STEEP
};

/// The same in words of 27 bits.
const STEEP_27: Section = Section {
    frac_bits: 25,
    ..STEEP
};

/// Orders 0, 1 and 2 in words of 21 bits.
const GAIN_21: Section = Section {
    frac_bits: 19,
    ..GAIN
};

const HALF_21: Section = Section {
    frac_bits: 19,
    ..HALF
};

const PAIR_21: Section = Section {
    frac_bits: 19,
    ..PAIR
};

/// Order 2 in the delta operator, whose direct form I takes nine products.
const DELTA_21: Section = Section {
    frac_bits: 19,
    realisation: Realisation::Ddfi,
    ..SECOND
};

/// Sections, and the size of a job over them.
struct Sized {
    sections: &'static [Section],
    samples: u32,
    size: u64,
}

/// Samples, products and squares of bits: 49 times 7 times 729, 51 times 8 times 625, 63 times 9
/// times 441, by 1 + 3 + 5 products and by 9, and 64 times 10 times 441.
const TOO_LARGE: [Sized; 5] = [
    Sized {
        sections: &[STEEP_27; 7],
        samples: 49,
        size: 250_047,
    },
    Sized {
        sections: &[STEEP_25; 8],
        samples: 51,
        size: 255_000,
    },
    Sized {
        sections: &[GAIN_21, HALF_21, PAIR_21],
        samples: 63,
        size: 250_047,
    },
    Sized {
        sections: &[DELTA_21],
        samples: 63,
        size: 250_047,
    },
    Sized {
        sections: &[PAIR_21, PAIR_21],
        samples: 64,
        size: 282_240,
    },
];

/// Whether a job is refused for its size, and told it.
fn is_too_large(alloc: Global, row: &Sized) -> Option<bool> {
    let samples = row.samples;
    if samples < 1 || samples > 64 {
        return None;
    }
    let cascade = cascade_of(alloc, row.sections)?.ok()?;
    let asking = Asking::of(alloc, &cascade).ok()?;
    match overflow_within(alloc, &asking, samples, 1) {
        Err(BoundedRefusal::JobSize { size }) => Some(size == row.size),
        _ => Some(false),
    }
}

#[test]
fn a_job_over_the_greatest_size_is_refused(rt: HostRuntime) {
    for row in &TOO_LARGE {
        assert!(rt; is_too_large(rt.alloc(), row) == Some(true));
    }
}

/// Whether a job of 50 samples, eight products and 25 bits, 250,000, is taken: the second section
/// breaks in sample 0.
fn is_taken(alloc: Global) -> Option<bool> {
    let cascade = cascade_of(alloc, &[STEEP_25; 8])?.ok()?;
    let asking = Asking::of(alloc, &cascade).ok()?;
    match overflow_within(alloc, &asking, 50, 1).ok()? {
        Searched::Happens(trace) => Some(trace.sample == 0 && trace.value == 1),
        _ => Some(false),
    }
}

#[test]
fn a_job_of_the_greatest_size_is_taken(rt: HostRuntime) {
    assert!(rt; is_taken(rt.alloc()) == Some(true));
}
