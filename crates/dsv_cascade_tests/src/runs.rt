// Runs of cascades beside runs of their sections by themselves, each over the outputs of the one
// before it.
#![tactic(auto, using(dsv_algebra::proofs::Casts::casts))]

ghost use Rattle.dsv_word.specs.Words.{IsWord};
ghost use Rattle.std.specs.Prelude.{IsTrue};
ghost use Rattle.std.specs.List.{All};

use crate::sections::{GAIN, HALF, PAIR, REALISATIONS, Section, cascade_of, quantised_in};
use dsv_cascade::Cascade;
use dsv_names::{OverflowMode, Realisation, Rounding};
use dsv_quantiser::Quantised;
use dsv_realise::Asking;
use dsv_system::{Row, Rows};
use dsv_word::Format;
use std::alloc::Global;

/// (1 + 0.5 z^-1) / (1 - 0.5 z^-1) with delta 1, in words of three bits; its inputs are the words
/// from -1 to 1.
pub(crate) const FIRST: Section = Section {
    text: "digital_system d = { .b = {1.0, 0.5}, .b_size = 2, .a = {1.0, -0.5}, .a_size = 2 };
implementation i = { .int_bits = 2, .frac_bits = 1, .max = 0.5, .min = -0.5, .delta = 1.0 };",
    frac_bits: 1,
    ..GAIN
};

/// (-1 + 0.5 z^-1 - z^-2) / (1 - z^-1 + 0.5 z^-2), likewise.
pub(crate) const SECOND: Section = Section {
    text: "digital_system d = { .b = {-1.0, 0.5, -1.0}, .b_size = 3,
    .a = {1.0, -1.0, 0.5}, .a_size = 3 };
implementation i = { .int_bits = 2, .frac_bits = 1, .max = 0.5, .min = -0.5, .delta = 1.0 };",
    ..FIRST
};

/// The first with a wide accumulator.
pub(crate) const WIDE_FIRST: Section = Section {
    text: "digital_system d = { .b = {1.0, 0.5}, .b_size = 2, .a = {1.0, -0.5}, .a_size = 2 };
implementation i = { .int_bits = 2, .frac_bits = 1, .max = 0.5, .min = -0.5, .delta = 1.0,
    .wide = 1 };",
    ..FIRST
};

/// The second with a wide accumulator.
pub(crate) const WIDE_SECOND: Section = Section {
    text: "digital_system d = { .b = {-1.0, 0.5, -1.0}, .b_size = 3,
    .a = {1.0, -1.0, 0.5}, .a_size = 3 };
implementation i = { .int_bits = 2, .frac_bits = 1, .max = 0.5, .min = -0.5, .delta = 1.0,
    .wide = 1 };",
    ..FIRST
};

/// Sections of two and of three, in words and in wide accumulators.
pub(crate) const SERIES: [&[Section]; 6] = [
    &[FIRST, SECOND],
    &[SECOND, FIRST],
    &[FIRST, SECOND, FIRST],
    &[WIDE_FIRST, WIDE_SECOND],
    &[WIDE_SECOND, WIDE_FIRST],
    &[WIDE_SECOND, WIDE_FIRST, WIDE_SECOND],
];

/// How words are made whole and fitted.
pub(crate) const MODES: [(Rounding, OverflowMode); 6] = [
    (Rounding::Floor, OverflowMode::Wrap),
    (Rounding::Ceil, OverflowMode::Wrap),
    (Rounding::Nearest, OverflowMode::Wrap),
    (Rounding::Floor, OverflowMode::Saturate),
    (Rounding::Ceil, OverflowMode::Saturate),
    (Rounding::Nearest, OverflowMode::Saturate),
];

/// The sections of a series in words: the cascade that they make, and themselves.
#[derive(Drop)]
pub(crate) struct Made {
    pub cascade: Cascade,
    pub sections: Vec<Quantised>,
}

/// The sections in a realisation and a mode.
fn sections_in(
    alloc: Global,
    series: &[Section],
    realisation: Realisation,
    mode: (Rounding, OverflowMode),
) -> Option<Vec<Section>> {
    let mut sections = Vec::new(alloc);
    for section in series {
        sections
            .push(Section {
                rounding: mode.0,
                overflow: mode.1,
                realisation,
                ..*section
            })
            .ok()?;
    }
    Some(sections)
}

/// The sections in words.
fn made_of(alloc: Global, sections: &[Section]) -> Option<Made> {
    let cascade = cascade_of(alloc, sections)?.ok()?;
    let mut list = Vec::new(alloc);
    for section in sections {
        list.push(quantised_in(alloc, section)?).ok()?;
    }
    Some(Made {
        cascade,
        sections: list,
    })
}

/// The sections of a series in words, in a realisation and a mode.
pub(crate) fn made_in(
    alloc: Global,
    series: &[Section],
    realisation: Realisation,
    mode: (Rounding, OverflowMode),
) -> Option<Made> {
    let sections = sections_in(alloc, series, realisation, mode)?;
    made_of(alloc, sections.as_slice())
}

/// Whether all of these are words.
pub(crate) fn are_words(format: &Format, words: &[i64]) -> bool
    ensures { IsTrue result → All (IsWord format.now) words.now }
{
    words.iter().all(|word| format.fits(i128::from(*word)))
}

/// The rows of a section over these inputs.
pub(crate) fn section_rows(alloc: Global, section: &Quantised, inputs: &[i64]) -> Option<Rows> {
    if !are_words(&section.format(), inputs) {
        return None;
    }
    Asking::of(alloc, section).ok()?.rows(alloc, inputs).ok()
}

/// The rows of a cascade over these inputs.
pub(crate) fn cascade_rows(alloc: Global, cascade: &Cascade, inputs: &[i64]) -> Option<Rows> {
    if !are_words(&cascade.first_section().format(), inputs) {
        return None;
    }
    Asking::of(alloc, cascade).ok()?.rows(alloc, inputs).ok()
}

/// The outputs of a run.
fn outputs_of(alloc: Global, rows: &Rows) -> Option<Vec<i64>> {
    let mut outputs = Vec::new(alloc);
    for row in rows.as_slice() {
        outputs.push(row.y).ok()?;
    }
    Some(outputs)
}

/// The rows of each section, over the outputs of the one before it.
pub(crate) fn series_rows(
    alloc: Global,
    sections: &[Quantised],
    inputs: &[i64],
) -> Option<Vec<Rows>> {
    let mut list = Vec::new(alloc);
    let mut words = Vec::from_slice(alloc, inputs).ok()?;
    for section in sections {
        let rows = section_rows(alloc, section, words.as_slice())?;
        words = outputs_of(alloc, &rows)?;
        list.push(rows).ok()?;
    }
    Some(list)
}

/// The exact values of a sample, those of section 0 first.
fn exact_of(alloc: Global, series: &[Rows], sample: usize) -> Option<Vec<i128>> {
    let mut exact = Vec::new(alloc);
    for rows in series {
        let row = rows.as_slice().get(sample)?;
        exact.extend_from_slice(row.exact.as_slice()).ok()?;
    }
    Some(exact)
}

/// Whether a row of the cascade is that of the sections.
fn is_series_row(alloc: Global, row: &Row, series: &[Rows], sample: usize) -> Option<bool> {
    let first = series.first()?.as_slice().get(sample)?;
    let last = series.last()?.as_slice().get(sample)?;
    let exact = exact_of(alloc, series, sample)?;
    Some(row.x == first.x && row.y == last.y && row.exact.as_slice() == exact.as_slice())
}

/// Whether a cascade's rows are those of its sections.
fn runs_in_series(alloc: Global, made: &Made, inputs: &[i64]) -> Option<bool> {
    let rows = cascade_rows(alloc, &made.cascade, inputs)?;
    let series = series_rows(alloc, made.sections.as_slice(), inputs)?;
    let mut met = rows.len() == inputs.len();
    for (sample, row) in rows.as_slice().iter().enumerate() {
        met = met && is_series_row(alloc, row, series.as_slice(), sample)?;
    }
    Some(met)
}

/// All words of three bits, in some order.
const INPUTS: [i64; 10] = [2, -1, 3, -4, 0, 1, -2, -3, 2, 2];

/// How many cases run as their sections do; none where one doesn't.
fn cases_in_series(alloc: Global) -> Option<u32> {
    let mut count: u32 = 0;
    for series in &SERIES {
        for realisation in &REALISATIONS {
            for mode in &MODES {
                let made = made_in(alloc, series, *realisation, *mode)?;
                if !runs_in_series(alloc, &made, &INPUTS)? {
                    return None;
                }
                count = count.saturating_add(1);
            }
        }
    }
    Some(count)
}

#[test]
fn cascades_run_as_their_sections_in_series(rt: HostRuntime) {
    assert!(rt; cases_in_series(rt.alloc()) == Some(216));
}

/// Whether eight sections run as they do by themselves, in words of four bits.
fn eight_run_in_series(alloc: Global) -> Option<bool> {
    let sections = [PAIR, HALF, GAIN, PAIR, PAIR, HALF, HALF, PAIR];
    let made = made_of(alloc, &sections)?;
    runs_in_series(alloc, &made, &[4, -4, 7, -8, 3, 0, 0, 5, 6, 7])
}

#[test]
fn eight_sections_run_in_series(rt: HostRuntime) {
    assert!(rt; eight_run_in_series(rt.alloc()) == Some(true));
}

/// y = x_1.
const DELAY: Section = Section {
    text: "digital_system d = { .b = {0.0, 1.0}, .b_size = 2, .a = {1.0}, .a_size = 1 };
implementation i = { .int_bits = 2, .frac_bits = 2, .max = 1.0, .min = -1.0 };",
    ..GAIN
};

/// The last row over these inputs in eight sections that each give the input before.
fn last_delayed(alloc: Global) -> Option<(i64, Vec<i128>)> {
    let cascade = cascade_of(alloc, &[DELAY; 8])?.ok()?;
    let rows = cascade_rows(alloc, &cascade, &[1, 2, 3, 4, 5, 6, 7, -8, -7, -6])?;
    let row = rows.as_slice().last()?;
    Some((row.y, Vec::from_slice(alloc, row.exact.as_slice()).ok()?))
}

/// Sample 9: section k gives input 8 - k, in the values 0 x, x_1, their sum, 0 y_1 and y.
const DELAYED: [i128; 40] = [
    0, -7, -7, 0, -7, 0, -8, -8, 0, -8, 0, 7, 7, 0, 7, 0, 6, 6, 0, 6, 0, 5, 5, 0, 5, 0, 4, 4, 0, 4,
    0, 3, 3, 0, 3, 0, 2, 2, 0, 2,
];

/// Whether the last row is the one by hand.
fn is_delayed(alloc: Global) -> bool {
    match last_delayed(alloc) {
        Some((y, exact)) => y == 2 && exact.as_slice() == DELAYED.as_slice(),
        None => false,
    }
}

#[test]
fn eight_delays_give_the_eighth_input_before(rt: HostRuntime) {
    assert!(rt; is_delayed(rt.alloc()));
}
