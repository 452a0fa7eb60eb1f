// Runs of the realisations by the written equations, worked by hand.
#![tactic(auto, using(dsv_algebra::proofs::Casts::casts))]

ghost use Rattle.dsv_word.specs.Words.{IsWord};
ghost use Rattle.std.specs.Prelude.{IsTrue};
ghost use Rattle.std.specs.List.{All};

use dsv_meaning::{registers, simulate};
use dsv_names::{OverflowMode, Realisation, Rounding};
use dsv_quantiser::Quantised;
use dsv_system::Rows;
use dsv_test_setup::quantised_of;
use dsv_word::Format;
use std::alloc::Global;

/// 1 / (1 - 0.9 z^-1), whose words in 2.2 are 4, 0 and 4, -4.
const FIRST: &str = "digital_system d = { .b = {1.0}, .b_size = 1, .a = {1.0, -0.9}, .a_size = 2 };
implementation r = { .int_bits = 2, .frac_bits = 2, .max = 1.0, .min = -1.0 };";

/// (1 + 0.5 z^-1 - z^-2) / (1 + 0.5 z^-1 - 0.5 z^-2), whose words in 4.1 are 2, 1, -2 and 2, 1, -1.
const SECOND: &str =
    "digital_system d = { .b = {1.0, 0.5, -1.0}, .b_size = 3, .a = {1.0, 0.5, -0.5}, .a_size = 3 };
implementation r = { .int_bits = 4, .frac_bits = 1, .max = 1.0, .min = -1.0 };";

/// z^-1 / (1 - 0.5 z^-1) with delta 0.5, whose words in 3.4 are 0, 32 and 16, 16, and 8 of delta.
const DELTA: &str =
    "digital_system d = { .b = {0.0, 1.0}, .b_size = 2, .a = {1.0, -0.5}, .a_size = 2 };
implementation r = { .int_bits = 3, .frac_bits = 4, .max = 1.0, .min = -1.0, .delta = 0.5 };";

/// A run, and what its last sample gives.
struct Run {
    file: &'static str,
    int_bits: u32,
    frac_bits: u32,
    overflow: OverflowMode,
    realisation: Realisation,
    /// The registers before the first sample.
    start: &'static [i64],
    inputs: &'static [i64],
    /// The output of the last sample.
    y: i64,
    /// The exact values of the last sample.
    exact: &'static [i128],
}

const RUNS: [Run; 8] = [
    Run {
        file: FIRST,
        int_bits: 2,
        frac_bits: 2,
        overflow: OverflowMode::Wrap,
        realisation: Realisation::Dfi,
        start: &[0, 0],
        inputs: &[4, 4],
        y: -8,
        exact: &[4, 0, 4, -4, 8],
    },
    Run {
        file: FIRST,
        int_bits: 2,
        frac_bits: 2,
        overflow: OverflowMode::Saturate,
        realisation: Realisation::Dfi,
        start: &[0, 0],
        inputs: &[4, 4],
        y: 7,
        exact: &[4, 0, 4, -4, 8],
    },
    // -3: -3; 2: -1; -3: -4; less 3: -7; less -1: -6.
    Run {
        file: SECOND,
        int_bits: 4,
        frac_bits: 1,
        overflow: OverflowMode::Wrap,
        realisation: Realisation::Dfi,
        start: &[3, 1, 2, 5],
        inputs: &[4, -3],
        y: -6,
        exact: &[-3, 2, -1, -3, -4, 3, -7, -1, -6],
    },
    // -3 less 3: -6; less -3/2, that is -2: w = -4. -4; 3: -1; -3: -4.
    Run {
        file: SECOND,
        int_bits: 4,
        frac_bits: 1,
        overflow: OverflowMode::Wrap,
        realisation: Realisation::Dfii,
        start: &[3, 5],
        inputs: &[4, -3],
        y: -4,
        exact: &[3, -6, -2, -4, -4, 3, -1, -3, -4],
    },
    // -3, and 4: y = 1. -2 less 0, and 0; 3 less -1: 4.
    Run {
        file: SECOND,
        int_bits: 4,
        frac_bits: 1,
        overflow: OverflowMode::Wrap,
        realisation: Realisation::Tdfii,
        start: &[3, 5],
        inputs: &[4, -3],
        y: 1,
        exact: &[-3, 1, -2, 0, -2, -2, 3, -1, 4],
    },
    // 0; 22; less 5: y = 17. 0: u = 11. 136/16 is 8: v = 13.
    Run {
        file: DELTA,
        int_bits: 3,
        frac_bits: 4,
        overflow: OverflowMode::Wrap,
        realisation: Realisation::Ddfi,
        start: &[3, 5],
        inputs: &[16, 0],
        y: 17,
        exact: &[0, 22, 22, 5, 17, 0, 11, 8, 13],
    },
    Run {
        file: DELTA,
        int_bits: 3,
        frac_bits: 4,
        overflow: OverflowMode::Wrap,
        realisation: Realisation::Ddfii,
        start: &[0],
        inputs: &[16, 0],
        y: 16,
        exact: &[8, -8, 0, 16, 16, -4, 4],
    },
    // 0, and 17: y = 17. 0 less 17; -136/16 is -9: s = 8.
    Run {
        file: DELTA,
        int_bits: 3,
        frac_bits: 4,
        overflow: OverflowMode::Wrap,
        realisation: Realisation::Tddfii,
        start: &[3],
        inputs: &[16, 0],
        y: 17,
        exact: &[0, 17, 0, 17, -17, -9, 8],
    },
];

/// Whether all of these are words.
pub(crate) fn are_words(format: &Format, words: &[i64]) -> bool
    ensures { IsTrue result → All (IsWord format.now) words.now }
{
    words.iter().all(|word| format.fits(i128::from(*word)))
}

/// The controller of a run in words.
fn words_of_run(alloc: Global, run: &Run) -> Option<Quantised> {
    let format = Format::new(run.int_bits, run.frac_bits, Rounding::Floor, run.overflow).ok()?;
    quantised_of(alloc, run.file, format, run.realisation)
}

/// The rows of a run, where its registers are as many as the realisation has and all are words.
fn rows_of(alloc: Global, run: &Run) -> Option<Rows> {
    let quantised = words_of_run(alloc, run)?;
    let format = quantised.format();
    if run.start.len() != registers(quantised.realisation(), quantised.order() as u32) as usize
        || !are_words(&format, run.start)
        || !are_words(&format, run.inputs)
    {
        return None;
    }
    simulate(alloc, &quantised, run.start, run.inputs).ok()
}

/// Whether the written equations give the run.
fn is_simulated(alloc: Global, run: &Run) -> Option<bool> {
    let rows = rows_of(alloc, run)?;
    let row = rows.as_slice().last()?;
    Some(
        rows.len() == run.inputs.len()
            && run.inputs.last() == Some(&row.x)
            && row.y == run.y
            && row.exact.as_slice() == run.exact,
    )
}

#[test]
fn written_equations_give_the_runs(rt: HostRuntime) {
    for run in &RUNS {
        assert!(rt; is_simulated(rt.alloc(), run) == Some(true));
    }
}
