// Replays of runs, worked by hand from the written equations.
#![tactic(auto, using(dsv_algebra::proofs::Casts::casts))]

use crate::runs::are_words;
use dsv_meaning::{CycleReplay, OverflowReplay, registers, replay_cycle, replay_overflow};
use dsv_names::{OverflowMode, Realisation, Rounding};
use dsv_quantiser::Quantised;
use dsv_test_setup::quantised_of;
use dsv_word::Format;
use std::alloc::Global;

/// 1 / (1 - 0.9 z^-1), whose words in 2.2 are 4, 0 and 4, -4.
const SLOW: &str = "digital_system d = { .b = {1.0}, .b_size = 1, .a = {1.0, -0.9}, .a_size = 2 };
implementation r = { .int_bits = 2, .frac_bits = 2, .max = 1.0, .min = -1.0 };";

/// 1 / (1 - 0.5 z^-1), whose words in 2.2 are 4, 0 and 4, -2.
const HALVING: &str =
    "digital_system d = { .b = {1.0}, .b_size = 1, .a = {1.0, -0.5}, .a_size = 2 };
implementation r = { .int_bits = 2, .frac_bits = 2, .max = 1.0, .min = -1.0 };";

/// 1 / (1 + z^-1), whose words in 2.2 are 4, 0 and 4, 4.
const ALTERNATING: &str =
    "digital_system d = { .b = {1.0}, .b_size = 1, .a = {1.0, 1.0}, .a_size = 2 };
implementation r = { .int_bits = 2, .frac_bits = 2, .max = 1.0, .min = -1.0 };";

/// A realisation of the first controller, a run of it from registers of zeros, and what breaks
/// first in it.
struct Run(Realisation, &'static [i64], OverflowReplay);

const RUNS: [Run; 4] = [
    // 4; 0: 4; less -4: 8.
    Run(
        Realisation::Dfi,
        &[4, 4],
        OverflowReplay::Breaks {
            sample: 1,
            value: 4,
            exact: 8,
        },
    ),
    // 3; 0: 3; less -4: 7, the greatest word.
    Run(Realisation::Dfi, &[4, 3], OverflowReplay::Clean),
    // After -8: -1; 0: -1; less -4 times -8 over 4, which is 8.
    Run(
        Realisation::Dfi,
        &[-4, -4, -1],
        OverflowReplay::Breaks {
            sample: 2,
            value: 3,
            exact: 8,
        },
    ),
    // 4 less -4: w = 8.
    Run(
        Realisation::Dfii,
        &[4, 4],
        OverflowReplay::Breaks {
            sample: 1,
            value: 1,
            exact: 8,
        },
    ),
];

/// A controller with its rounding, a start without input, how many samples there are, and the
/// period with which it comes back and whether an output isn't 0, if it does.
struct Start(
    &'static str,
    Rounding,
    &'static [i64],
    u32,
    Option<(u32, bool)>,
);

const STARTS: [Start; 7] = [
    // -2/4 is -1: y = 1.
    Start(HALVING, Rounding::Floor, &[0, 1], 8, Some((1, true))),
    // 2/4 is 1: y = -1.
    Start(HALVING, Rounding::Nearest, &[0, -1], 8, Some((1, true))),
    Start(HALVING, Rounding::Floor, &[0, 0], 8, Some((1, false))),
    Start(HALVING, Rounding::Floor, &[0, 1], 0, None),
    // The input is 0 from then on.
    Start(HALVING, Rounding::Floor, &[1, 1], 8, None),
    // The outputs are -1, 1.
    Start(ALTERNATING, Rounding::Floor, &[0, 1], 2, Some((2, true))),
    Start(ALTERNATING, Rounding::Floor, &[0, 1], 1, None),
];

/// A controller in words of 2.2 that wrap.
fn words_of(
    alloc: Global,
    text: &str,
    rounding: Rounding,
    realisation: Realisation,
) -> Option<Quantised> {
    let format = Format::new(2, 2, rounding, OverflowMode::Wrap).ok()?;
    quantised_of(alloc, text, format, realisation)
}

/// What breaks first in the run, where its inputs are words.
fn overflow_of(alloc: Global, run: &Run) -> Option<OverflowReplay> {
    let Run(realisation, inputs, _) = run;
    let quantised = words_of(alloc, SLOW, Rounding::Floor, *realisation)?;
    let format = quantised.format();
    if inputs.len() >= 1000 || !are_words(&format, inputs) {
        return None;
    }
    let mut outputs = vec![in alloc; 0i64; inputs.len()].ok()?;
    Some(replay_overflow(&quantised, inputs, outputs.as_mut_slice()))
}

/// Whether the start comes back, where its registers are as many as the realisation has and all
/// are words.
fn cycle_of(alloc: Global, start: &Start) -> Option<CycleReplay> {
    let Start(text, rounding, words, limit, _) = start;
    let quantised = words_of(alloc, text, *rounding, Realisation::Dfi)?;
    let format = quantised.format();
    if words.len() != registers(quantised.realisation(), quantised.order() as u32) as usize
        || !are_words(&format, words)
    {
        return None;
    }
    let mut outputs = vec![in alloc; 0i64; *limit as usize].ok()?;
    Some(replay_cycle(&quantised, words, *limit, outputs.as_mut_slice()))
}

/// The replay that a start has.
fn wanted_of(start: &Start) -> CycleReplay {
    match start.4 {
        Some((period, sounding)) => CycleReplay::Returns { period, sounding },
        None => CycleReplay::Clean,
    }
}

#[test]
fn runs_break_where_a_value_is_no_word(rt: HostRuntime) {
    for run in &RUNS {
        assert!(rt; overflow_of(rt.alloc(), run) == Some(run.2));
    }
}

#[test]
fn starts_come_back_after_their_periods(rt: HostRuntime) {
    for start in &STARTS {
        assert!(rt; cycle_of(rt.alloc(), start) == Some(wanted_of(start)));
    }
}
