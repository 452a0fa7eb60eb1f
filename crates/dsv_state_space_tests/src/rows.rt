// Samples of netlists from all starts beside those of a model, and rows over lists of inputs.
#![tactic(auto, using(dsv_algebra::proofs::Casts::casts))]

ghost use Rattle.dsv_word.specs.Words.{IsWord};
ghost use Rattle.std.specs.Prelude.{IsTrue};
ghost use Rattle.std.specs.List.{All};

use crate::models::{Model, Sample};
use crate::systems::{MODES, words_of};
use dsv_names::{OverflowMode, Rounding};
use dsv_netlist::Netlist;
use dsv_realise::Asking;
use dsv_state_space::state_net;
use dsv_system::ExactList;
use dsv_word::Format;
use std::alloc::Global;

/// Whether all of these are words.
fn are_words(format: &Format, words: &[i64]) -> bool
    ensures { IsTrue result → All (IsWord format.now) words.now }
{
    words.iter().all(|word| format.fits(i128::from(*word)))
}

/// The output of a step of a netlist, which loads the registers.
fn step_output(net: &Netlist, registers: &mut [i64], u: i64, exact: &mut ExactList) -> Option<i64> {
    let format = net.format();
    let is_ready = registers.len() == net.registers() as usize && exact.is_empty();
    if !is_ready || !are_words(&format, registers) || !format.fits(i128::from(u)) {
        return None;
    }
    Some(net.step(registers, u, exact))
}

/// Whether exact values are the same numbers.
fn are_same(found: &[i128], wanted: &[i64]) -> bool {
    let mut met = found.len() == wanted.len();
    for (a, b) in found.iter().zip(wanted) {
        met = met && *a == i128::from(*b);
    }
    met
}

/// Whether a step from these states is the model's sample.
fn is_sample(alloc: Global, net: &Netlist, model: &Model, x: &[i64; 2], u: i64) -> Option<bool> {
    let wanted = model.sample(alloc, x, u)?;
    let count = model.states.min(2);
    let mut states = *x;
    let mut exact = ExactList::new();
    let y = step_output(net, &mut states[..count], u, &mut exact)?;
    Some(
        y == wanted.y
            && are_same(exact.as_slice(), wanted.exact.as_slice())
            && states[..count] == wanted.states[..count],
    )
}

/// Whether all steps, from all states and at all inputs, are the model's samples.
fn are_samples(alloc: Global, model: &Model) -> Option<bool> {
    let text = model.text(alloc)?;
    let system = words_of(text.as_slice(), model.mode)?.ok()?;
    let net = state_net(alloc, &system).ok()?;
    let (least, end) = if model.states == 2 { (-4, 4) } else { (0, 1) };
    let mut met = true;
    for first in -4..4 {
        for second in least..end {
            for u in -4..4 {
                met = met && is_sample(alloc, &net, model, &[first, second], u)?;
            }
        }
    }
    Some(met)
}

/// The model of one state with these words.
fn one_state(words: [i64; 4], mode: (Rounding, OverflowMode)) -> Model {
    Model {
        a: [[words[0], 0], [0, 0]],
        b: [words[1], 0],
        c: [words[2], 0],
        d: words[3],
        states: 1,
        mode,
    }
}

/// The words of d that are tried.
const DIRECT: [i64; 2] = [-4, 1];

/// The words of c that are tried.
const OUTPUT: [i64; 4] = [-4, -1, 1, 3];

/// Whether controllers of one state with this word in A have the model's samples.
fn are_samples_of(alloc: Global, a: i64, mode: (Rounding, OverflowMode)) -> Option<bool> {
    let mut met = true;
    for b in -4..4 {
        for c in &OUTPUT {
            for d in &DIRECT {
                met = met && are_samples(alloc, &one_state([a, b, *c, *d], mode))?;
            }
        }
    }
    Some(met)
}

#[test]
fn samples_of_one_state_are_the_model_s(rt: HostRuntime) {
    for mode in &MODES {
        for a in -4..4 {
            assert!(rt; are_samples_of(rt.alloc(), a, *mode) == Some(true));
        }
    }
}

/// The generator's number after this one.
fn next_number(number: u64) -> u64 {
    number
        .wrapping_mul(6_364_136_223_846_793_005)
        .wrapping_add(1_442_695_040_888_963_407)
}

/// A word of the number's upper bits.
fn word_of(number: u64) -> i64 {
    ((number >> 61) as i64).wrapping_sub(4)
}

/// Nine words of a generator that starts with this number.
fn nine_words(seed: u64) -> [i64; 9] {
    let mut number = next_number(seed);
    let mut words = [0; 9];
    for i in 0..9 {
        number = next_number(number);
        words[i] = word_of(number);
    }
    words
}

/// A model of two states.
pub(crate) fn two_states(seed: u64, mode: (Rounding, OverflowMode)) -> Model {
    let w = nine_words(seed);
    Model {
        a: [[w[0], w[1]], [w[2], w[3]]],
        b: [w[4], w[5]],
        c: [w[6], w[7]],
        d: w[8],
        states: 2,
        mode,
    }
}

#[test]
fn samples_of_two_states_are_the_model_s(rt: HostRuntime) {
    for seed in 0..30 {
        for mode in &MODES {
            assert!(rt; are_samples(rt.alloc(), &two_states(seed, *mode)) == Some(true));
        }
    }
}

/// Inputs of a run.
const INPUTS: [i64; 6] = [1, -1, 1, 1, 0, -1];

/// Whether the rows over the inputs are the model's samples from states of zeros.
fn are_rows(alloc: Global, model: &Model) -> Option<bool> {
    let text = model.text(alloc)?;
    let system = words_of(text.as_slice(), model.mode)?.ok()?;
    if !are_words(&system.format(), &INPUTS) {
        return None;
    }
    let rows = Asking::of(alloc, &system).ok()?.rows(alloc, &INPUTS).ok()?;
    let mut states = [0, 0];
    let mut met = rows.len() == INPUTS.len();
    for (row, u) in rows.as_slice().iter().zip(&INPUTS) {
        let wanted: Sample = model.sample(alloc, &states, *u)?;
        states = wanted.states;
        met = met
            && row.x == *u
            && row.y == wanted.y
            && are_same(row.exact.as_slice(), wanted.exact.as_slice());
    }
    Some(met)
}

#[test]
fn rows_are_the_model_s(rt: HostRuntime) {
    for seed in 100..120 {
        for mode in &MODES {
            assert!(rt; are_rows(rt.alloc(), &two_states(seed, *mode)) == Some(true));
        }
    }
}
