// What is found of candidates. What is broken first was found by going through all states and all
// inputs of a model of the written equation.
ghost use Rattle.std.specs.Prelude.{◌≤◌, ◌^◌};

use crate::designs::{ALTERNATING, Bound, Design, HALVES, Offer, SUMS, candidate_of, quantised_in};
use dsv_invariant::{accept_unbounded, check_candidate};
use dsv_names::{OverflowMode, Realisation};
use dsv_quantiser::Quantised;
use dsv_realise::Asking;
use dsv_template::{SetPart, Why};
use std::alloc::Global;

/// Inputs and outputs from -1 to 1, in words with two bits after the point.
const UNIT_BOX: &[Bound] = &[
    Bound(&[1, 0], 4),
    Bound(&[-1, 0], 4),
    Bound(&[0, 1], 4),
    Bound(&[0, -1], 4),
];

/// Inputs from -1 to 1, and every output.
const WIDE_BOX: &[Bound] = &[
    Bound(&[1, 0], 4),
    Bound(&[-1, 0], 4),
    Bound(&[0, 1], 7),
    Bound(&[0, -1], 8),
];

/// A box that is too small.
const NARROW_BOX: &[Bound] = &[
    Bound(&[1, 0], 4),
    Bound(&[-1, 0], 4),
    Bound(&[0, 1], 1),
    Bound(&[0, -1], 2),
];

/// A box without zero.
const AWAY: &[Bound] = &[Bound(&[0, -1], -1)];

/// Between two slanted lines.
const SLANTED: &[Bound] = &[Bound(&[3, -2], 9), Bound(&[-3, 2], 9), Bound(&[1, 1], 8)];

/// On one side of a line.
const ONE_SIDE: &[Bound] = &[Bound(&[1, 2], 12)];

/// Coefficients 0 alone.
const ALL: &[Bound] = &[Bound(&[0, 0], 0)];

const NONE: &[Bound] = &[Bound(&[0, 0], -1)];

const OFFERS: [Offer; 17] = [
    Offer(UNIT_BOX, 1),
    Offer(UNIT_BOX, 2),
    Offer(WIDE_BOX, 1),
    Offer(WIDE_BOX, 2),
    Offer(NARROW_BOX, 1),
    Offer(NARROW_BOX, 2),
    Offer(AWAY, 1),
    Offer(AWAY, 2),
    Offer(SLANTED, 1),
    Offer(SLANTED, 2),
    Offer(ONE_SIDE, 1),
    Offer(ONE_SIDE, 2),
    Offer(ALL, 1),
    Offer(ALL, 2),
    Offer(NONE, 1),
    Offer(&[], 1),
    Offer(&[], 2),
];

/// A controller, the bits of its words after the point, whether they saturate, and what is found of
/// each offer in its order: it is good, or the base, the step or the safe sentence is broken first.
struct Case(&'static str, u32, OverflowMode, &'static [u8]);

const CASES: [Case; 8] = [
    Case(HALVES, 2, OverflowMode::Wrap, b"GGGGLBBBLLLLGGBGG"),
    Case(HALVES, 2, OverflowMode::Saturate, b"GGGGLBBBLLLLGGBGG"),
    Case(SUMS, 2, OverflowMode::Wrap, b"LLUULBBBLLLLUUBUU"),
    Case(SUMS, 2, OverflowMode::Saturate, b"LLUULBBBLLLLUUBUU"),
    Case(ALTERNATING, 2, OverflowMode::Wrap, b"LGGGLBBBLLLLGGBGG"),
    Case(ALTERNATING, 2, OverflowMode::Saturate, b"LGGGLBBBLLLLGGBGG"),
    Case(HALVES, 1, OverflowMode::Wrap, b"GGGGLLBBGGGGGGBGG"),
    Case(HALVES, 1, OverflowMode::Saturate, b"GGGGLLBBGGGGGGBGG"),
];

/// A quantised controller with two bits before the point, as the direct form I.
fn design(controller: &'static str, frac_bits: u32, overflow: OverflowMode) -> Design {
    Design {
        controller,
        int_bits: 2,
        frac_bits,
        realisation: Realisation::Dfi,
        overflow,
    }
}

/// What is found of an offer.
fn finding(alloc: Global, quantised: &Quantised, offer: &Offer, conflicts: u32) -> Option<Why>
    requires some { 1 ≤ conflicts }
    requires few { conflicts ≤ 2 ^ 30 }
{
    let candidate = candidate_of(offer)?;
    accept_unbounded(quantised).ok()?;
    let asking = Asking::of(alloc, quantised).ok()?;
    check_candidate(alloc, &asking, &candidate, conflicts).ok()
}

/// The letter of what is found of an offer.
fn letter(alloc: Global, quantised: &Quantised, offer: &Offer) -> u8 {
    match finding(alloc, quantised, offer, 50_000) {
        Some(Why::Good(_)) => b'G',
        Some(Why::Base { .. }) => b'B',
        Some(Why::Leaves { .. }) => b'L',
        Some(Why::Unsafe { .. }) => b'U',
        _ => b'?',
    }
}

/// Whether these are the letters of all offers.
fn are_letters(alloc: Global, quantised: &Quantised, letters: &[u8]) -> bool {
    letters.len() == OFFERS.len()
        && OFFERS.iter().zip(letters).all(|(offer, wanted)| letter(alloc, quantised, offer)
            == *wanted)
}

fn is_right(alloc: Global, case: &Case) -> bool {
    match quantised_in(alloc, &design(case.0, case.1, case.2)) {
        Some(quantised) => are_letters(alloc, &quantised, case.3),
        None => false,
    }
}

#[test]
fn candidates_are_judged_as_a_model_says(rt: HostRuntime) {
    for case in &CASES {
        assert!(rt; is_right(rt.alloc(), case));
    }
}

/// Inputs and outputs from -1 to 1, in words with 14 bits after the point.
const FINE_BOX: Offer = Offer(
    &[
        Bound(&[1, 0], 16384),
        Bound(&[-1, 0], 16384),
        Bound(&[0, 1], 16384),
        Bound(&[0, -1], 16384),
    ],
    1,
);

/// Whether a search that may learn one clause gives up on the step or the safe sentence. The base
/// asks of registers of zeros alone, and holds.
fn is_spent(alloc: Global) -> Option<bool> {
    let quantised = quantised_in(alloc, &design(HALVES, 14, OverflowMode::Wrap))?;
    match finding(alloc, &quantised, &FINE_BOX, 1)? {
        Why::Spent { part, log } => Some(part != SetPart::Base && log.len() == 1),
        _ => Some(false),
    }
}

#[test]
fn a_search_gives_up_after_one_clause(rt: HostRuntime) {
    assert!(rt; is_spent(rt.alloc()) == Some(true));
}

/// Depths, a coefficient and a bound that are out of range, and a coefficient for one of two
/// registers alone.
const BAD: [Offer; 5] = [
    Offer(WIDE_BOX, 0),
    Offer(WIDE_BOX, 9),
    Offer(&[Bound(&[0, 16_777_217], 0)], 1),
    Offer(&[Bound(&[0, 1], 1_152_921_504_606_846_977)], 1),
    Offer(&[Bound(&[1], 0)], 1),
];

/// Whether the numbers of no such offer are as they have to be.
fn are_bad(alloc: Global) -> Option<bool> {
    let quantised = quantised_in(alloc, &design(HALVES, 2, OverflowMode::Wrap))?;
    for offer in &BAD {
        if !matches!(finding(alloc, &quantised, offer, 1), Some(Why::BadShape)) {
            return Some(false);
        }
    }
    Some(true)
}

#[test]
fn a_bad_shape_is_told(rt: HostRuntime) {
    assert!(rt; are_bad(rt.alloc()) == Some(true));
}
