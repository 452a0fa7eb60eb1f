// A cascade of one section beside the filter by itself.
ghost use Rattle.std.specs.Prelude.{◌≤◌};

use crate::runs::{MODES, Made, SECOND, WIDE_SECOND, cascade_rows, made_in, section_rows};
use crate::sections::{REALISATIONS, Section};
use dsv_bounded::overflow_within;
use dsv_hints::Searched;
use dsv_meaning::Trace;
use dsv_realise::Asking;
use dsv_system::Rows;
use std::alloc::Global;

/// Whether the rows are the same.
fn are_one(some: &Rows, others: &Rows) -> bool {
    let mut met = some.len() == others.len();
    for (row, other) in some.as_slice().iter().zip(others.as_slice()) {
        met = met
            && row.x == other.x
            && row.y == other.y
            && row.exact.as_slice() == other.exact.as_slice();
    }
    met
}

/// Whether the cascade of the section runs as the section does.
fn runs_alone(alloc: Global, made: &Made) -> Option<bool> {
    let inputs = [2, -1, 3, -4, 0, 1, -2, -3, 2, 2];
    let section = made.sections.as_slice().first()?;
    let rows = cascade_rows(alloc, &made.cascade, &inputs)?;
    Some(are_one(&rows, &section_rows(alloc, section, &inputs)?))
}

/// Whether the traces are the same.
fn is_one_trace(trace: &Trace, other: &Trace) -> bool {
    trace.inputs.as_slice() == other.inputs.as_slice()
        && trace.outputs.as_slice() == other.outputs.as_slice()
        && trace.sample == other.sample
        && trace.value == other.value
        && trace.exact == other.exact
}

/// Whether the answers are the same: traces and the lengths of logs.
fn is_one_answer(answer: &Searched<Trace>, other: &Searched<Trace>) -> bool {
    match (answer, other) {
        (Searched::Never(log), Searched::Never(second)) => log.len() == second.len(),
        (Searched::Happens(trace), Searched::Happens(second)) => is_one_trace(trace, second),
        _ => false,
    }
}

/// How many answers within 1, 2 and 3 samples are those of the section by itself, where all are:
/// those that it happens, and those that it never does.
fn answers_alone(alloc: Global, made: &Made) -> Option<(u32, u32)> {
    let section = made.sections.as_slice().first()?;
    let mut happens: u32 = 0;
    let mut never: u32 = 0;
    for samples in 1..4 {
        let asking = Asking::of(alloc, &made.cascade).ok()?;
        let found = overflow_within(alloc, &asking, samples, 50_000).ok()?;
        let of_section = Asking::of(alloc, section).ok()?;
        let alone = overflow_within(alloc, &of_section, samples, 50_000).ok()?;
        if !is_one_answer(&found, &alone) {
            return None;
        }
        match found {
            Searched::Happens(_) => happens = happens.saturating_add(1),
            _ => never = never.saturating_add(1),
        }
    }
    Some((happens, never))
}

/// The section alone, in words and in a wide accumulator.
const ALONE: [Section; 2] = [SECOND, WIDE_SECOND];

/// Whether it runs as by itself in each realisation and mode.
fn all_run_alone(alloc: Global) -> Option<bool> {
    let mut met = true;
    for section in &ALONE {
        for realisation in &REALISATIONS {
            for mode in &MODES {
                let made = made_in(alloc, &[*section], *realisation, *mode)?;
                met = met && runs_alone(alloc, &made)?;
            }
        }
    }
    Some(met)
}

#[test]
fn one_section_runs_as_by_itself(rt: HostRuntime) {
    assert!(rt; all_run_alone(rt.alloc()) == Some(true));
}

/// How many answers of the section are those by itself, in each realisation and mode.
fn all_answers_alone(alloc: Global, section: Section) -> Option<(u32, u32)> {
    let mut happens: u32 = 0;
    let mut never: u32 = 0;
    for realisation in &REALISATIONS {
        for mode in &MODES {
            let made = made_in(alloc, &[section], *realisation, *mode)?;
            let found = answers_alone(alloc, &made)?;
            happens = happens.saturating_add(found.0);
            never = never.saturating_add(found.1);
        }
    }
    Some((happens, never))
}

#[test]
fn one_section_has_the_answer_by_itself(rt: HostRuntime) {
    assert!(rt; all_answers_alone(rt.alloc(), SECOND) == Some((14, 94)));
}

#[test]
fn one_wide_section_has_the_answer_by_itself(rt: HostRuntime) {
    assert!(rt; all_answers_alone(rt.alloc(), WIDE_SECOND) == Some((10, 98)));
}
