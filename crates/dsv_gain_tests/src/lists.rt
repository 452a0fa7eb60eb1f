// Lists that break a controller, beside the least ones by hand.
use crate::controllers::{Design, REALISATIONS};
use dsv_gain::{Outlook, driven, gain};
use dsv_meaning::Trace;
use dsv_names::{OverflowMode, Realisation, Rounding};
use dsv_realise::Asking;
use std::alloc::Global;
use std::test::Fail;

/// y = x + y_1, over inputs from 0 to 0.25, which is the word 1. Over ones y(n) is n + 1, and the
/// words end at 31. The ranges leave the words in sample 18: a sample adds 1.75 at most.
const SUMS: &str = "digital_system d = { .b = {1.0}, .b_size = 1, .a = {1.0, -1.0}, .a_size = 2 };
implementation r = { .int_bits = 4, .frac_bits = 2, .max = 0.25, .min = 0.0, .delta = 1.0 };";

/// The same over inputs from -0.25 to 0: over the least ones y(n) is -(n + 1), and the product
/// a_1 y_1, which is n, breaks before y does.
const DIFFERENCES: &str =
    "digital_system d = { .b = {1.0}, .b_size = 1, .a = {1.0, -1.0}, .a_size = 2 };
implementation r = { .int_bits = 4, .frac_bits = 2, .max = 0.0, .min = -0.25, .delta = 1.0 };";

/// y = 0.5 x, which stays inside the words.
const HALF: &str = "digital_system d = { .b = {0.5}, .b_size = 1, .a = {1.0}, .a_size = 1 };
implementation r = { .int_bits = 2, .frac_bits = 2, .max = 1.0, .min = -1.0, .delta = 1.0 };";

/// The design of a file with two bits after the point.
fn design(text: &'static str, int_bits: u32) -> Design {
    Design {
        text,
        int_bits,
        frac_bits: 2,
        rounding: Rounding::Floor,
        overflow: OverflowMode::Saturate,
    }
}

/// The trace that is found where the ranges leave the words.
fn trace_of(alloc: Global, design: &Design, realisation: Realisation) -> Option<Trace> {
    let quantised = design.quantised_in(alloc, realisation)?;
    let asking = Asking::of(alloc, &quantised).ok()?;
    match gain(alloc, &asking, 64).ok()? {
        Outlook::Leaves { sample, .. } => driven(alloc, &asking, sample).ok()?,
        _ => None,
    }
}

/// A trace of so many inputs, all of them the same, and the value with which it breaks.
#[derive(Clone, Copy)]
struct Ramp {
    count: usize,
    input: i64,
    value: u32,
    exact: i128,
}

/// Whether the trace is this one.
fn is_ramp(trace: &Trace, ramp: &Ramp) -> bool {
    trace.inputs.len() == ramp.count
        && trace.inputs.as_slice().iter().all(|x| *x == ramp.input)
        && trace.value == ramp.value
        && trace.exact == ramp.exact
}

/// Whether it is found in direct form I.
fn is_driven(alloc: Global, text: &'static str, ramp: &Ramp) -> Option<bool> {
    let trace = trace_of(alloc, &design(text, 4), Realisation::Dfi)?;
    Some(is_ramp(&trace, ramp))
}

#[test]
fn integrator_is_driven_up(rt: HostRuntime) -> Result<(), Fail> {
    let alloc = rt.alloc();
    let ramp = Ramp {
        count: 32,
        input: 1,
        value: 4,
        exact: 32,
    };
    assert!(rt; is_driven(alloc, SUMS, &ramp) == Some(true));
    Ok(())
}

#[test]
fn integrator_is_driven_down(rt: HostRuntime) -> Result<(), Fail> {
    let alloc = rt.alloc();
    let ramp = Ramp {
        count: 33,
        input: -1,
        value: 3,
        exact: 32,
    };
    assert!(rt; is_driven(alloc, DIFFERENCES, &ramp) == Some(true));
    Ok(())
}

/// Whether the integrator breaks in each realisation.
fn breaks_in_all(alloc: Global) -> bool {
    let mut met = true;
    for realisation in &REALISATIONS {
        met = met && trace_of(alloc, &design(SUMS, 4), *realisation).is_some();
    }
    met
}

#[test]
fn integrator_breaks_in_each_realisation(rt: HostRuntime) -> Result<(), Fail> {
    let alloc = rt.alloc();
    assert!(rt; breaks_in_all(alloc));
    Ok(())
}

/// What is found in lists that don't break.
fn quiet_trace(alloc: Global) -> Option<Option<Trace>> {
    let quantised = design(HALF, 2).quantised_in(alloc, Realisation::Dfi)?;
    let asking = Asking::of(alloc, &quantised).ok()?;
    driven(alloc, &asking, 0).ok()
}

#[test]
fn none_is_found_where_none_breaks(rt: HostRuntime) -> Result<(), Fail> {
    let alloc = rt.alloc();
    assert!(rt; matches!(quiet_trace(alloc), Some(None)));
    Ok(())
}
