// Overflow within some samples beside all lists of inputs, limit cycles beside all starts, and the
// sizes of jobs.
use crate::models::Model;
use crate::rows::two_states;
use crate::systems::{MODES, system_of, words_of};
use dsv_bounded::{BoundedRefusal, cycle_within, overflow_within};
use dsv_hints::Searched;
use dsv_meaning::{Cycle, Trace};
use dsv_realise::Asking;
use dsv_state_space::StateSystem;
use std::alloc::Global;

/// x' = x + u, y = x at the input 1, in words of 2.2.
const INTEGRATOR: &str = "dsv-state-space 1
format 2 2
range 1.0 1.0
states 1
a 1.0
b 1.0
c 1.0
d 0.0
end
";

/// Whether it is the trace of two inputs 1, after which the state would be 2.
fn is_by_hand(trace: &Trace) -> bool {
    trace.inputs.as_slice() == [4, 4].as_slice()
        && trace.outputs.as_slice() == [0, 4].as_slice()
        && trace.sample == 1
        && trace.value == 5
        && trace.exact == 8
}

/// Whether the integrator breaks within two samples, by that trace.
fn breaks_by_hand(alloc: Global) -> Option<bool> {
    let system = system_of(INTEGRATOR)?;
    let asking = Asking::of(alloc, &system).ok()?;
    match overflow_within(alloc, &asking, 2, 1_000).ok()? {
        Searched::Happens(trace) => Some(is_by_hand(&trace)),
        _ => Some(false),
    }
}

#[test]
fn an_integrator_breaks_at_its_second_input(rt: HostRuntime) {
    assert!(rt; breaks_by_hand(rt.alloc()) == Some(true));
}

/// Whether no input breaks the integrator in one sample.
fn has_room(alloc: Global) -> Option<bool> {
    let system = system_of(INTEGRATOR)?;
    let asking = Asking::of(alloc, &system).ok()?;
    Some(matches!(
        overflow_within(alloc, &asking, 1, 1_000),
        Ok(Searched::Never(_))
    ))
}

#[test]
fn an_integrator_has_room_for_one_input(rt: HostRuntime) {
    assert!(rt; has_room(rt.alloc()) == Some(true));
}

/// Whether two inputs break the model from states of zeros.
fn do_break(alloc: Global, model: &Model, first: i64, second: i64) -> Option<bool> {
    let one = model.sample(alloc, &[0, 0], first)?;
    let two = model.sample(alloc, &one.states, second)?;
    Some(Model::breaks(&one) || Model::breaks(&two))
}

/// Whether some two inputs from -1 to 1 break the model.
fn some_break(alloc: Global, model: &Model) -> Option<bool> {
    for first in -1..2 {
        for second in -1..2 {
            if do_break(alloc, model, first, second)? {
                return Some(true);
            }
        }
    }
    Some(false)
}

/// The controller of a model.
fn made_of(alloc: Global, model: &Model) -> Option<StateSystem> {
    let text = model.text(alloc)?;
    words_of(text.as_slice(), model.mode)?.ok()
}

/// Whether some list of two inputs breaks, where the answer says so too.
fn right_overflow(alloc: Global, model: &Model) -> Option<bool> {
    let system = made_of(alloc, model)?;
    let breaks = some_break(alloc, model)?;
    let asking = Asking::of(alloc, &system).ok()?;
    let is_right = match overflow_within(alloc, &asking, 2, 50_000).ok()? {
        Searched::Happens(trace) => breaks && trace.sample < 2,
        Searched::Never(_) => !breaks,
        Searched::Spent(_) => false,
    };
    if is_right { Some(breaks) } else { None }
}

#[test]
fn overflow_is_that_of_all_lists(rt: HostRuntime) {
    for seed in 200..208 {
        for mode in &MODES {
            assert!(rt; right_overflow(rt.alloc(), &two_states(seed, *mode)).is_some());
        }
    }
}

/// The period to 3 of a start whose outputs aren't all 0, if it has one.
fn period_of(alloc: Global, model: &Model, start: &[i64; 2]) -> Option<Option<u32>> {
    let mut states = *start;
    let mut sounds = false;
    for period in 1u32..4 {
        let sample = model.sample(alloc, &states, 0)?;
        sounds = sounds || sample.y != 0;
        states = sample.states;
        if states == *start {
            return Some(if sounds { Some(period) } else { None });
        }
    }
    Some(None)
}

/// Whether some start has a limit cycle of a period to 3.
fn some_cycle(alloc: Global, model: &Model) -> Option<bool> {
    for first in -4..4 {
        for second in -4..4 {
            if period_of(alloc, model, &[first, second])?.is_some() {
                return Some(true);
            }
        }
    }
    Some(false)
}

/// Whether the cycle is the model's: it has the least period of its start.
fn is_cycle(alloc: Global, model: &Model, cycle: &Cycle) -> Option<bool> {
    let start = cycle.start.as_slice();
    let states = [*start.first()?, *start.get(1)?];
    Some(start.len() == 2 && period_of(alloc, model, &states)? == Some(cycle.period))
}

/// Whether some start has a cycle, where the answer says so too.
fn right_cycle(alloc: Global, model: &Model) -> Option<bool> {
    let system = made_of(alloc, model)?;
    let cycles = some_cycle(alloc, model)?;
    let asking = Asking::of(alloc, &system).ok()?;
    let is_right = match cycle_within(alloc, &asking, 3, 50_000).ok()? {
        Searched::Happens(cycle) => cycles && is_cycle(alloc, model, &cycle)?,
        Searched::Never(_) => !cycles,
        Searched::Spent(_) => false,
    };
    if is_right { Some(cycles) } else { None }
}

#[test]
fn limit_cycles_are_those_of_all_starts(rt: HostRuntime) {
    for seed in 300..303 {
        for mode in &MODES {
            assert!(rt; right_cycle(rt.alloc(), &two_states(seed, *mode)).is_some());
        }
    }
}

/// Eight states in words of 48 bits: 81 products, and 81 times 48 times 48 is 186,624.
const EIGHT: &str = "dsv-state-space 1
format 24 24
range -2 2
states 8
a 0.5 0 0 0 0 0 0 0
a 0 0.5 0 0 0 0 0 0
a 0 0 0.5 0 0 0 0 0
a 0 0 0 0.5 0 0 0 0
a 0 0 0 0 0.5 0 0 0
a 0 0 0 0 0 0.5 0 0
a 0 0 0 0 0 0 0.5 0
a 0 0 0 0 0 0 0 0.5
b 8000000 0 0 0 0 0 0 0
c 1 1 1 1 1 1 1 1
d 1
end
";

/// Whether a job over eight states is refused for its size, and told it.
fn is_too_large(alloc: Global) -> Option<bool> {
    let system = system_of(EIGHT)?;
    let asking = Asking::of(alloc, &system).ok()?;
    Some(matches!(
        cycle_within(alloc, &asking, 2, 1),
        Err(BoundedRefusal::JobSize { size: 373_248 })
    ))
}

#[test]
fn a_job_over_the_greatest_size_is_refused(rt: HostRuntime) {
    assert!(rt; is_too_large(rt.alloc()) == Some(true));
}

/// Whether eight states break in sample 0 at the input's first product: 2 times 8,000,000 is no
/// word, as the greatest is less than 2^23.
fn break_at_once(alloc: Global) -> Option<bool> {
    let system = system_of(EIGHT)?;
    let asking = Asking::of(alloc, &system).ok()?;
    match overflow_within(alloc, &asking, 1, 1).ok()? {
        Searched::Happens(trace) => Some(trace.sample == 0 && trace.value == 17),
        _ => Some(false),
    }
}

#[test]
fn eight_states_are_taken(rt: HostRuntime) {
    assert!(rt; break_at_once(rt.alloc()) == Some(true));
}
