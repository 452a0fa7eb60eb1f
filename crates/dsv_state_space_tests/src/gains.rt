// What is found of runs of any length: ranges of a model that sums the forms of the operations in
// exact fractions, and a list that breaks, by hand.
use crate::systems::{system_of, words_of};
use dsv_gain::{Outlook, driven, gain};
use dsv_linear::Range;
use dsv_meaning::Trace;
use dsv_names::{OverflowMode, Rounding};
use dsv_realise::Asking;
use std::alloc::Global;

/// x' = 0.95 x turned by 23 degrees, with inputs up to 0.25.
const SLOW: &str = "dsv-state-space 1
format 3 4
range -0.25 0.25
states 2
a 0.875 -0.375
a 0.375 0.875
b 0.0625 0.125
c 0.125 0.0625
d 0.0625
end
";

/// Two states that fall fast.
const PLAIN: &str = "dsv-state-space 1
format 2 4
range -0.5 0.5
states 2
a 0.5 -0.25
a 0.375 0.25
b 0.1875 0.5
c 0.25 0.125
d 0.125
end
";

/// A lag of order 1.
const LAG: &str = "dsv-state-space 1
format 3 4
range -0.25 0.5
states 1
a 0.75
b 0.5
c 1.0
d 0.0
end
";

/// The sum of all inputs, which are 0 and the word 1.
const SUM: &str = "dsv-state-space 1
format 2 4
range 0.0 0.0625
states 1
a 1.0
b 1.0
c 1.0
d 0.0
end
";

/// Three states.
const THREE: &str = "dsv-state-space 1
format 3 4
range -0.375 0.375
states 3
a 0.75 0.125 0.0
a 0.0 0.625 0.1875
a 0.0625 0.0 -0.5
b 0.25 0.125 0.5
c 0.25 0.25 -0.25
d 0.25
end
";

/// The answer that is wanted.
#[derive(Clone, Copy)]
enum Wanted {
    /// Depth, the sample of the ranges, and their ends.
    Safe(u32, u32, &'static [(i128, i128)]),
    /// Sample and value.
    Leaves(u32, usize),
    Deep,
}

/// A file, how its words are rounded, a limit, and the answer.
struct Outlooked {
    text: &'static str,
    rounding: Rounding,
    limit: u32,
    wanted: Wanted,
}

const OUTLOOKS: [Outlooked; 9] = [
    Outlooked {
        text: SLOW,
        rounding: Rounding::Floor,
        limit: 64,
        wanted: Wanted::Safe(
            11,
            63,
            &[
                (-1, 0),
                (-6, 5),
                (-7, 6),
                (-4, 2),
                (-9, 6),
                (-1, 0),
                (-39, 41),
                (-40, 42),
                (-16, 19),
                (-44, 48),
                (-1, 0),
                (-17, 17),
                (-18, 18),
                (-45, 36),
                (-51, 42),
            ],
        ),
    },
    Outlooked {
        text: SLOW,
        rounding: Rounding::Nearest,
        limit: 64,
        wanted: Wanted::Safe(
            7,
            63,
            &[
                (0, 0),
                (-6, 6),
                (-6, 6),
                (-3, 3),
                (-7, 7),
                (0, 0),
                (-39, 39),
                (-40, 40),
                (-17, 17),
                (-45, 44),
                (0, 1),
                (-17, 17),
                (-18, 18),
                (-39, 40),
                (-45, 45),
            ],
        ),
    },
    Outlooked {
        text: SLOW,
        rounding: Rounding::Floor,
        limit: 3,
        wanted: Wanted::Deep,
    },
    Outlooked {
        text: PLAIN,
        rounding: Rounding::Floor,
        limit: 64,
        wanted: Wanted::Safe(
            0,
            6,
            &[
                (-1, 1),
                (-2, 1),
                (-4, 2),
                (-2, 0),
                (-6, 2),
                (-2, 1),
                (-4, 2),
                (-7, 3),
                (-2, 3),
                (-7, 4),
                (-4, 4),
                (-3, 1),
                (-8, 5),
                (-4, 1),
                (-12, 6),
            ],
        ),
    },
    Outlooked {
        text: PLAIN,
        rounding: Rounding::Ceil,
        limit: 64,
        wanted: Wanted::Safe(
            0,
            6,
            &[
                (-1, 1),
                (-1, 2),
                (-2, 4),
                (0, 2),
                (-2, 6),
                (-1, 2),
                (-2, 4),
                (-3, 7),
                (-3, 2),
                (-4, 7),
                (-4, 4),
                (-1, 3),
                (-5, 8),
                (-1, 4),
                (-6, 12),
            ],
        ),
    },
    Outlooked {
        text: LAG,
        rounding: Rounding::Floor,
        limit: 64,
        wanted: Wanted::Safe(
            0,
            17,
            &[(0, 0), (-15, 16), (-15, 16), (-2, 4), (-12, 12), (-15, 16)],
        ),
    },
    Outlooked {
        text: SUM,
        rounding: Rounding::Floor,
        limit: 64,
        wanted: Wanted::Leaves(31, 5),
    },
    Outlooked {
        text: THREE,
        rounding: Rounding::Nearest,
        limit: 64,
        wanted: Wanted::Safe(
            0,
            19,
            &[
                (-1, 2),
                (-4, 4),
                (-6, 6),
                (-2, 2),
                (-8, 8),
                (-2, 2),
                (-9, 9),
                (-1, 2),
                (-11, 12),
                (-13, 14),
                (-1, 1),
                (-14, 15),
                (0, 0),
                (-14, 15),
                (-1, 1),
                (0, 0),
                (-1, 1),
                (-4, 5),
                (-6, 6),
                (-2, 2),
                (-7, 7),
                (-3, 3),
                (-1, 1),
                (-4, 4),
                (0, 0),
                (-4, 4),
                (-5, 4),
                (-8, 9),
            ],
        ),
    },
    Outlooked {
        text: THREE,
        rounding: Rounding::Nearest,
        limit: 3,
        wanted: Wanted::Safe(
            0,
            2,
            &[
                (-1, 2),
                (-4, 4),
                (-5, 6),
                (-2, 2),
                (-8, 9),
                (-2, 2),
                (-9, 10),
                (-1, 2),
                (-11, 12),
                (-13, 14),
                (-1, 1),
                (-14, 16),
                (0, 0),
                (-14, 16),
                (-1, 1),
                (0, 0),
                (-1, 1),
                (-4, 5),
                (-6, 6),
                (-2, 2),
                (-7, 8),
                (-3, 3),
                (-1, 1),
                (-4, 5),
                (0, 0),
                (-4, 5),
                (-5, 5),
                (-9, 9),
            ],
        ),
    },
];

/// Whether these are the ends of the ranges.
fn are_ends(ranges: &[Range], ends: &[(i128, i128)]) -> bool {
    let mut met = ranges.len() == ends.len();
    for (range, end) in ranges.iter().zip(ends) {
        met = met && range.low.get() == end.0 && range.high.get() == end.1;
    }
    met
}

/// Whether it is the answer that is wanted.
fn is_wanted(outlook: &Outlook, wanted: &Wanted) -> bool {
    match (outlook, wanted) {
        (Outlook::Safe(gain), Wanted::Safe(depth, settled, ends)) => {
            gain.depth == *depth
                && gain.settled == *settled
                && are_ends(gain.ranges.as_slice(), ends)
        }
        (Outlook::Leaves { sample, value }, Wanted::Leaves(first, second)) => {
            *sample == *first && *value == *second
        }
        (Outlook::Deep, Wanted::Deep) => true,
        _ => false,
    }
}

/// Whether a row's answer is the one that is wanted.
fn is_right(alloc: Global, row: &Outlooked) -> Option<bool> {
    let mode = (row.rounding, OverflowMode::Wrap);
    let system = words_of(row.text.as_bytes(), mode)?.ok()?;
    let asking = Asking::of(alloc, &system).ok()?;
    let outlook = gain(alloc, &asking, row.limit).ok()?;
    Some(is_wanted(&outlook, &row.wanted))
}

#[test]
fn ranges_are_those_of_the_model(rt: HostRuntime) {
    for row in &OUTLOOKS {
        assert!(rt; is_right(rt.alloc(), row) == Some(true));
    }
}

/// Whether it is the list of 32 ones, after which the state would be 32 and wraps.
fn is_ramp(trace: &Trace) -> bool {
    trace.inputs.len() == 32
        && trace.inputs.as_slice().iter().all(|x| *x == 1)
        && trace.sample == 31
        && trace.value == 5
        && trace.exact == 32
}

/// What drives the states of a file out of their words, from this sample on.
fn driven_states(alloc: Global, text: &str, sample: u32) -> Option<Option<Trace>> {
    let system = system_of(text)?;
    let asking = Asking::of(alloc, &system).ok()?;
    driven(alloc, &asking, sample).ok()
}

#[test]
fn a_sum_is_driven_out_of_its_words(rt: HostRuntime) {
    assert!(rt;
        match driven_states(rt.alloc(), SUM, 17) {
            Some(Some(trace)) => is_ramp(&trace),
            _ => false,
        }
    );
}

#[test]
fn none_is_found_where_none_breaks(rt: HostRuntime) {
    assert!(rt; matches!(driven_states(rt.alloc(), PLAIN, 0), Some(None)));
}
