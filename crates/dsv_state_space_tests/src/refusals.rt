// The words of files at the ends of a format, and why files have none.
use crate::systems::{MODES, words_of};
use dsv_names::{OverflowMode, Rounding};
use dsv_state_space::{Place, StateQuantRefusal, StateSystem};

/// A file of two states in words of 2.2, which are -8 to 7, and why it has none.
struct Refused {
    text: &'static str,
    why: StateQuantRefusal,
}

/// Files that are refused; 170141183460469231e21 is less than 2^127, and four times it is not.
const REFUSED: [Refused; 17] = [
    Refused {
        text: "dsv-state-space 1\nformat 2 2\nrange 1.0 1.0\nstates 1\n\
            a 2.0\nb 1.0\nc 1.0\nd 0.0\nend\n",
        why: StateQuantRefusal::CoefficientRange {
            place: Place::A,
            row: 0,
            column: 0,
            wanted: 8,
        },
    },
    Refused {
        text: "dsv-state-space 1\nformat 2 2\nrange 0 0\nstates 2\n\
            a 1.75 -2.0\na 0 -2.25\nb 0 0\nc 0 0\nd 0\nend\n",
        why: StateQuantRefusal::CoefficientRange {
            place: Place::A,
            row: 1,
            column: 1,
            wanted: -9,
        },
    },
    Refused {
        text: "dsv-state-space 1\nformat 2 2\nrange 0 0\nstates 2\n\
            a 0 0\na 2 9\nb 9 9\nc 9 9\nd 9\nend\n",
        why: StateQuantRefusal::CoefficientRange {
            place: Place::A,
            row: 1,
            column: 0,
            wanted: 8,
        },
    },
    Refused {
        text: "dsv-state-space 1\nformat 2 2\nrange 0 0\nstates 2\n\
            a 0 0\na 0 0\nb 1 2.25\nc 9 9\nd 9\nend\n",
        why: StateQuantRefusal::CoefficientRange {
            place: Place::B,
            row: 1,
            column: 0,
            wanted: 9,
        },
    },
    Refused {
        text: "dsv-state-space 1\nformat 2 2\nrange 0 0\nstates 2\n\
            a 0 0\na 0 0\nb 0 0\nc 1 -3\nd 9\nend\n",
        why: StateQuantRefusal::CoefficientRange {
            place: Place::C,
            row: 0,
            column: 1,
            wanted: -12,
        },
    },
    Refused {
        text: "dsv-state-space 1\nformat 2 2\nrange 0 0\nstates 2\n\
            a 0 0\na 0 0\nb 0 0\nc 0 0\nd 2\nend\n",
        why: StateQuantRefusal::CoefficientRange {
            place: Place::D,
            row: 0,
            column: 0,
            wanted: 8,
        },
    },
    Refused {
        text: "dsv-state-space 1\nformat 2 2\nrange 0 0\nstates 2\n\
            a 0 170141183460469231e21\na 9 0\nb 0 0\nc 0 0\nd 0\nend\n",
        why: StateQuantRefusal::FractionWide {
            place: Place::A,
            row: 0,
            column: 1,
        },
    },
    Refused {
        text: "dsv-state-space 1\nformat 2 2\nrange 0 0\nstates 2\n\
            a 9 170141183460469231e21\na 0 0\nb 0 0\nc 0 0\nd 0\nend\n",
        why: StateQuantRefusal::CoefficientRange {
            place: Place::A,
            row: 0,
            column: 0,
            wanted: 36,
        },
    },
    Refused {
        text: "dsv-state-space 1\nformat 2 2\nrange 0 0\nstates 2\n\
            a 0 0\na 0 0\nb 0 170141183460469231e21\nc 9 0\nd 0\nend\n",
        why: StateQuantRefusal::FractionWide {
            place: Place::B,
            row: 1,
            column: 0,
        },
    },
    Refused {
        text: "dsv-state-space 1\nformat 2 2\nrange 0 0\nstates 2\n\
            a 0 0\na 0 0\nb 0 0\nc 0 170141183460469231e21\nd 9\nend\n",
        why: StateQuantRefusal::FractionWide {
            place: Place::C,
            row: 0,
            column: 1,
        },
    },
    Refused {
        text: "dsv-state-space 1\nformat 2 2\nrange 170141183460469231e21 0\nstates 1\n\
            a 0\nb 0\nc 0\nd 170141183460469231e21\nend\n",
        why: StateQuantRefusal::FractionWide {
            place: Place::D,
            row: 0,
            column: 0,
        },
    },
    Refused {
        text: "dsv-state-space 1\nformat 2 2\nrange 170141183460469231e21 170141183460469231e21\nstates 1\n\
            a 0\nb 0\nc 0\nd 0\nend\n",
        why: StateQuantRefusal::FractionWide {
            place: Place::Min,
            row: 0,
            column: 0,
        },
    },
    Refused {
        text: "dsv-state-space 1\nformat 2 2\nrange 1.0 170141183460469231e21\nstates 1\n\
            a 0\nb 0\nc 0\nd 0\nend\n",
        why: StateQuantRefusal::FractionWide {
            place: Place::Max,
            row: 0,
            column: 0,
        },
    },
    Refused {
        text: "dsv-state-space 1\nformat 2 2\nrange 0.1 0.2\nstates 1\n\
            a 0\nb 0\nc 0\nd 0\nend\n",
        why: StateQuantRefusal::RangeEmpty { lo: 1, hi: 0 },
    },
    Refused {
        text: "dsv-state-space 1\nformat 2 2\nrange 2.0 3.0\nstates 1\n\
            a 0\nb 0\nc 0\nd 0\nend\n",
        why: StateQuantRefusal::RangeEmpty { lo: 8, hi: 7 },
    },
    Refused {
        text: "dsv-state-space 1\nformat 2 2\nrange -5 -2.1\nstates 1\n\
            a 0\nb 0\nc 0\nd 0\nend\n",
        why: StateQuantRefusal::RangeEmpty { lo: -8, hi: -9 },
    },
    Refused {
        text: "dsv-state-space 1\nformat 2 2\nrange 1 -1\nstates 1\n\
            a 0\nb 0\nc 0\nd 0\nend\n",
        why: StateQuantRefusal::RangeEmpty { lo: 4, hi: -4 },
    },
];

/// Whether a file is refused so.
fn is_refused(row: &Refused) -> bool {
    match words_of(row.text.as_bytes(), MODES[0]) {
        Some(Err(why)) => why == row.why,
        _ => false,
    }
}

#[test]
fn the_first_number_without_a_word_is_named(rt: HostRuntime) {
    for row in &REFUSED {
        assert!(rt; is_refused(row));
    }
}

/// A file with numbers between words, and the words of a, b, c, d and of the range by rounding:
/// 0.3 is 1.2, 0.375 is 1.5, -0.375 is -1.5 and -0.3 is -1.2 in units of a word.
const BETWEEN: &str = "dsv-state-space 1
format 2 2
range -0.3 0.3
states 1
a 0.3
b 0.375
c -0.375
d -0.3
end
";

const BETWEEN_WORDS: [(Rounding, [i64; 4]); 3] = [
    (Rounding::Floor, [1, 1, -2, -2]),
    (Rounding::Ceil, [2, 2, -1, -1]),
    (Rounding::Nearest, [1, 2, -1, -1]),
];

/// The words of a controller of one state.
fn four_words(system: &StateSystem) -> Option<[i64; 4]> {
    Some([
        *system.a().first()?.as_slice().first()?,
        *system.b().first()?,
        *system.c().first()?,
        system.d(),
    ])
}

/// Whether these are the words of the numbers between words; its inputs are -1 to 1 in each.
fn are_rounded(rounding: Rounding, wanted: &[i64; 4]) -> Option<bool> {
    let system = words_of(BETWEEN.as_bytes(), (rounding, OverflowMode::Wrap))?.ok()?;
    Some(four_words(&system)? == *wanted && system.xlo() == -1 && system.xhi() == 1)
}

#[test]
fn numbers_are_rounded_and_ranges_shrink(rt: HostRuntime) {
    for (rounding, wanted) in &BETWEEN_WORDS {
        assert!(rt; are_rounded(*rounding, wanted) == Some(true));
    }
}

/// A file at both ends of the words, whose range is wider than they are.
const ENDS: &str = "dsv-state-space 1
format 2 2
range -9.0 9.0
states 1
a 1.75
b -2.0
c 1.75
d -2.0
end
";

/// Whether its words are at the ends.
fn has_ends() -> Option<bool> {
    let system = words_of(ENDS.as_bytes(), MODES[0])?.ok()?;
    Some(four_words(&system)? == [7, -8, 7, -8] && system.xlo() == -8 && system.xhi() == 7)
}

#[test]
fn both_ends_are_words_and_ranges_are_cut(rt: HostRuntime) {
    assert!(rt; has_ends() == Some(true));
}
