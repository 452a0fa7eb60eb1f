// Texts that offer an ellipsoid, read and written.
use crate::refusals::{Refused, text_of};
use dsv_base::MemSink;
use dsv_certfile::{Ellipsoid, TextFault, TextRefusal, read_ellipsoid, write_ellipsoid};
use dsv_forms::{Form, Squares};
use std::alloc::Global;

/// The lines up to the version.
const VERSION: &str = "dsv-ellipsoid 1\n";

/// The lines up to one state.
const STATES: &str = "dsv-ellipsoid 1\nstates 1\n";

/// The lines up to a form of one place.
const FORM: &str = "dsv-ellipsoid 1\nstates 1\nform 1\n";

/// The lines up to the squares of a step form of two places.
const STEP: &str = "dsv-ellipsoid 1\n\
    states 1\n\
    form 1\n\
    level 1 lambda 2 mu 3\n\
    step 7 0\n\
    rest 0 0\n\
    rest 0 0\n";

/// The lines up to the last one.
const LINES: &str = "dsv-ellipsoid 1\n\
    states 2\n\
    form 64 -40\n\
    form -40 49\n\
    level 28879876 lambda 3584 mu 512\n\
    step 7 2\n\
    square 64 -40 49 7\n\
    square 98304 1 0 0\n\
    rest 0 0 0\n\
    rest 0 0 0\n\
    rest 0 0 0\n\
    first 1536 49 959 1 1\n\
    square 1 40 -49\n\
    rest 0 0\n\
    rest 0 0\n";

/// The ellipsoid of those lines.
const OFFER: Ellipsoid = Ellipsoid {
    form: Form {
        d: 2,
        rows: [
            [64, -40, 0, 0, 0, 0, 0, 0],
            [-40, 49, 0, 0, 0, 0, 0, 0],
            [0; 8],
            [0; 8],
            [0; 8],
            [0; 8],
            [0; 8],
            [0; 8],
        ],
    },
    level: 28879876,
    lambda: 3584,
    mu: 512,
    step: Squares {
        m: 7,
        count: 2,
        weights: [64, 98304, 0, 0, 0, 0, 0, 0],
        rows: [
            [-40, 49, 7, 0, 0, 0, 0, 0],
            [1, 0, 0, 0, 0, 0, 0, 0],
            [0; 8],
            [0; 8],
            [0; 8],
            [0; 8],
            [0; 8],
            [0; 8],
        ],
        rest: [[0; 8]; 8],
    },
    kappa: 1536,
    nu: 49,
    bound: 959,
    first: Squares {
        m: 1,
        count: 1,
        weights: [1, 0, 0, 0, 0, 0, 0, 0],
        rows: [
            [40, -49, 0, 0, 0, 0, 0, 0],
            [0; 8],
            [0; 8],
            [0; 8],
            [0; 8],
            [0; 8],
            [0; 8],
            [0; 8],
        ],
        rest: [[0; 8]; 8],
    },
};

const HEADS: &[Refused] = &[
    Refused("", "", 1, TextFault::End),
    Refused("", "dsv-ellipsoid 1", 1, TextFault::End),
    Refused("", "dsv-ellipsoid 2\n", 1, TextFault::Version),
    Refused("", "dsv-ellipsoid 1 \n", 1, TextFault::Version),
    Refused("", "dsv-certificate 1\n", 1, TextFault::Version),
    Refused(VERSION, "", 2, TextFault::End),
    Refused(VERSION, "states 0\n", 2, TextFault::Number),
    Refused(VERSION, "states 8\n", 2, TextFault::Number),
    Refused(VERSION, "state x\n", 2, TextFault::Number),
    Refused(VERSION, "state 1\n", 2, TextFault::Line),
    Refused(VERSION, "states\n", 2, TextFault::Line),
    Refused(VERSION, "states 1 x\n", 2, TextFault::Line),
    Refused(STATES, "form 01\n", 3, TextFault::Number),
    Refused(
        STATES,
        "form 170141183460469231731687303715884105728\n",
        3,
        TextFault::Number,
    ),
];

const LEVELS: &[Refused] = &[
    Refused(FORM, "level 1 lambda 2\n", 4, TextFault::Line),
    Refused(FORM, "levels 1 lambda 2 mu 3\n", 4, TextFault::Line),
    Refused(FORM, "level 1 lambada 2 mu 3\n", 4, TextFault::Line),
    Refused(FORM, "level 1 lambda 2 nu 3\n", 4, TextFault::Line),
    Refused(FORM, "level 1 lambada 2 mu x\n", 4, TextFault::Number),
    Refused(FORM, "level 1 lambda 2 mu 3 x\n", 4, TextFault::Line),
    Refused(
        FORM,
        "level 1 lambda 2 mu 3\nstep 7 9\n",
        5,
        TextFault::Number,
    ),
];

const ENDS: &[Refused] = &[
    Refused(STEP, "first 1 2 3 4 9\n", 8, TextFault::Number),
    Refused(
        STEP,
        "first 1 2 4611686018427387904 4 0\n",
        8,
        TextFault::Number,
    ),
    Refused(
        STEP,
        "first 1 2 -4611686018427387904 4 0\n",
        8,
        TextFault::Number,
    ),
    Refused(STEP, "first 1 2 3 4\n", 8, TextFault::Line),
    Refused(LINES, "", 16, TextFault::End),
    Refused(LINES, "end", 16, TextFault::End),
    Refused(LINES, "ends\n", 16, TextFault::Line),
    Refused(LINES, "end\n\n", 17, TextFault::End),
    Refused(LINES, "end\nx", 17, TextFault::End),
];

/// Ends of a text after the squares of the step form, and the bound that they say.
const BOUNDS: &[(&str, i64)] = &[
    (
        "first 1 2 4611686018427387903 4 0\nrest 0\nend\n",
        4611686018427387903,
    ),
    (
        "first 1 2 -4611686018427387903 4 0\nrest 0\nend\n",
        -4611686018427387903,
    ),
];

/// What the two parts of a text offer together.
fn offer_in(alloc: Global, lines: &str, rest: &str) -> Option<Ellipsoid> {
    let text = text_of(alloc, lines, rest).ok()?;
    read_ellipsoid(text.as_bytes()).ok()
}

fn is_refused(alloc: Global, row: &Refused) -> bool {
    let Ok(text) = text_of(alloc, row.0, row.1) else {
        return false;
    };
    let refusal = TextRefusal {
        line: row.2,
        fault: row.3,
    };
    read_ellipsoid(text.as_bytes()) == Err(refusal)
}

fn are_refused(alloc: Global, rows: &[Refused]) -> bool {
    rows.iter().all(|row| is_refused(alloc, row))
}

fn has_bound(alloc: Global, rest: &str, bound: i64) -> bool {
    match offer_in(alloc, STEP, rest) {
        Some(offer) => offer.bound == bound,
        None => false,
    }
}

/// Whether the ellipsoid's lines are written, and then the last one.
fn is_written(alloc: Global) -> Option<bool> {
    let mut sink = MemSink::new(alloc, 1024).ok()?;
    write_ellipsoid(&mut sink, &OFFER).ok()?;
    let text = text_of(alloc, LINES, "end\n").ok()?;
    Some(sink.bytes() == text.as_bytes())
}

#[test]
fn an_ellipsoid_is_read(rt: HostRuntime) {
    assert!(rt; offer_in(rt.alloc(), LINES, "end\n") == Some(OFFER));
}

#[test]
fn an_ellipsoid_is_written(rt: HostRuntime) {
    assert!(rt; is_written(rt.alloc()) == Some(true));
}

#[test]
fn bounds_below_2_62_are_read(rt: HostRuntime) {
    let alloc = rt.alloc();
    assert!(rt;
        BOUNDS
            .iter()
            .all(|(rest, bound)| has_bound(alloc, rest, *bound))
    );
}

#[test]
fn heads_are_refused(rt: HostRuntime) {
    assert!(rt; are_refused(rt.alloc(), HEADS));
}

#[test]
fn levels_are_refused(rt: HostRuntime) {
    assert!(rt; are_refused(rt.alloc(), LEVELS));
}

#[test]
fn first_forms_and_ends_are_refused(rt: HostRuntime) {
    assert!(rt; are_refused(rt.alloc(), ENDS));
}
