// Closed forms worked by hand, and polynomials that have none.
use dsv_closed_forms::closed_form;
use dsv_forms::{FormOffer, GREATEST_ORDER, KeptAway, Poly, Squares};

type Matrix = [[i128; GREATEST_ORDER]; GREATEST_ORDER];

/// The entries of the first three places.
type Entries = [[i128; 3]; 3];

fn matrix(entries: &Entries) -> Matrix {
    let mut rows = [[0; GREATEST_ORDER]; GREATEST_ORDER];
    for i in 0..3 {
        for j in 0..3 {
            rows[i][j] = entries[i][j];
        }
    }
    rows
}

fn offer_for(c: &[i64]) -> Option<FormOffer> {
    let poly = Poly::new(c).ok()?;
    closed_form(&poly)
}

/// A polynomial of order 2 whose form falls: the form, the squares that show it to be positive, and
/// the weight of both squares that it loses in a step.
struct Stable {
    c: [i64; 3],
    form: Entries,
    m: i128,
    weights: [i128; 2],
    squares: Entries,
    fall: i128,
}

const STABLE: [Stable; 2] = [
    Stable {
        c: [2, -2, 1],
        form: [[24, -8, 0], [-8, 11, 0], [0, 0, 0]],
        m: 3,
        weights: [2, 25],
        squares: [[6, -2, 0], [0, 1, 0], [0, 0, 0]],
        fall: 20,
    },
    Stable {
        c: [8, -4, 1],
        form: [[1_152, -64, 0], [-64, 473, 0], [0, 0, 0]],
        m: 9,
        weights: [2, 4_225],
        squares: [[72, -4, 0], [0, 1, 0], [0, 0, 0]],
        fall: 29_120,
    },
];

fn are_squares(squares: &Squares, m: i128, weights: &[i128; 2], rows: &Entries) -> bool {
    squares.m == m
        && squares.count == 2
        && squares.weights[0] == weights[0]
        && squares.weights[1] == weights[1]
        && squares.rows == matrix(rows)
        && squares.rest == matrix(&[[0; 3]; 3])
}

fn falls(row: &Stable) -> bool {
    let Some(FormOffer::Falls(offer)) = offer_for(&row.c) else {
        return false;
    };
    let unit = [[1, 0, 0], [0, 1, 0], [0, 0, 0]];
    offer.form.d == 2
        && offer.form.rows == matrix(&row.form)
        && are_squares(&offer.positive, row.m, &row.weights, &row.squares)
        && are_squares(&offer.fall, 1, &[row.fall, row.fall], &unit)
}

#[test]
fn stable_polynomials_fall(rt: HostRuntime) {
    for row in &STABLE {
        assert!(rt; falls(row));
    }
}

/// A form that is kept away, its start, and what it loses on the diagonal of the first two places
/// in a step.
struct Away {
    form: Entries,
    start: [i64; 3],
    rest: i128,
}

struct SecondOrder {
    c: [i64; 3],
    away: Away,
}

struct ThirdOrder {
    c: [i64; 4],
    away: Away,
}

// The first four differ by the start: 1 0, then -c2 c0, c2 c0 and -c1 c0. The next one has equal
// ends, and the last two the roots 1 and -1.
const SECOND: [SecondOrder; 7] = [
    SecondOrder {
        c: [1, 0, 2],
        away: Away {
            form: [[-6, 0, 0], [0, -15, 0], [0, 0, 0]],
            start: [1, 0, 0],
            rest: 9,
        },
    },
    SecondOrder {
        c: [1, 4, 2],
        away: Away {
            form: [[6, 16, 0], [16, 31, 0], [0, 0, 0]],
            start: [-2, 1, 0],
            rest: 7,
        },
    },
    SecondOrder {
        c: [1, -4, 2],
        away: Away {
            form: [[6, -16, 0], [-16, 31, 0], [0, 0, 0]],
            start: [2, 1, 0],
            rest: 7,
        },
    },
    SecondOrder {
        c: [1, -3, -1],
        away: Away {
            form: [[0, -6, 0], [-6, 18, 0], [0, 0, 0]],
            start: [3, 1, 0],
            rest: 18,
        },
    },
    SecondOrder {
        c: [1, -1, 1],
        away: Away {
            form: [[-2, 1, 0], [1, -2, 0], [0, 0, 0]],
            start: [1, 0, 0],
            rest: 0,
        },
    },
    SecondOrder {
        c: [1, -3, 2],
        away: Away {
            form: [[-1, 2, 0], [2, -4, 0], [0, 0, 0]],
            start: [1, 0, 0],
            rest: 0,
        },
    },
    SecondOrder {
        c: [1, 3, 2],
        away: Away {
            form: [[-1, -2, 0], [-2, -4, 0], [0, 0, 0]],
            start: [1, 0, 0],
            rest: 0,
        },
    },
];

// The first one has the root 1, and the second one the root -1 alone.
const THIRD: [ThirdOrder; 2] = [
    ThirdOrder {
        c: [1, -1, 0, 0],
        away: Away {
            form: [[-1, 0, 0], [0, 0, 0], [0, 0, 0]],
            start: [1, 0, 0],
            rest: 0,
        },
    },
    ThirdOrder {
        c: [1, 1, 1, 1],
        away: Away {
            form: [[-1, 0, -1], [0, 0, 0], [-1, 0, -1]],
            start: [1, 0, 0],
            rest: 0,
        },
    },
];

fn shows(offer: &KeptAway, away: &Away) -> bool {
    let rest = [[away.rest, 0, 0], [0, away.rest, 0], [0, 0, 0]];
    offer.form.rows == matrix(&away.form)
        && offer.start[0] == away.start[0]
        && offer.start[1] == away.start[1]
        && offer.start[2] == away.start[2]
        && offer.fall.m == 1
        && offer.fall.count == 0
        && offer.fall.rest == matrix(&rest)
}

fn is_kept_away(c: &[i64], away: &Away) -> bool {
    match offer_for(c) {
        Some(FormOffer::KeptAway(offer)) => shows(&offer, away),
        _ => false,
    }
}

#[test]
fn polynomials_of_order_2_are_kept_away(rt: HostRuntime) {
    for row in &SECOND {
        assert!(rt; is_kept_away(&row.c, &row.away));
    }
}

#[test]
fn polynomials_of_order_3_are_kept_away(rt: HostRuntime) {
    for row in &THIRD {
        assert!(rt; is_kept_away(&row.c, &row.away));
    }
}

// Twice a size just over the limit, and no root 1 or -1.
const SECOND_WITHOUT: [i64; 3] = [1, 0, (1 << 23) + 1];

const THIRD_WITHOUT: [[i64; 4]; 2] = [[1, -1, (1 << 28) + 1, -(1 << 28) - 1], [1, 0, 0, 2]];

#[test]
fn a_limit_of_order_2_is_kept(rt: HostRuntime) {
    let at_limit = [1, 0, 1 << 23];
    assert!(rt; offer_for(&SECOND_WITHOUT).is_none() && offer_for(&at_limit).is_some());
}

#[test]
fn polynomials_of_order_3_have_no_form(rt: HostRuntime) {
    for c in &THIRD_WITHOUT {
        assert!(rt; offer_for(c).is_none());
    }
}

#[test]
fn a_limit_of_order_3_is_kept(rt: HostRuntime) {
    let at_limit = [1, -1, 1 << 28, -(1 << 28)];
    assert!(rt; offer_for(&at_limit).is_some());
}
