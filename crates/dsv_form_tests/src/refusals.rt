// Offers that are refused.
use dsv_forms::{
    Form, FormRefusal, GREATEST_ORDER, KeptAway, OfferPart, Poly, Squares, check_kept_away,
};

type Matrix = [[i128; GREATEST_ORDER]; GREATEST_ORDER];

fn matrix(entry: i128) -> Matrix {
    let mut rows = [[0; GREATEST_ORDER]; GREATEST_ORDER];
    rows[0][0] = entry;
    rows
}

fn form(entry: i128) -> Form {
    Form {
        d: 1,
        rows: matrix(entry),
    }
}

/// An offer for a polynomial: a form of one place with a start, and a rest without squares; and why
/// it is refused.
struct Offered {
    c: [i64; 2],
    entry: i128,
    start: i64,
    rest: i128,
    refusal: FormRefusal,
}

// The form 1 loses -3 in a step of 1 -2, and 3 in one of 2 -1; the form -2^100 loses nothing in one
// of 1 -1.
const OFFERED: [Offered; 5] = [
    Offered {
        c: [1, -2],
        entry: -1,
        start: 0,
        rest: 3,
        refusal: FormRefusal::StartNotNegative { value: 0 },
    },
    Offered {
        c: [1, -2],
        entry: 1,
        start: 1,
        rest: 3,
        refusal: FormRefusal::Identity {
            part: OfferPart::Fall,
            i: 0,
            j: 0,
        },
    },
    Offered {
        c: [1, -2],
        entry: 1,
        start: 1,
        rest: -3,
        refusal: FormRefusal::Dominance {
            part: OfferPart::Fall,
            i: 0,
        },
    },
    Offered {
        c: [2, -1],
        entry: 1,
        start: 1,
        rest: 3,
        refusal: FormRefusal::StartNotNegative { value: 1 },
    },
    Offered {
        c: [1, -1],
        entry: -1 << 100,
        start: 1 << 20,
        rest: 0,
        refusal: FormRefusal::Wide {
            part: OfferPart::Start,
            i: 0,
            j: 0,
        },
    },
];

fn offer(row: &Offered) -> KeptAway {
    let mut start = [0; GREATEST_ORDER];
    start[0] = row.start;
    let fall = Squares {
        m: 1,
        count: 0,
        weights: [0; GREATEST_ORDER],
        rows: matrix(0),
        rest: matrix(row.rest),
    };
    KeptAway {
        form: form(row.entry),
        start,
        fall,
    }
}

fn is_refused(row: &Offered) -> bool {
    match Poly::new(&row.c) {
        Ok(poly) => check_kept_away(&poly, &offer(row)).err() == Some(row.refusal),
        Err(_) => false,
    }
}

#[test]
fn offers_are_refused_by_their_first_fault(rt: HostRuntime) {
    for row in &OFFERED {
        assert!(rt; is_refused(row));
    }
}
