// Offers of forms, accepted and refused; the fall forms are worked out by hand.

use dsv_forms::{
    Falls, Form, FormRefusal, GREATEST_ORDER, KeptAway, OfferPart, Poly, Squares, check_falls,
    check_kept_away,
};

type Matrix = [[i128; GREATEST_ORDER]; GREATEST_ORDER];

const ZERO: Matrix = [[0; GREATEST_ORDER]; GREATEST_ORDER];

/// These entries on the diagonal, and 0 elsewhere.
fn diagonal(entries: &[i128]) -> Matrix {
    let mut rows = ZERO;
    for i in 0..GREATEST_ORDER {
        if i < entries.len() {
            rows[i][i] = entries[i];
        }
    }
    rows
}

/// The symmetric matrix with the rows a b and b c.
fn of_two(a: i128, b: i128, c: i128) -> Matrix {
    let mut rows = ZERO;
    rows[0][0] = a;
    rows[0][1] = b;
    rows[1][0] = b;
    rows[1][1] = c;
    rows
}

/// Eight weights: these, and then 0.
fn eight(entries: &[i128]) -> [i128; GREATEST_ORDER] {
    let mut weights = [0; GREATEST_ORDER];
    for i in 0..GREATEST_ORDER {
        if i < entries.len() {
            weights[i] = entries[i];
        }
    }
    weights
}

fn form(d: u32, rows: Matrix) -> Form {
    Form { d, rows }
}

/// Squares of the places themselves with these weights, and no rest.
fn squares_of_places(count: u32, weights: &[i128]) -> Squares {
    Squares {
        m: 1,
        count,
        weights: eight(weights),
        rows: diagonal(&[1; GREATEST_ORDER]),
        rest: ZERO,
    }
}

/// The rest alone.
fn squares_of_rest(rest: Matrix) -> Squares {
    Squares {
        m: 1,
        count: 0,
        weights: [0; GREATEST_ORDER],
        rows: ZERO,
        rest,
    }
}

/// A diagonal form that loses `loss` on the diagonal.
fn on_the_diagonal(d: u32, entries: &[i128], loss: i128) -> Falls {
    Falls {
        form: form(d, diagonal(entries)),
        positive: squares_of_places(d, entries),
        fall: squares_of_places(d, &[loss; GREATEST_ORDER]),
    }
}

fn is_accepted(c: &[i64], offer: &Falls, fall: Form) -> bool {
    match Poly::new(c) {
        Ok(poly) => check_falls(&poly, offer).ok() == Some(fall),
        Err(_) => false,
    }
}

fn is_refused(c: &[i64], offer: &Falls, refusal: FormRefusal) -> bool {
    match Poly::new(c) {
        Ok(poly) => check_falls(&poly, offer).err() == Some(refusal),
        Err(_) => false,
    }
}

fn is_kept_away(c: &[i64], offer: &KeptAway, fall: Form, value: i128) -> bool {
    match Poly::new(c) {
        Ok(poly) => check_kept_away(&poly, offer).ok() == Some((fall, value)),
        Err(_) => false,
    }
}

fn is_not_kept_away(c: &[i64], offer: &KeptAway, refusal: FormRefusal) -> bool {
    match Poly::new(c) {
        Ok(poly) => check_kept_away(&poly, offer).err() == Some(refusal),
        Err(_) => false,
    }
}

/// For 2 -2 1: three times the form 24 -8 -8 11 is 2 (6x - 2y)^2 + 25 y^2, and it loses 20 in both
/// places.
fn of_order_two() -> Falls {
    let mut rows = ZERO;
    rows[0][0] = 6;
    rows[0][1] = -2;
    rows[1][1] = 1;
    Falls {
        form: form(2, of_two(24, -8, 11)),
        positive: Squares {
            m: 3,
            count: 2,
            weights: eight(&[2, 25]),
            rows,
            rest: ZERO,
        },
        fall: squares_of_places(2, &[20, 20]),
    }
}

const ORDER_TWO: [i64; 3] = [2, -2, 1];

#[test]
fn forms_of_orders_0_to_2_fall(rt: HostRuntime) {
    let first = on_the_diagonal(1, &[1], 3);
    let zero_falls = is_accepted(&[5], &on_the_diagonal(0, &[], 0), form(0, ZERO));
    let one_falls = is_accepted(&[2, -1], &first, form(1, diagonal(&[3])));
    let two_falls = is_accepted(&ORDER_TWO, &of_order_two(), form(2, of_two(20, 0, 20)));
    assert!(rt; zero_falls && one_falls && two_falls);
}

// At place i of d the form loses 4 P_i - 4 P_(i+1), and at the last 4 P_d - P_1.
#[test]
fn forms_of_orders_3_and_8_fall(rt: HostRuntime) {
    let third = [3_145_728, 2_359_296, 1_572_864];
    let loss = [3_145_728; 3];
    let offer = on_the_diagonal(3, &third, 3_145_728);
    let three_falls = is_accepted(&[2, 0, 0, -1], &offer, form(3, diagonal(&loss)));
    let eighth = [32, 29, 26, 23, 20, 17, 14, 11];
    let offer = on_the_diagonal(8, &eighth, 12);
    let wanted = form(8, diagonal(&[12; 8]));
    let eight_falls = is_accepted(&[2, 0, 0, 0, 0, 0, 0, 0, -1], &offer, wanted);
    assert!(rt; three_falls && eight_falls);
}

#[test]
fn the_form_and_the_multiple_are_tested_first(rt: HostRuntime) {
    let mut first = of_order_two();
    first.form.d = 1;
    let mut skew = of_order_two();
    skew.form.rows[1][0] = 8;
    let mut zero = of_order_two();
    zero.positive.m = 0;
    zero.positive.weights[0] = 0;
    let mut rest = of_order_two();
    rest.fall.rest[0][1] = 1;
    let rows = [
        (first, OfferPart::Form),
        (skew, OfferPart::Form),
        (zero, OfferPart::Positive),
        (rest, OfferPart::Fall),
    ];
    for (offer, part) in &rows {
        assert!(rt; is_refused(&ORDER_TWO, offer, FormRefusal::Shape { part: *part }));
    }
}

#[test]
fn weights_and_rows_are_refused(rt: HostRuntime) {
    let part = OfferPart::Positive;
    let mut weight = of_order_two();
    weight.positive.weights[1] = 0;
    weight.positive.rows[0][0] = 0;
    let mut lower = of_order_two();
    lower.positive.rows[1][0] = 1;
    let mut zero = of_order_two();
    zero.fall.rows[0][0] = 0;
    let fall = OfferPart::Fall;
    let rows = [
        (weight, FormRefusal::Weight { part, i: 1 }),
        (lower, FormRefusal::Triangle { part, i: 1 }),
        (zero, FormRefusal::Triangle { part: fall, i: 0 }),
    ];
    for (offer, refusal) in &rows {
        assert!(rt; is_refused(&ORDER_TWO, offer, *refusal));
    }
}

// A number of 2^125 is not wide, twice it is.
#[test]
fn sides_are_refused(rt: HostRuntime) {
    let part = OfferPart::Positive;
    let mut offer = of_order_two();
    offer.positive.rows[0][1] = 2;
    let identity = is_refused(
        &ORDER_TWO,
        &offer,
        FormRefusal::Identity { part, i: 0, j: 1 },
    );
    let mut offer = of_order_two();
    offer.positive.rows[1][1] = 1 << 125;
    let wide = is_refused(&ORDER_TWO, &offer, FormRefusal::Wide { part, i: 1, j: 1 });
    let mut offer = on_the_diagonal(1, &[1 << 125], 3);
    let part = OfferPart::Fall;
    let wide_fall = is_refused(&[2, -1], &offer, FormRefusal::Wide { part, i: 0, j: 0 });
    offer.positive.rest[0][0] = -1;
    let part = OfferPart::Positive;
    let lesser_rest = is_refused(&[2, -1], &offer, FormRefusal::Identity { part, i: 0, j: 0 });
    assert!(rt; identity && wide && wide_fall && lesser_rest);
}

// 3 P = 2 (6x - 2y)^2 + 26 y^2 - y^2.
#[test]
fn a_rest_that_is_not_dominant_is_refused(rt: HostRuntime) {
    let mut offer = of_order_two();
    offer.positive.weights[1] = 26;
    offer.positive.rest[1][1] = -1;
    let part = OfferPart::Positive;
    assert!(rt; is_refused(&ORDER_TWO, &offer, FormRefusal::Dominance { part, i: 1 }));
}

/// For 1 -1 1: the form -2 1 1 -2 loses nothing, and is -2 at the start.
fn of_a_cycle() -> KeptAway {
    KeptAway {
        form: form(2, of_two(-2, 1, -2)),
        start: [1, 0, 0, 0, 0, 0, 0, 0],
        fall: squares_of_rest(ZERO),
    }
}

const CYCLE: [i64; 3] = [1, -1, 1];

#[test]
fn a_cycle_is_kept_away(rt: HostRuntime) {
    assert!(rt; is_kept_away(&CYCLE, &of_a_cycle(), form(2, ZERO), -2));
}

#[test]
fn starts_and_weights_of_a_cycle_are_refused(rt: HostRuntime) {
    let mut zero = of_a_cycle();
    zero.start[0] = 0;
    let mut wide = of_a_cycle();
    wide.form.rows = of_two(-2 << 64, 1 << 64, -2 << 64);
    wide.start[0] = 1 << 32;
    let start = OfferPart::Start;
    let part = OfferPart::Fall;
    let mut long = of_a_cycle();
    long.fall.count = 3;
    let mut negative = long;
    negative.fall.count = 2;
    negative.fall.weights[1] = -1;
    let rows = [
        (zero, FormRefusal::StartNotNegative { value: 0 }),
        (
            wide,
            FormRefusal::Wide {
                part: start,
                i: 0,
                j: 0,
            },
        ),
        (long, FormRefusal::Shape { part }),
        (negative, FormRefusal::Weight { part, i: 1 }),
    ];
    for (offer, refusal) in &rows {
        assert!(rt; is_not_kept_away(&CYCLE, offer, *refusal));
    }
}

const LEAST: Matrix = [[i128::MIN; GREATEST_ORDER]; GREATEST_ORDER];

/// Squares with the least numbers but for the multiple.
fn least_squares(m: i128) -> Squares {
    Squares {
        m,
        count: 2,
        weights: [i128::MIN; GREATEST_ORDER],
        rows: LEAST,
        rest: LEAST,
    }
}

#[test]
fn the_least_numbers_are_refused(rt: HostRuntime) {
    let mut offer = Falls {
        form: form(2, LEAST),
        positive: least_squares(i128::MIN),
        fall: least_squares(i128::MIN),
    };
    let part = OfferPart::Positive;
    let shape = is_refused(&ORDER_TWO, &offer, FormRefusal::Shape { part });
    offer.positive.m = 1;
    let weight = is_refused(&ORDER_TWO, &offer, FormRefusal::Weight { part, i: 0 });
    offer.positive = squares_of_places(2, &[1, 1]);
    offer.positive.rest = LEAST;
    let wide = is_refused(&ORDER_TWO, &offer, FormRefusal::Wide { part, i: 0, j: 0 });
    let offer = KeptAway {
        form: form(2, LEAST),
        start: [i64::MIN; GREATEST_ORDER],
        fall: squares_of_rest(LEAST),
    };
    let part = OfferPart::Fall;
    let away = is_not_kept_away(&CYCLE, &offer, FormRefusal::Wide { part, i: 0, j: 0 });
    assert!(rt; shape && weight && wide && away);
}
