// Forms that fall along the states: an offer worked by hand with what refuses it, and forms that
// are found, beside Jury's test of a matrix of two places.
#![tactic(auto, using(dsv_algebra::proofs::Casts::casts))]

use crate::models::Model;
use crate::systems::{MODES, system_of, words_of};
use dsv_forms::{Falls, Form, FormRefusal, OfferPart, Squares};
use dsv_state_space::{StateSystem, check_state_falls, state_offer};
use std::alloc::Global;

/// x1' = 0.5 x1 + 0.25 x2, x2' = 0.5 x2 in words of 2.2, which are 2, 1, 0 and 2 over 4.
const UPPER: &str = "dsv-state-space 1
format 2 2
range -1.0 1.0
states 2
a 0.5 0.25
a 0.0 0.5
b 0.0 0.0
c 0.0 0.0
d 0.0
end
";

/// x' = 0.5 x in words of 2.2: A is 2, where 1 is 4.
const HALF: &str = "dsv-state-space 1
format 2 2
range -1.0 1.0
states 1
a 0.5
b 0.0
c 0.0
d 0.0
end
";

/// x1' = 0.5 x1 - 0.25 x2, x2' = 0.25 x1 + 0.5 x2 in words of 2.2, which are 2, -1, 1 and 2 over 4.
const TURNED: &str = "dsv-state-space 1
format 2 2
range -1.0 1.0
states 2
a 0.5 -0.25
a 0.25 0.5
b 0.0 0.0
c 0.0 0.0
d 0.0
end
";

/// A matrix of two places, and 0 elsewhere.
fn matrix(a: i128, b: i128, c: i128, d: i128) -> [[i128; 8]; 8] {
    [
        [a, b, 0, 0, 0, 0, 0, 0],
        [c, d, 0, 0, 0, 0, 0, 0],
        [0; 8],
        [0; 8],
        [0; 8],
        [0; 8],
        [0; 8],
        [0; 8],
    ]
}

/// v1^2 + v2^2 by two squares, and what it loses: 16 (v1^2 + v2^2) less 4 v1^2 + 4 v1 v2 + 5 v2^2,
/// which is 12 v1^2 - 4 v1 v2 + 11 v2^2, by two squares and a rest.
fn offer() -> Falls {
    Falls {
        form: Form {
            d: 2,
            rows: matrix(1, 0, 0, 1),
        },
        positive: Squares {
            m: 1,
            count: 2,
            weights: [1, 1, 0, 0, 0, 0, 0, 0],
            rows: matrix(1, 0, 0, 1),
            rest: matrix(0, 0, 0, 0),
        },
        fall: Squares {
            m: 1,
            count: 2,
            weights: [1, 1, 0, 0, 0, 0, 0, 0],
            rows: matrix(1, 0, 0, 1),
            rest: matrix(11, -2, -2, 10),
        },
    }
}

#[test]
fn the_offer_by_hand_is_accepted(rt: HostRuntime) {
    assert!(rt;
        match system_of(UPPER) {
            Some(system) => match check_state_falls(&system, &offer()) {
                Ok(loss) => loss.d == 2 && loss.rows == matrix(12, -2, -2, 11),
                Err(_) => false,
            },
            None => false,
        }
    );
}

/// A controller's file, an offer for it, and why that is refused.
#[derive(Drop)]
struct Refused {
    text: &'static str,
    offer: Falls,
    why: FormRefusal,
}

/// The offer with another form.
fn with_form(form: Form) -> Falls {
    Falls { form, ..offer() }
}

/// The offer with another rest of what the form loses.
fn with_rest(rest: [[i128; 8]; 8]) -> Falls {
    let offer = offer();
    Falls {
        fall: Squares { rest, ..offer.fall },
        ..offer
    }
}

/// The offer with other weights of what the form loses.
fn with_weights(weights: [i128; 8]) -> Falls {
    let offer = offer();
    Falls {
        fall: Squares {
            weights,
            ..offer.fall
        },
        ..offer
    }
}

/// 2^123 times the form, with what that loses in a step as before: 16 times an entry is 2^127.
fn great_offer() -> Falls {
    let offer = offer();
    Falls {
        form: Form {
            d: 2,
            rows: matrix(1 << 123, 0, 0, 1 << 123),
        },
        positive: Squares {
            weights: [1 << 123, 1 << 123, 0, 0, 0, 0, 0, 0],
            ..offer.positive
        },
        fall: offer.fall,
    }
}

/// No squares.
fn no_squares() -> Squares {
    Squares {
        m: 1,
        count: 0,
        weights: [0; 8],
        rows: matrix(0, 0, 0, 0),
        rest: matrix(0, 0, 0, 0),
    }
}

/// 2^123 v^2, which 16 times is 2^127, by its square, and no squares of what it loses in a step.
fn great_square() -> Falls {
    Falls {
        form: Form {
            d: 1,
            rows: matrix(1 << 123, 0, 0, 0),
        },
        positive: Squares {
            m: 1,
            count: 1,
            weights: [1 << 123, 0, 0, 0, 0, 0, 0, 0],
            rows: matrix(1, 0, 0, 0),
            rest: matrix(0, 0, 0, 0),
        },
        fall: no_squares(),
    }
}

/// 2^122 less 8.
const GREAT: i128 = (1 << 122) - 8;

/// Seven eighths of it.
const LESS: i128 = 7 * ((1 << 119) - 1);

/// A form with 2^122 - 8 on the diagonal, times 16 not yet 2^126, and 7/8 of that beside it, by two
/// squares and a rest. On the way to what it loses at 0, 1 are 14, 16 and 12.5 times 2^122 - 8, and
/// at 1, 0 are 14, 16 and 16.875 times it: less and more than 2^126.
fn great_turned() -> Falls {
    Falls {
        form: Form {
            d: 2,
            rows: matrix(GREAT, LESS, LESS, GREAT),
        },
        positive: Squares {
            m: 1,
            count: 2,
            weights: [1, 1, 0, 0, 0, 0, 0, 0],
            rows: matrix(1, 0, 0, 1),
            rest: matrix(GREAT - 1, LESS, LESS, GREAT - 1),
        },
        fall: no_squares(),
    }
}

/// A form of three places, one that isn't symmetric, and one that is twice the offered one.
fn refused_forms() -> [Refused; 3] {
    [
        Refused {
            text: UPPER,
            offer: with_form(Form {
                d: 3,
                rows: matrix(1, 0, 0, 1),
            }),
            why: FormRefusal::Shape {
                part: OfferPart::Form,
            },
        },
        Refused {
            text: UPPER,
            offer: with_form(Form {
                d: 2,
                rows: matrix(1, 1, 0, 1),
            }),
            why: FormRefusal::Shape {
                part: OfferPart::Form,
            },
        },
        Refused {
            text: UPPER,
            offer: with_form(Form {
                d: 2,
                rows: matrix(2, 0, 0, 2),
            }),
            why: FormRefusal::Identity {
                part: OfferPart::Positive,
                i: 0,
                j: 0,
            },
        },
    ]
}

/// Rests of another sum in each place; the last is that of the transposed matrix's loss.
fn refused_rests() -> [Refused; 4] {
    [
        Refused {
            text: UPPER,
            offer: with_rest(matrix(10, -2, -2, 10)),
            why: FormRefusal::Identity {
                part: OfferPart::Fall,
                i: 0,
                j: 0,
            },
        },
        Refused {
            text: UPPER,
            offer: with_rest(matrix(11, -1, -1, 10)),
            why: FormRefusal::Identity {
                part: OfferPart::Fall,
                i: 0,
                j: 1,
            },
        },
        Refused {
            text: UPPER,
            offer: with_rest(matrix(11, -2, -2, 11)),
            why: FormRefusal::Identity {
                part: OfferPart::Fall,
                i: 1,
                j: 1,
            },
        },
        Refused {
            text: UPPER,
            offer: with_rest(matrix(10, -2, -2, 11)),
            why: FormRefusal::Identity {
                part: OfferPart::Fall,
                i: 0,
                j: 0,
            },
        },
    ]
}

/// A weight of 0 after an entry that is wrong, and numbers that are too great before squares that
/// aren't there: at the first place, and below the diagonal alone.
fn refused_numbers() -> [Refused; 4] {
    [
        Refused {
            text: UPPER,
            offer: with_weights([11, 0, 0, 0, 0, 0, 0, 0]),
            why: FormRefusal::Weight {
                part: OfferPart::Fall,
                i: 1,
            },
        },
        Refused {
            text: UPPER,
            offer: great_offer(),
            why: FormRefusal::Wide {
                part: OfferPart::Fall,
                i: 0,
                j: 0,
            },
        },
        Refused {
            text: HALF,
            offer: great_square(),
            why: FormRefusal::Wide {
                part: OfferPart::Fall,
                i: 0,
                j: 0,
            },
        },
        Refused {
            text: TURNED,
            offer: great_turned(),
            why: FormRefusal::Wide {
                part: OfferPart::Fall,
                i: 1,
                j: 0,
            },
        },
    ]
}

/// Whether an offer is refused so.
fn is_refused(row: &Refused) -> bool {
    match system_of(row.text) {
        Some(system) => match check_state_falls(&system, &row.offer) {
            Ok(_) => false,
            Err(why) => why == row.why,
        },
        None => false,
    }
}

#[test]
fn a_form_of_another_shape_is_refused(rt: HostRuntime) {
    for row in &refused_forms() {
        assert!(rt; is_refused(row));
    }
}

#[test]
fn a_rest_of_another_sum_is_refused(rt: HostRuntime) {
    for row in &refused_rests() {
        assert!(rt; is_refused(row));
    }
}

#[test]
fn the_first_test_that_refuses_is_named(rt: HostRuntime) {
    for row in &refused_numbers() {
        assert!(rt; is_refused(row));
    }
}

/// A controller of two states with these words of three bits in A, and 0 in the others.
fn of_matrix(alloc: Global, a: [[i64; 2]; 2]) -> Option<StateSystem> {
    let model = Model {
        a,
        b: [0, 0],
        c: [0, 0],
        d: 0,
        states: 2,
        mode: MODES[0],
    };
    let text = model.text(alloc)?;
    words_of(text.as_slice(), model.mode)?.ok()
}

/// Whether both roots of a matrix over 4 lie inside the unit circle, by Jury's test of order 2: its
/// determinant is less than 16 in size, and its trace times 4 less than 16 plus the determinant.
fn is_stable(a: [[i64; 2]; 2]) -> bool {
    let trace = a[0][0].saturating_add(a[1][1]);
    let determinant = a[0][0]
        .saturating_mul(a[1][1])
        .saturating_sub(a[0][1].saturating_mul(a[1][0]));
    determinant.saturating_abs() < 16
        && trace.saturating_abs().saturating_mul(4) < determinant.saturating_add(16)
}

/// First rows of matrices; the words from -4 to 3 stand in their second rows.
const FIRST_ROWS: [[i64; 2]; 6] = [[-4, 1], [-3, -3], [-1, 2], [1, 3], [2, -2], [3, -1]];

/// Whether a form is found exactly for the stable ones of the matrices with this first row.
fn are_found(alloc: Global, first: [i64; 2]) -> Option<bool> {
    let mut met = true;
    for c in -4..4 {
        for d in -4..4 {
            let a = [first, [c, d]];
            let system = of_matrix(alloc, a)?;
            met = met && state_offer(&system).is_some() == is_stable(a);
        }
    }
    Some(met)
}

#[test]
fn a_form_is_found_exactly_for_stable_states(rt: HostRuntime) {
    for first in &FIRST_ROWS {
        assert!(rt; are_found(rt.alloc(), *first) == Some(true));
    }
}
