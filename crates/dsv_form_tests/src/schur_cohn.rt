// Schur-Cohn forms worked by hand, and polynomials whose side is known.
use dsv_forms::{FormOffer, GREATEST_ORDER, Poly, check_falls, check_kept_away};
use dsv_schur_cohn::{negative_offer, schur_cohn_form, schur_cohn_offer};

/// A polynomial, a row of its form, a start, and the form's value there.
struct Worked<'a> {
    c: &'a [i64],
    place: usize,
    row: [i128; GREATEST_ORDER],
    start: [i64; GREATEST_ORDER],
    value: i128,
}

const WORKED: [Worked<'static>; 4] = [
    Worked {
        c: &[1, -2],
        place: 0,
        row: [-3, 0, 0, 0, 0, 0, 0, 0],
        start: [-2, 0, 0, 0, 0, 0, 0, 0],
        value: -12,
    },
    Worked {
        c: &[4, -10, 5, -2],
        place: 1,
        row: [-30, 87, -30, 0, 0, 0, 0, 0],
        start: [-2, -2, -2, 0, 0, 0, 0, 0],
        value: -36,
    },
    Worked {
        c: &[4, -2, 1, -3, 5],
        place: 2,
        row: [-1, 8, -14, 7, 0, 0, 0, 0],
        start: [-2, -2, -2, -2, 0, 0, 0, 0],
        value: -40,
    },
    Worked {
        c: &[1, 0, 0, 0, 0, 0, 0, 0, 2],
        place: 7,
        row: [0, 0, 0, 0, 0, 0, 0, -3],
        start: [-2, -2, -2, -2, -2, -2, -2, -2],
        value: -96,
    },
];

fn is_as_worked(worked: &Worked<'_>) -> bool {
    let Ok(poly) = Poly::new(worked.c) else {
        return false;
    };
    let form = schur_cohn_form(&poly);
    let offer = negative_offer(&poly, &worked.start);
    let row = worked.place < GREATEST_ORDER && form.rows[worked.place] == worked.row;
    let accepted = match check_kept_away(&poly, &offer) {
        Ok((_, value)) => value == worked.value,
        Err(_) => false,
    };
    row && accepted && offer.form == form
}

#[test]
fn worked_forms_are_accepted(rt: HostRuntime) {
    for worked in &WORKED {
        assert!(rt; is_as_worked(worked));
    }
}

/// What comes of an offer and its check.
#[derive(Clone, Copy, PartialEq, Eq)]
enum Side {
    Falls,
    KeptAway,
    /// No offer is made.
    Open,
    /// The list is no polynomial, or an offer is refused.
    Wrong,
}

fn side_of(c: &[i64]) -> Side {
    let Ok(poly) = Poly::new(c) else {
        return Side::Wrong;
    };
    match schur_cohn_offer(&poly) {
        Some(FormOffer::Falls(offer)) if check_falls(&poly, &offer).is_ok() => Side::Falls,
        Some(FormOffer::KeptAway(offer)) if check_kept_away(&poly, &offer).is_ok() => {
            Side::KeptAway
        }
        Some(_) => Side::Wrong,
        None => Side::Open,
    }
}

struct Sided<'a> {
    c: &'a [i64],
    side: Side,
}

// Of those with poles at the distance 0.999 from 0 one has 24 bits after the point and one 16, and
// the one with a pair of roots at 1.0005 has 24. The roots of the first two that are open are on
// the circle; the third has two there and two inside.
const SIDED: [Sided<'static>; 14] = [
    Sided {
        c: &[1, -2],
        side: Side::KeptAway,
    },
    Sided {
        c: &[2, -1],
        side: Side::Falls,
    },
    Sided {
        c: &[1, 0, 0, 2],
        side: Side::KeptAway,
    },
    Sided {
        c: &[524_288, 1_048_576, 0, -524_288],
        side: Side::KeptAway,
    },
    Sided {
        c: &[4, -2, 1, -3, 5],
        side: Side::KeptAway,
    },
    Sided {
        c: &[16_777_216, -38_999_325, 45_272_002, -33_132_391, 13_603_138],
        side: Side::KeptAway,
    },
    Sided {
        c: &[
            16_777_216,
            -69_802_369,
            140_877_263,
            -174_680_424,
            140_530_050,
            -69_466_104,
            16_660_115,
        ],
        side: Side::Falls,
    },
    Sided {
        c: &[65_536, -20_768, 38_489, -18_950, 38_599, -20_662, 65_013],
        side: Side::Falls,
    },
    Sided {
        c: &[2, 0, 0, 0, 0, 0, 0, 0, 1],
        side: Side::Falls,
    },
    Sided {
        c: &[1, 0, 0, 0, 0, 0, 0, 0, 2],
        side: Side::KeptAway,
    },
    Sided {
        c: &[1, 0, 0, 0, 1],
        side: Side::Open,
    },
    Sided {
        c: &[1, -1],
        side: Side::Open,
    },
    Sided {
        c: &[4, -2, 1, -3, 3],
        side: Side::Open,
    },
    Sided {
        c: &[5],
        side: Side::Open,
    },
];

#[test]
fn offers_are_on_their_sides(rt: HostRuntime) {
    for row in &SIDED {
        assert!(rt; side_of(row.c) == row.side);
    }
}
