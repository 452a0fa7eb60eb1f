// An offer that was worked out by hand, and what refuses it when one number of it is changed.
use crate::controllers::{Design, WORKED};
use dsv_ellipsoid::{Ellipsoid, EllipsoidRefusal, check_ellipsoid};
use dsv_forms::{Form, Squares};
use dsv_names::Realisation;
use std::alloc::Global;
use std::test::Fail;

/// A row of eight places.
type Row = [i128; 8];

const ZERO: Row = [0; 8];

/// Squares with these rows, two at most, and no rest.
fn squares_of(m: i128, count: u32, weights: Row, first: Row, second: Row) -> Squares {
    Squares {
        m,
        count,
        weights,
        rows: [first, second, ZERO, ZERO, ZERO, ZERO, ZERO, ZERO],
        rest: [ZERO; 8],
    }
}

/// V = 64 v_1^2 - 80 v_1 v_2 + 49 v_2^2 with its squares. Seven times the step form is
/// 64 (-40 v_1 + 49 v_2 + 7 g)^2 + 98304 v_1^2, and the first form is (40 v_1 - 49 v_2)^2.
fn offer() -> Ellipsoid {
    let form = Form {
        d: 2,
        rows: [
            [64, -40, 0, 0, 0, 0, 0, 0],
            [-40, 49, 0, 0, 0, 0, 0, 0],
            ZERO,
            ZERO,
            ZERO,
            ZERO,
            ZERO,
            ZERO,
        ],
    };
    Ellipsoid {
        form,
        level: 28879876,
        lambda: 3584,
        mu: 512,
        step: squares_of(
            7,
            2,
            [64, 98304, 0, 0, 0, 0, 0, 0],
            [-40, 49, 7, 0, 0, 0, 0, 0],
            [1, 0, 0, 0, 0, 0, 0, 0],
        ),
        kappa: 1536,
        nu: 49,
        bound: 959,
        first: squares_of(
            1,
            1,
            [1, 0, 0, 0, 0, 0, 0, 0],
            [40, -49, 0, 0, 0, 0, 0, 0],
            ZERO,
        ),
    }
}

/// What the check says of an offer for a controller.
fn refusal_of(
    alloc: Global,
    design: Design,
    offer: &Ellipsoid,
) -> Option<Option<EllipsoidRefusal>> {
    let quantised = design.quantised_in(alloc, Realisation::Dfi)?;
    Some(check_ellipsoid(&quantised, offer).err())
}

#[test]
fn the_offer_by_hand_is_accepted(rt: HostRuntime) -> Result<(), Fail> {
    let alloc = rt.alloc();
    assert!(rt; refusal_of(alloc, WORKED, &offer()) == Some(None));
    Ok(())
}

#[test]
fn a_lesser_bound_is_refused(rt: HostRuntime) -> Result<(), Fail> {
    let alloc = rt.alloc();
    let lesser = Ellipsoid {
        bound: 958,
        ..offer()
    };
    assert!(rt; refusal_of(alloc, WORKED, &lesser) == Some(Some(EllipsoidRefusal::Bound)));
    Ok(())
}

#[test]
fn a_greater_mu_is_refused(rt: HostRuntime) -> Result<(), Fail> {
    let alloc = rt.alloc();
    let greater = Ellipsoid { mu: 513, ..offer() };
    assert!(rt; refusal_of(alloc, WORKED, &greater) == Some(Some(EllipsoidRefusal::Level)));
    Ok(())
}

/// A controller with the words 4, -1, 1 and -1.
const THIRD: Design = Design {
    text: "digital_system d = { .b = {0.25}, .b_size = 1,
 .a = {1.0, -0.25, 0.25, -0.25}, .a_size = 4 };
implementation r = { .int_bits = 2, .frac_bits = 2, .max = 1.0, .min = -1.0 };",
    int_bits: 2,
    frac_bits: 2,
};

/// 2^121, of which 2^126 is 32 times.
const GREAT: i128 = 1 << 121;

/// V = 2^121 (v_1^2 + 2 v_1 v_2 + 2 v_1 v_3) with lambda 30. On the way to the entry of the step
/// form for v_1 and v_2 are 30, 31, 27 and 31 times 2^121, and to that for v_2 and v_1 30, 31, 35
/// and 31 times it. All other sums are less than 32 times.
fn great_offer() -> Ellipsoid {
    let form = Form {
        d: 3,
        rows: [
            [GREAT, GREAT, GREAT, 0, 0, 0, 0, 0],
            [GREAT, 0, 0, 0, 0, 0, 0, 0],
            [GREAT, 0, 0, 0, 0, 0, 0, 0],
            ZERO,
            ZERO,
            ZERO,
            ZERO,
            ZERO,
        ],
    };
    Ellipsoid {
        form,
        level: 1,
        lambda: 30,
        mu: 1,
        kappa: 1,
        nu: 1,
        bound: 1,
        ..offer()
    }
}

#[test]
fn a_number_below_the_diagonal_is_too_wide(rt: HostRuntime) -> Result<(), Fail> {
    let alloc = rt.alloc();
    let wide = EllipsoidRefusal::Wide { place: 7 };
    assert!(rt; refusal_of(alloc, THIRD, &great_offer()) == Some(Some(wide)));
    Ok(())
}
