// The closed forms of orders 0 and 1.
ghost use Rattle.std.specs.Prelude.{◌≡◌, ◌≤◌, ◌*ℤ◌, ◌-ℤ◌, [], ◌∷◌, pos};
ghost use Rattle.std.specs.Int.RustNames.{unsigned_abs};
ghost use Rattle.dsv_forms.specs.Poly.{greatest_coefficient};
ghost use Rattle.dsv_forms.specs.Padded.{squares_with};
ghost use Rattle.dsv_closed_forms.specs.ClosedForm.{without_place, form_that_falls};
ghost use Rattle.dsv_closed_forms.specs.ClosedForm.{form_that_never_rises, first_order};

use crate::entries::{matrix_of_one, no_squares, row_of_one, unit_start};
use crate::narrow::{difference, is_less_in_size, product};
use dsv_algebra::NarrowInteger;
use dsv_forms::{Falls, Form, FormOffer, GREATEST_ORDER, KeptAway, Squares};

/// The offer for a polynomial of order 0, which has no vectors.
pub(crate) fn form_without_place() -> Falls
    ensures { result ≡ without_place }
{
    Falls {
        form: Form {
            d: 0,
            rows: [[0; GREATEST_ORDER]; GREATEST_ORDER],
        },
        positive: no_squares(),
        fall: no_squares(),
    }
}

/// The square of the first number less that of the second one.
fn difference_of_squares(a: NarrowInteger, b: NarrowInteger) -> NarrowInteger
    requires small_a { unsigned_abs a ≤ greatest_coefficient }
    requires small_b { unsigned_abs b ≤ greatest_coefficient }
    ensures { result ≡ a *ℤ a -ℤ b *ℤ b }
{
    difference(product(a, a), product(b, b))
}

/// The square of the one place itself, with this weight.
fn one_square(weight: NarrowInteger) -> Squares
    ensures { result ≡ squares_with (pos 1) (weight ∷ []) ((pos 1 ∷ []) ∷ []) [] }
{
    Squares {
        count: 1,
        weights: row_of_one(weight),
        rows: matrix_of_one(NarrowInteger::from(1i64)),
        ..no_squares()
    }
}

/// The form 1, which loses this number, a positive one, in a step.
fn form_that_falls(loss: NarrowInteger) -> Falls
    ensures { result ≡ form_that_falls loss }
{
    let one = NarrowInteger::from(1i64);
    Falls {
        form: Form {
            d: 1,
            rows: matrix_of_one(one),
        },
        positive: one_square(one),
        fall: one_square(loss),
    }
}

/// The form -1, which is negative at 1 and loses this number, 0 or more, in a step.
fn form_that_never_rises(loss: NarrowInteger) -> KeptAway
    ensures { result ≡ form_that_never_rises loss }
{
    KeptAway {
        form: Form {
            d: 1,
            rows: matrix_of_one(NarrowInteger::from(-1i64)),
        },
        start: unit_start(),
        fall: Squares {
            rest: matrix_of_one(loss),
            ..no_squares()
        },
    }
}

/// The offer for a polynomial of order 1 with these coefficients.
pub(crate) fn first_order(c0: NarrowInteger, c1: NarrowInteger) -> FormOffer
    requires small_0 { unsigned_abs c0 ≤ greatest_coefficient }
    requires small_1 { unsigned_abs c1 ≤ greatest_coefficient }
    ensures { result ≡ first_order c0 c1 }
{
    if is_less_in_size(c1, c0) {
        FormOffer::Falls(form_that_falls(difference_of_squares(c0, c1)))
    } else {
        FormOffer::KeptAway(form_that_never_rises(difference_of_squares(c1, c0)))
    }
}
