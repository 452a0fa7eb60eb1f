// The closed form of a polynomial that has a root 1 or -1.
//
// Where t, 1 or -1, is a root, the polynomial is (z - t) q. The linear functional with the
// coefficients of q is multiplied by t in each step, so its square stays as it is: minus that
// square is negative at the start, loses nothing, and no trajectory from there comes to 0. The
// quotient and the remainder come from synthetic division (Horner's rule).
ghost use Rattle.std.specs.Prelude.{◌≡◌, ◌≤◌, ◌<◌, ◌+◌, ◌^◌, ◌*ℤ◌, ℕ, length, drop, map, neg_ℤ};
ghost use Rattle.std.specs.Prelude.{Some, None, if◌then◌else◌};
ghost use Rattle.std.specs.Int.RustNames.{unsigned_abs};
ghost use Rattle.dsv_algebra.specs.Vectors.{vector_of};
ghost use Rattle.dsv_forms.specs.Poly.{greatest_order, most_coefficients};
ghost use Rattle.dsv_forms.specs.Padded.{row_of, matrix_with};
ghost use Rattle.dsv_forms.specs.declared.offers.FormOffer.TheVariants as offered;
ghost use Rattle.dsv_closed_forms.specs.ClosedForm.{minus_square, quotient_from, value_from};
ghost use Rattle.dsv_closed_forms.specs.ClosedForm.{is_root, root_form, root_limit};

use crate::coefficients::coefficient;
use crate::entries::{Matrix, MatrixRow, no_squares, unit_start};
use crate::narrow::{are_equal, negation, product, sum};
use dsv_algebra::NarrowInteger;
use dsv_forms::{Form, FormOffer, GREATEST_ORDER, KeptAway};

/// Minus the products of a number with each of these.
fn negative_products(a: NarrowInteger, q: &[NarrowInteger]) -> MatrixRow
    requires few { length q.now ≤ greatest_order }
    requires small_a { unsigned_abs a ≤ 2 ^ 32 }
    requires small { (k : ℕ) → unsigned_abs (vector_of q.now k) ≤ 2 ^ 32 }
    ensures { result ≡ row_of (map (λ b. neg_ℤ (a *ℤ b)) q.now) }
{
    let mut row = [0; GREATEST_ORDER];
    for i in 0..q.len() {
        row[i] = negation(product(a, q[i])).get();
    }
    row
}

/// Minus the products of each two of these.
fn negative_square(q: &[NarrowInteger]) -> Matrix
    requires few { length q.now ≤ greatest_order }
    requires small { (k : ℕ) → unsigned_abs (vector_of q.now k) ≤ 2 ^ 32 }
    ensures { result ≡ matrix_with (map (λ a. map (λ b. neg_ℤ (a *ℤ b)) q.now) q.now) }
{
    let mut rows = [[0; GREATEST_ORDER]; GREATEST_ORDER];
    for i in 0..q.len() {
        rows[i] = negative_products(q[i], q);
    }
    rows
}

/// The form that is minus the square of these numbers times the vector. It loses nothing in a step.
pub(crate) fn minus_square(q: &[NarrowInteger]) -> KeptAway
    requires few { length q.now ≤ greatest_order }
    requires small { (k : ℕ) → unsigned_abs (vector_of q.now k) ≤ 2 ^ 32 }
    ensures { result ≡ minus_square q.now }
{
    KeptAway {
        form: Form {
            d: q.len() as u32,
            rows: negative_square(q),
        },
        start: unit_start(),
        fall: no_squares(),
    }
}

/// A polynomial divided by z - t.
#[derive(Clone, Copy)]
struct Division {
    /// The coefficients of the quotient, filled up with 0.
    quotient: [NarrowInteger; GREATEST_ORDER],
    /// The remainder, which is the polynomial's value at t.
    remainder: NarrowInteger,
}

/// The polynomial with these coefficients, divided by z - t.
fn division_by(c: &[i64], t: NarrowInteger) -> Division
    requires some { 0 < length c.now }
    requires few { length c.now ≤ most_coefficients }
    requires small { (k : ℕ) → unsigned_abs (vector_of c.now k) ≤ root_limit }
    requires unit { unsigned_abs t ≤ 1 }
    ensures quotient { result.quotient
        ≡ row_of (quotient_from t (vector_of c.now 0) (drop 1 c.now)) }
    ensures remainder { result.remainder ≡ value_from t (vector_of c.now 0) (drop 1 c.now) }
{
    let mut quotient = [NarrowInteger::from(0i64); GREATEST_ORDER];
    let mut carry = coefficient(c, 0);
    for i in 0..c.len() - 1 {
        quotient[i] = carry;
        carry = sum(coefficient(c, i + 1), product(t, carry));
    }
    Division {
        quotient,
        remainder: carry,
    }
}

/// The form of the polynomial's quotient by z - t, where t is a root.
fn form_at_root(c: &[i64], t: NarrowInteger) -> Option<FormOffer>
    requires some { 0 < length c.now }
    requires few { length c.now ≤ most_coefficients }
    requires small { (k : ℕ) → unsigned_abs (vector_of c.now k) ≤ root_limit }
    requires unit { unsigned_abs t ≤ 1 }
    ensures { result ≡ (if is_root t (vector_of c.now 0) (drop 1 c.now)
        then Some (offered.KeptAway (minus_square
        (quotient_from t (vector_of c.now 0) (drop 1 c.now))))
        else None) }
{
    let division = division_by(c, t);
    if !are_equal(division.remainder, NarrowInteger::from(0i64)) {
        return None;
    }
    let quotient = &division.quotient[..c.len() - 1];
    Some(FormOffer::KeptAway(minus_square(quotient)))
}

/// The form where 1 or else -1 is a root.
pub(crate) fn root_form(c: &[i64]) -> Option<FormOffer>
    requires some { 0 < length c.now }
    requires few { length c.now ≤ most_coefficients }
    requires small { (k : ℕ) → unsigned_abs (vector_of c.now k) ≤ root_limit }
    ensures { result ≡ root_form (vector_of c.now 0) (drop 1 c.now) }
{
    let first = form_at_root(c, NarrowInteger::from(1i64));
    first.or_else(|| form_at_root(c, NarrowInteger::from(-1i64)))
}
