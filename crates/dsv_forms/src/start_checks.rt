// The check of an offer of a form that is kept away.
//
// The opposite of a form that falls, after Lyapunov's theorem on instability: a form that is
// negative at a start and rises along no trajectory stays at or below that value, and so the
// trajectory from there never comes to 0, where each form is 0. The check has three parts: the form
// is symmetric, what it loses in a step is nowhere negative, and its value at the start is
// negative.
ghost use Rattle.std.specs.Prelude.{◌≡◌, ◌<◌, ◌≤◌, ◌+◌, ◌-◌};
ghost use Rattle.std.specs.Prelude.{length, pos, Some, IfOk, OnOk};
ghost use Rattle.dsv_algebra.specs.Vectors.{form_at, vector_of, matrix_of};
ghost use Rattle.dsv_algebra.specs.Companion.{IsKeptAwayAlong};
ghost use Rattle.dsv_forms.specs.FallForm.{IsFallForm};
ghost use Rattle.dsv_forms.specs.Poly.{greatest_order};
ghost use Rattle.dsv_forms.specs.Refusals.{refusal_of, kept_away_refusal};
ghost use Rattle.dsv_forms.specs.Sums.{sum_with, sum_from, product};
ghost use Rattle.dsv_forms.specs.Sums.{row_summands, value_summands, value_refusal};

use crate::checks::check_form;
use crate::fall::fall_form;
use crate::matrix::entry;
use crate::squares::check_semidefinite;
use crate::sums::sum_with_product;
use crate::{Form, FormRefusal, GREATEST_ORDER, KeptAway, OfferPart, Poly};
use dsv_algebra::NarrowInteger;

/// A vector of up to eight places.
type Start = [i64; GREATEST_ORDER];

/// The entry of a vector.
fn place(start: &Start, i: usize) -> NarrowInteger
    requires { i < greatest_order }
    ensures { result ≡ vector_of start.now i }
{
    NarrowInteger::from(start[i])
}

/// The sum with a product of an entry and two places more, where no number on the way is too wide.
fn sum_with_entry(
    sum: NarrowInteger,
    form: &Form,
    start: &Start,
    i: usize,
    j: usize,
) -> Option<NarrowInteger>
    requires row { i < greatest_order }
    requires column { j < greatest_order }
    ensures { result ≡ sum_with sum (product (matrix_of form.now.rows i j) (vector_of start.now i)
        (vector_of start.now j)) }
{
    sum_with_product(
        sum,
        entry(&form.rows, i, j),
        place(start, i),
        place(start, j),
    )
}

/// The sum with a row of the form's value at the start more, where no number on the way is too
/// wide.
fn sum_with_row(sum: NarrowInteger, form: &Form, start: &Start, i: usize) -> Option<NarrowInteger>
    requires few { form.now.d ≤ greatest_order }
    requires row { i < greatest_order }
    ensures { result ≡ sum_from sum
        (row_summands form.now.d (matrix_of form.now.rows) (vector_of start.now) i) }
{
    let mut sum = sum;
    for j in 0..form.d as usize {
        sum = sum_with_entry(sum, form, start, i, j)?;
    }
    Some(sum)
}

/// The form's value at the start, where no number on the way is too wide.
fn value_at(form: &Form, start: &Start) -> Option<NarrowInteger>
    requires { form.now.d ≤ greatest_order }
    ensures { result ≡ sum_from (pos 0)
        (value_summands form.now.d (matrix_of form.now.rows) (vector_of start.now)) }
{
    let mut sum = NarrowInteger::from(0i64);
    for i in 0..form.d as usize {
        sum = sum_with_row(sum, form, start, i)?;
    }
    Some(sum)
}

/// Checks that a value at the start, where there is one, is negative, and gives it.
fn check_value(value: Option<NarrowInteger>) -> Result<NarrowInteger, FormRefusal>
    ensures refusal { refusal_of result ≡ value_refusal value }
    ensures value { IfOk result (λ x. value ≡ Some x) }
{
    let wide = FormRefusal::Wide {
        part: OfferPart::Start,
        i: 0,
        j: 0,
    };
    let value = value.ok_or(wide)?;
    if value.get() >= 0 {
        return Err(FormRefusal::StartNotNegative { value: value.get() });
    }
    Ok(value)
}

/// Checks that the offer shows a form which is negative at the start and rises along no trajectory
/// of the polynomial. It gives what the form loses in a step and its value at the start, and takes
/// no memory.
pub fn check_kept_away(poly: &Poly, offer: &KeptAway) -> Result<(Form, i128), FormRefusal>
    // The first test that refuses, in their order; the offer is accepted exactly where none does.
    ensures refusal { refusal_of result ≡ kept_away_refusal poly.now offer.now }
    ensures away { IfOk result
        (λ x. IsKeptAwayAlong (length poly.now - 1) (vector_of poly.now)
        (matrix_of offer.now.form.rows) (vector_of offer.now.start)) }
    ensures fall { IfOk result
        (λ x. IsFallForm (length poly.now - 1) (vector_of poly.now) offer.now.form x.0) }
    ensures value { IfOk result (λ x. x.1
        ≡ form_at (length poly.now - 1) (matrix_of offer.now.form.rows)
        (vector_of offer.now.start)) }
    ensures places { OnOk result (offer.now.form.d + 1 ≡ length poly.now) }
    ensures few { OnOk result (offer.now.form.d ≤ greatest_order) }
{
    check_form(poly, &offer.form)?;
    let fall = fall_form(poly.coefficients(), &offer.form);
    check_semidefinite(&fall, &offer.fall, OfferPart::Fall)?;
    let value = check_value(value_at(&offer.form, &offer.start))?;
    Ok((fall, value.get()))
}
