// The check of an offer of a form that falls.
ghost use Rattle.std.specs.Prelude.{◌≡◌, ◌≤◌, ◌+◌, ◌-◌, length, IfOk, OnOk, true};
ghost use Rattle.dsv_algebra.specs.Vectors.{vector_of, matrix_of};
ghost use Rattle.dsv_algebra.specs.Companion.{StrictlyFallsAlong};
ghost use Rattle.dsv_forms.specs.FallForm.{IsFallForm};
ghost use Rattle.dsv_forms.specs.Poly.{greatest_order};
ghost use Rattle.dsv_forms.specs.Refusals.{refusal_of, falls_refusal, first_of, form_tests};
ghost use Rattle.dsv_forms.specs.Refusals.{is_symmetric};

use crate::fall::fall_form;
use crate::matrix::is_symmetric;
use crate::squares::check_definite;
use crate::{Falls, Form, FormRefusal, OfferPart, Poly};

/// Checks that a form has as many places as the polynomial's order, and is symmetric in them.
pub(crate) fn check_form(poly: &Poly, form: &Form) -> Result<(), FormRefusal>
    ensures refusal { refusal_of result ≡ first_of (form_tests (length poly.now - 1) form.now) }
    ensures places { OnOk result (form.now.d + 1 ≡ length poly.now) }
    ensures few { OnOk result (form.now.d ≤ greatest_order) }
    ensures symmetric { OnOk result (is_symmetric form.now.d (matrix_of form.now.rows) ≡ true) }
{
    let order = poly.order();
    if form.d as usize != order || !is_symmetric(&form.rows, order) {
        return Err(FormRefusal::Shape {
            part: OfferPart::Form,
        });
    }
    Ok(())
}

/// Checks that the offer shows a form which strictly falls along each trajectory of the polynomial,
/// and gives what the form loses in a step. It takes no memory.
pub fn check_falls(poly: &Poly, offer: &Falls) -> Result<Form, FormRefusal>
    // The first test that refuses, in their order; the offer is accepted exactly where none does.
    ensures refusal { refusal_of result ≡ falls_refusal poly.now offer.now }
    ensures falls { IfOk result
        (λ _. StrictlyFallsAlong (length poly.now - 1) (vector_of poly.now)
        (matrix_of offer.now.form.rows)) }
    ensures fall { IfOk result
        (λ fall. IsFallForm (length poly.now - 1) (vector_of poly.now) offer.now.form fall) }
    ensures places { OnOk result (offer.now.form.d + 1 ≡ length poly.now) }
    ensures few { OnOk result (offer.now.form.d ≤ greatest_order) }
{
    check_form(poly, &offer.form)?;
    check_definite(&offer.form, &offer.positive, OfferPart::Positive)?;
    let fall = fall_form(poly.coefficients(), &offer.form);
    check_definite(&fall, &offer.fall, OfferPart::Fall)?;
    Ok(fall)
}
