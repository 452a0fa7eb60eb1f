// The Schur-Cohn form, made to lose more than one square.
//
// With the companion matrix A of the polynomial and the Schur-Cohn form H, times a power of two, P
// is the sum of (A^k)^T H A^k for k up to 4 times the order, each step rounded. Where H loses the
// square of one row g in a step, P loses those of g, g A, g A^2 and so on, which leave no vector
// but 0: so what P loses is positive by far more than the rounding, and the sign of P is that of H.
// Nothing is claimed of P: the check of the offer decides.
ghost use Rattle.std.specs.Prelude.{◌+◌, ◌<◌, ◌≤◌, length, IfSome};
ghost use Rattle.dsv_forms.specs.Poly.{IsPoly, greatest_order};

use crate::width::scaled_form;
use dsv_forms::{Form, GREATEST_ORDER, Poly, negative_image_entry};

/// How many steps are taken for each place.
const STEPS_FOR_A_PLACE: usize = 4;

/// An entry of the form after this one, where no number on the way passes 2^126.
fn next_entry(c: &[i64], added: i128, form: &Form, i: usize, j: usize) -> Option<i128>
    requires poly { IsPoly c.now }
    requires row { i + 1 < length c.now }
    requires column { j + 1 < length c.now }
{
    let negative = negative_image_entry(c, form, i, j)?.get();
    let square = i128::from(c[0]).checked_mul(i128::from(c[0]))?;
    added.checked_sub(negative.checked_div(square)?)
}

/// The form after this one, symmetric, to which a step adds `added`.
fn next_form(c: &[i64], added: &Form, form: &Form) -> Option<Form>
    requires { IsPoly c.now }
    ensures { IfSome result (λ next. next.d ≤ greatest_order) }
{
    let d = c.len() - 1;
    let mut rows = [[0; GREATEST_ORDER]; GREATEST_ORDER];
    for i in 0..d {
        for j in i..d {
            let entry = next_entry(c, added.rows[i][j], form, i, j)?;
            rows[i][j] = entry;
            rows[j][i] = entry;
        }
    }
    Some(Form { d: d as u32, rows })
}

/// The sum of the form's steps, with entries of this width in the first.
pub(crate) fn refined_form(poly: &Poly, form: &Form, width: u32) -> Option<Form>
    requires places { form.now.d ≤ greatest_order }
    requires narrow { width ≤ 126 }
    ensures { IfSome result (λ refined. refined.d ≤ greatest_order) }
{
    let c = poly.coefficients();
    let added = scaled_form(form, width)?;
    let mut refined = added;
    for _step in 0..STEPS_FOR_A_PLACE * poly.order() {
        refined = next_form(c, &added, &refined)?;
    }
    Some(refined)
}
