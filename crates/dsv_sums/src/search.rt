// The search for a form that its check accepts.
//
// The forms after 1, 2, 4, .. 2048 steps are tried, each with squares by elimination for itself and
// for what it loses in a step. The steps double, since what is missing from a partial sum shrinks
// with a power of the greatest root, so that a root near the circle needs many. The check of offers
// decides; a form that it refuses is no mistake, only too early a partial sum or too coarse a
// rounding.
ghost use Rattle.std.specs.Prelude.{◌≡◌, ◌-◌, ◌^◌, ◌<◌, ◌≤◌, length, IfSome, None};
ghost use Rattle.dsv_forms.specs.Refusals.{falls_refusal};
ghost use Rattle.dsv_sums.specs.Partial.{form_after};
ghost use Rattle.dsv_sums.specs.SumForms.{where_accepted, offer_with};
ghost use Rattle.dsv_sums.specs.SumForms.{most_looks, first_offer};

use crate::elimination::squares_of;
use crate::partial_sums::{first_form, next_form};
use dsv_forms::{Falls, Form, Poly, check_falls, fall_form};

/// How often the search looks: after 1, 2, 4, .. 2048 steps.
pub const MOST_LOOKS: u32 = 12;

/// An accepted offer, and the look at which it was found: the number t of steps is 2^look.
#[derive(Clone, Copy, Debug, PartialEq, Eq)]
pub struct SumOffer {
    pub look: u32,
    pub offer: Falls,
}

/// The form that this one is after `steps` steps.
fn form_after(poly: &Poly, form: &Form, steps: u32) -> Option<Form>
    ensures { result ≡ form_after poly.now form.now steps }
{
    let mut form = *form;
    for _step in 0..steps {
        form = next_form(poly, &form)?;
    }
    Some(form)
}

/// The offer, where its check accepts it.
fn where_accepted(poly: &Poly, offer: Falls) -> Option<Falls>
    ensures same { result ≡ where_accepted poly.now offer }
    ensures accepted { IfSome result (λ o. falls_refusal poly.now o ≡ None) }
{
    match check_falls(poly, &offer) {
        Ok(_) => Some(offer),
        Err(_) => None,
    }
}

/// The form with squares by rounded elimination, where its check accepts it with them.
fn offer_with(poly: &Poly, form: &Form) -> Option<Falls>
    requires { form.now.d ≡ length poly.now - 1 }
    ensures same { result ≡ offer_with poly.now form.now }
    ensures accepted { IfSome result (λ o. falls_refusal poly.now o ≡ None) }
{
    let c = poly.coefficients();
    if !form.is_symmetric() {
        return None;
    }
    let positive = squares_of(form)?;
    let loss = fall_form(c, form);
    let fall = squares_of(&loss)?;
    let offer = Falls {
        form: *form,
        positive,
        fall,
    };
    where_accepted(poly, offer)
}

/// The number of steps at a look.
fn steps_at(look: u32) -> u32
    requires { look < most_looks }
    ensures { result ≡ 2 ^ look }
{
    1 << look
}

/// The first offer for the polynomial from a look on, at most `MOST_LOOKS`, that its check accepts:
/// a form that comes near the one which loses the same on the diagonal in each step. The search
/// looks at the forms after 2^look, 2^(look + 1), .. 2048 steps, and ends where a form has an entry
/// that passes 2^60, or a number on the way to it 2^126. It takes no memory.
pub fn first_offer(poly: &Poly, look: u32) -> Option<SumOffer>
    requires { look ≤ most_looks }
    ensures exact { first_offer poly.now look ≡ result }
    ensures accepted { IfSome result (λ o. falls_refusal poly.now o.offer ≡ None) }
    ensures look { IfSome result (λ o. o.look < most_looks) }
{
    let mut form = first_form(poly);
    let mut steps = 0;
    for k in look..MOST_LOOKS {
        let wanted = steps_at(k);
        form = form_after(poly, &form, wanted - steps)?;
        steps = wanted;
        if let Some(offer) = offer_with(poly, &form) {
            return Some(SumOffer { look: k, offer });
        }
    }
    None
}
