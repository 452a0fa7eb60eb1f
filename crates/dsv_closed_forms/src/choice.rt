// The closed form of a polynomial: a form that shows whether its trajectories fall, in terms of its
// coefficients.
//
// Which closed form a polynomial has. Order 1: the square of the one place, or minus it. Order 2:
// the solution of Lyapunov's equation in terms of the coefficients, which is positive exactly in
// the triangle |c_2| < c_0, |c_1| < c_0 + c_2 (Jury 1964). From order 3 on only a polynomial that
// has the root 1 or -1 has one, which shows that its trajectories don't all fall to 0.
ghost use Rattle.std.specs.Prelude.{◌≡◌, ◌≤◌, length, IfSome};
ghost use Rattle.dsv_forms.specs.Poly.{IsPoly};
ghost use Rattle.dsv_closed_forms.specs.ClosedForm.{are_within, closed_form_of, IsAccepted};

use crate::coefficients::{Coefficients, coefficient};
use crate::first::{first_order, form_without_place};
use crate::root::root_form;
use dsv_forms::{FormOffer, Poly};

/// The greatest size of a coefficient at which order 2 has a closed form.
const SECOND_LIMIT: u64 = 1 << 23;

/// The greatest size of a coefficient at which the orders from 3 on have a closed form.
const ROOT_LIMIT: u64 = 1 << 28;

/// Whether no coefficient is greater in size.
fn are_within(most: u64, c: &[i64]) -> bool
    ensures { result ≡ are_within most c.now }
{
    c.iter().all(|c| c.unsigned_abs() <= most)
}

/// The offer for a polynomial of order 2, where its coefficients are small enough.
fn second_offer(c: &[i64]) -> Option<FormOffer>
    requires { length c.now ≡ 3 }
    ensures { closed_form_of c.now ≡ result }
{
    if !are_within(SECOND_LIMIT, c) {
        return None;
    }
    let coefficients = Coefficients {
        c0: coefficient(c, 0),
        c1: coefficient(c, 1),
        c2: coefficient(c, 2),
    };
    Some(coefficients.offer())
}

/// The offer for a polynomial of order 3 or more, where its coefficients are small enough and 1 or
/// -1 is a root.
fn higher_offer(c: &[i64]) -> Option<FormOffer>
    requires many { 4 ≤ length c.now }
    requires poly { IsPoly c.now }
    ensures { closed_form_of c.now ≡ result }
{
    if !are_within(ROOT_LIMIT, c) {
        return None;
    }
    root_form(c)
}

/// The offer for a polynomial with these coefficients, where one of the closed forms applies.
fn offer_of(c: &[i64]) -> Option<FormOffer>
    requires { IsPoly c.now }
    ensures { closed_form_of c.now ≡ result }
{
    match c.len() {
        1 => Some(FormOffer::Falls(form_without_place())),
        2 => Some(first_order(coefficient(c, 0), coefficient(c, 1))),
        3 => second_offer(c),
        _ => higher_offer(c),
    }
}

/// The offer that the closed form of the polynomial gives, where one applies. It takes no memory.
/// Orders 0 and 1 always have one; order 2 has one where no coefficient passes 2^23 in size, and an
/// order from 3 on where none passes 2^28 and 1 or -1 is a root.
pub fn closed_form(poly: &Poly) -> Option<FormOffer>
    ensures exact { closed_form_of poly.now ≡ result }
    ensures accepted { IfSome result (λ offer. IsAccepted poly.now offer) }
{
    offer_of(poly.coefficients())
}
