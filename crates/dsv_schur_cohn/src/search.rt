// The search for an offer that its check accepts.
//
// Three offers are tried in turn, each by its own check: the Schur-Cohn form from the vector with 1
// at the first place where its diagonal is negative; the same form from a direction in which it is
// negative; and the form that is refined, which falls where it is positive and is kept away where
// it is negative in a direction.
ghost use Rattle.std.specs.Prelude.{◌≡◌, ℕ, ◌+◌, ◌==◌, ◌<◌, ◌≤◌, false, if◌then◌else◌, length, pos};
ghost use Rattle.std.specs.Prelude.{IfSome, IsSomeAnd, None, Some};
ghost use Rattle.dsv_algebra.specs.Vectors.{vector_of};
ghost use Rattle.dsv_forms.specs.declared.offers.FormOffer.TheVariants as offered;
ghost use Rattle.dsv_forms.specs.Poly.{greatest_order};
ghost use Rattle.dsv_forms.specs.Refusals.{kept_away_refusal};
ghost use Rattle.dsv_closed_forms.specs.ClosedForm.{IsAccepted, offers_fall};
ghost use Rattle.dsv_schur_cohn.specs.Offer.{IsSmall, HasNegativePlace};

use crate::cholesky::squares_of;
use crate::direction::{negative_direction, negative_place};
use crate::form::{Row, schur_cohn_form};
use crate::offer::negative_offer;
use crate::refinement::refined_form;
use crate::width::row_width;
use dsv_forms::{
    Falls, Form, FormOffer, GREATEST_ORDER, KeptAway, Poly, Squares, check_falls, check_kept_away,
    fall_form,
};

/// How many bits the greatest entry of a start takes at first, and how many more each time.
const BITS: u32 = 4;

/// How often a start is tried, with more bits each time.
const MOST_STARTS: u32 = 15;

/// How many sums of steps are tried, each with one bit less than the one before it.
const MOST_SUMS: u32 = 4;

/// The greatest width of an entry.
const GREATEST_WIDTH: u32 = 126;

/// A vector of up to eight places.
type Start = [i64; GREATEST_ORDER];

/// The entry divided by a power of two, to the nearest number.
fn rounded_entry(entry: i128, shift: u32) -> Option<i64>
    requires { shift < 128 }
{
    let half = (1u128 << shift) / 2;
    let sum = entry.checked_add(i128::try_from(half).ok()?)?;
    i64::try_from(sum >> shift).ok()
}

/// The direction as a start whose greatest entry takes so many bits, or as many as it has.
fn start_with(direction: &Row, bits: u32) -> Option<Start>
    requires { 1 ≤ bits }
{
    let shift = row_width(direction).saturating_sub(bits);
    let mut start = [0; GREATEST_ORDER];
    for i in 0..GREATEST_ORDER {
        start[i] = rounded_entry(direction[i], shift)?;
    }
    Some(start)
}

/// The offer, where its check accepts it.
fn where_kept_away(poly: &Poly, offer: KeptAway) -> Option<FormOffer>
    ensures accepted { IfSome result (λ o. IsAccepted poly.now o) }
    ensures given { kept_away_refusal poly.now offer ≡ None
        → result ≡ Some (offered.KeptAway offer) }
{
    match check_kept_away(poly, &offer) {
        Ok(_) => Some(FormOffer::KeptAway(offer)),
        Err(_) => None,
    }
}

/// The offer, where its check accepts it.
fn where_falls(poly: &Poly, offer: Falls) -> Option<FormOffer>
    ensures { IfSome result (λ o. IsAccepted poly.now o) }
{
    match check_falls(poly, &offer) {
        Ok(_) => Some(FormOffer::Falls(offer)),
        Err(_) => None,
    }
}

/// The first accepted offer of the form from a start in a direction in which it is negative.
fn offer_away(poly: &Poly, form: &Form, fall: &Squares) -> Option<FormOffer>
    requires { form.now.d ≤ greatest_order }
    ensures { IfSome result (λ o. IsAccepted poly.now o) }
{
    let direction = negative_direction(form)?;
    for n in 0..MOST_STARTS {
        let start = start_with(&direction, BITS * (n + 1))?;
        let offer = KeptAway {
            form: *form,
            start,
            fall: *fall,
        };
        let found = where_kept_away(poly, offer);
        if found.is_some() {
            return found;
        }
    }
    None
}

/// An accepted offer of the form: one that falls where the form is positive, and one that is kept
/// away where it is negative in a direction.
fn offer_of(poly: &Poly, form: &Form) -> Option<FormOffer>
    requires { form.now.d ≤ greatest_order }
    ensures { IfSome result (λ o. IsAccepted poly.now o) }
{
    let fall = squares_of(&fall_form(poly.coefficients(), form))?;
    match squares_of(form) {
        Some(positive) => where_falls(
            poly,
            Falls {
                form: *form,
                positive,
                fall,
            },
        ),
        None => offer_away(poly, form, &fall),
    }
}

/// The greatest width at which the refined form has no number on the way that passes 2^126.
fn refined_width(poly: &Poly, form: &Form) -> Option<u32>
    requires { form.now.d ≤ greatest_order }
    ensures { IfSome result (λ width. width ≤ 126) }
{
    for width in (0..GREATEST_WIDTH + 1).rev() {
        if refined_form(poly, form, width).is_some() {
            return Some(width);
        }
    }
    None
}

/// An accepted offer of the refined form, at one of the greatest widths.
fn refined_offer(poly: &Poly, form: &Form) -> Option<FormOffer>
    requires { form.now.d ≤ greatest_order }
    ensures { IfSome result (λ o. IsAccepted poly.now o) }
{
    let greatest = refined_width(poly, form)?;
    for n in 0..MOST_SUMS {
        let refined = refined_form(poly, form, greatest.checked_sub(n)?)?;
        let found = offer_of(poly, &refined);
        if found.is_some() {
            return found;
        }
    }
    None
}

/// The vector with 1 at a place, and 0 elsewhere.
fn unit_start(i: usize) -> Start
    requires { i < greatest_order }
    ensures { (j : ℕ) → vector_of result j ≡ (if j == i then pos 1 else pos 0) }
{
    let mut start = [0; GREATEST_ORDER];
    start[i] = 1;
    start
}

/// The accepted offer of the Schur-Cohn form from the first place where its diagonal is negative.
fn place_offer(poly: &Poly) -> Option<FormOffer>
    ensures accepted { IfSome result (λ o. IsAccepted poly.now o) }
    ensures negative { IsSmall poly.now → HasNegativePlace poly.now
        → IsSomeAnd result (λ o. offers_fall o ≡ false) }
{
    let form = schur_cohn_form(poly);
    let Some(i) = negative_place(&form.rows, poly.order(), 0) else {
        return None;
    };
    where_kept_away(poly, negative_offer(poly, &unit_start(i)))
}

/// An offer that shows on which side of stability the polynomial is, if one is found that its check
/// accepts: that the trajectories fall, or that one is kept away from 0. Of order 0 there is none,
/// and of the orders 1 to 8 there is one at least where no coefficient passes 2^29 in size and the
/// Schur-Cohn form is negative on its diagonal. It takes no memory.
pub fn schur_cohn_offer(poly: &Poly) -> Option<FormOffer>
    ensures accepted { IfSome result (λ offer. IsAccepted poly.now offer) }
    ensures negative { IsSmall poly.now → HasNegativePlace poly.now
        → IsSomeAnd result (λ offer. offers_fall offer ≡ false) }
    ensures constant { length poly.now ≡ 1 → result ≡ None }
{
    if poly.order() == 0 {
        return None;
    }
    let found = place_offer(poly);
    if found.is_some() {
        return found;
    }
    let offer = negative_offer(poly, &[0; GREATEST_ORDER]);
    let found = offer_away(poly, &offer.form, &offer.fall);
    if found.is_some() {
        return found;
    }
    refined_offer(poly, &offer.form)
}
