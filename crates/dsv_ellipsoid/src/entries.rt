// The step form and the first form of an offer, entry by entry.
//
// The step form is lambda V(v) + mu g^2 - V(C v + (g, 0, .., 0)) with the companion matrix C of the
// controller's denominator: it has a place for each output and one for the disturbance. The first
// form is nu V(v) - kappa v_1^2. Sums go from left to right and are given up where a number on the
// way passes 2^126.
#![tactic(auto, using(dsv_algebra::proofs::Casts::casts))]

ghost use Rattle.std.specs.Prelude.{◌≡◌, ◌<◌, ◌≤◌, ◌+◌, ◌-◌, length};
ghost use Rattle.std.specs.Prelude.{suc, true, ◌||◌, is_none, IfSome, IfOk};
ghost use Rattle.std.specs.List.{list_any};
ghost use Rattle.dsv_algebra.specs.Vectors.{vector_of};
ghost use Rattle.dsv_meaning.specs.Equations.{order};
ghost use Rattle.dsv_forms.specs.Refusals.{first_of, refusal_of, places, is_symmetric};
ghost use Rattle.dsv_forms.specs.Sums.{sum_with};
ghost use Rattle.dsv_ellipsoid.specs.Good.{form_of, step_form, first_form};
ghost use Rattle.dsv_ellipsoid.specs.Entries.{scaled, step_summands, first_summands};
ghost use Rattle.dsv_ellipsoid.specs.Entries.{has_wide_entry};
ghost use Rattle.dsv_ellipsoid.specs.Refusals.{entry_tests};
ghost use Rattle.dsv_ellipsoid.specs.Stages.{IsShaped, StandsFor};
ghost use Rattle.dsv_ellipsoid.specs.Sums.{inside_sum, side_sum, corner_sum, step_sum, first_sum};
ghost use Rattle.dsv_ellipsoid.specs.Sums.{sum_of, places_of, IsSummedRow, IsSummed};

use crate::refusal::EllipsoidRefusal;
use crate::sizes::wide_number;
use dsv_algebra::NarrowInteger;
use dsv_certfile::Ellipsoid;
use dsv_forms::{Form, GREATEST_ORDER, negation, number_of, sum_less_image};
use dsv_quantiser::Quantised;

/// Which of both forms.
#[derive(Clone, Copy)]
pub(crate) enum FormKind {
    /// The step form.
    Step,
    /// The first form.
    First,
}

/// The sum with a product of two numbers more, where no number on the way is too wide.
fn sum_with_scaled(
    sum: NarrowInteger,
    factor: NarrowInteger,
    entry: NarrowInteger,
) -> Option<NarrowInteger>
    ensures { result ≡ sum_with sum (scaled factor entry) }
{
    sum.checked_add(factor.checked_mul(entry)?)
}

/// An entry of the step form for two outputs.
fn inside_entry(c: &[i64], offer: &Ellipsoid, i: usize, j: usize) -> Option<NarrowInteger>
    requires some { i + 1 < length c.now }
    requires others { j + 1 < length c.now }
    requires few { length c.now ≤ 8 }
    ensures { result ≡ inside_sum (length c.now - 1) (vector_of c.now) offer.now i j }
{
    let zero = NarrowInteger::from(0i64);
    let sum = sum_with_scaled(zero, wide_number(&offer.lambda), offer.form.entry(i, j))?;
    sum_less_image(sum, c, &offer.form, i, j)
}

/// An entry of the step form for an output and the disturbance.
fn side_entry(c: &[i64], offer: &Ellipsoid, i: usize) -> Option<NarrowInteger>
    requires some { i + 1 < length c.now }
    requires few { length c.now ≤ 8 }
    ensures { result ≡ side_sum (length c.now - 1) (vector_of c.now) offer.now i }
{
    let zero = NarrowInteger::from(0i64);
    let sum = sum_with_scaled(zero, number_of(&c[i + 1]), offer.form.entry(0, 0))?;
    if i + 1 < c.len() - 1 {
        sum_with_scaled(sum, negation(&c[0]), offer.form.entry(0, i + 1))
    } else {
        Some(sum)
    }
}

/// The entry of the step form for the disturbance.
fn corner_entry(offer: &Ellipsoid) -> Option<NarrowInteger>
    ensures { result ≡ corner_sum offer.now }
{
    let sum = wide_number(&offer.mu).narrow_number()?;
    sum.checked_sub(offer.form.entry(0, 0))
}

/// An entry of the step form.
fn step_entry(c: &[i64], offer: &Ellipsoid, i: usize, j: usize) -> Option<NarrowInteger>
    requires some { 1 ≤ length c.now }
    requires few { length c.now ≤ 8 }
    ensures { result ≡ step_sum (length c.now - 1) (vector_of c.now) offer.now i j }
{
    let d = c.len() - 1;
    if i < d {
        if j < d {
            inside_entry(c, offer, i, j)
        } else {
            side_entry(c, offer, i)
        }
    } else if j < d {
        side_entry(c, offer, j)
    } else {
        corner_entry(offer)
    }
}

/// An entry of the first form.
fn first_entry(offer: &Ellipsoid, i: usize, j: usize) -> Option<NarrowInteger>
    requires row { i < 8 }
    requires column { j < 8 }
    ensures { result ≡ first_sum offer.now i j }
{
    let zero = NarrowInteger::from(0i64);
    let sum = sum_with_scaled(zero, wide_number(&offer.nu), offer.form.entry(i, j))?;
    if i == 0 && j == 0 {
        sum.checked_sub(wide_number(&offer.kappa))
    } else {
        Some(sum)
    }
}

/// How many places the form has.
fn places_of(kind: FormKind, c: &[i64]) -> usize
    requires { 1 ≤ length c.now }
    ensures { result ≡ places_of kind (length c.now - 1) }
{
    match kind {
        FormKind::Step => c.len(),
        FormKind::First => c.len() - 1,
    }
}

/// An entry of the form.
fn entry(kind: FormKind, c: &[i64], offer: &Ellipsoid, i: usize, j: usize) -> Option<NarrowInteger>
    requires some { 1 ≤ length c.now }
    requires few { length c.now ≤ 8 }
    requires row { i < places_of kind (length c.now - 1) }
    requires column { j < places_of kind (length c.now - 1) }
    ensures { result ≡ sum_of kind (length c.now - 1) (vector_of c.now) offer.now i j }
{
    match kind {
        FormKind::Step => step_entry(c, offer, i, j),
        FormKind::First => first_entry(offer, i, j),
    }
}

/// A row of the form, where no number on the way to an entry of it is too wide.
fn form_row(
    kind: FormKind,
    c: &[i64],
    offer: &Ellipsoid,
    i: usize,
) -> Option<[i128; GREATEST_ORDER]>
    requires some { 1 ≤ length c.now }
    requires few { length c.now ≤ 8 }
    requires row { i < places_of kind (length c.now - 1) }
    ensures wide { is_none result ≡ list_any (λ j. is_none (sum_of kind (length c.now - 1)
        (vector_of c.now) offer.now i j)) (places (places_of kind (length c.now - 1))) }
    ensures row { IfSome result (IsSummedRow (places_of kind (length c.now - 1))
        (sum_of kind (length c.now - 1) (vector_of c.now) offer.now) i) }
{
    let mut row = [0; GREATEST_ORDER];
    for j in 0..places_of(kind, c) {
        row[j] = entry(kind, c, offer, i, j)?.get();
    }
    Some(row)
}

/// The form, where no number on the way to an entry of it is too wide.
pub(crate) fn tested_form(kind: FormKind, c: &[i64], offer: &Ellipsoid) -> Option<Form>
    requires some { 1 ≤ length c.now }
    requires few { length c.now ≤ 8 }
    ensures wide { is_none result ≡ list_any (λ i. list_any (λ j. is_none
        (sum_of kind (length c.now - 1) (vector_of c.now) offer.now i j))
        (places (places_of kind (length c.now - 1)))) (places (places_of kind (length c.now - 1))) }
    ensures form { IfSome result (IsSummed (places_of kind (length c.now - 1))
        (sum_of kind (length c.now - 1) (vector_of c.now) offer.now)) }
{
    let d = places_of(kind, c);
    let mut rows = [[0; GREATEST_ORDER]; GREATEST_ORDER];
    for i in 0..d {
        rows[i] = form_row(kind, c, offer, i)?;
    }
    Some(Form { d: d as u32, rows })
}

/// Both forms of an offer.
#[derive(Clone, Copy)]
pub(crate) struct TestedForms {
    /// The step form.
    pub(crate) step: Form,
    /// The first form.
    pub(crate) first: Form,
}

/// Both forms of an offer for the denominator, where no number on the way to an entry is too wide.
#[tactic(auto, using(crate::proofs::Standing::both_forms))]
fn forms_of(c: &[i64], offer: &Ellipsoid) -> Option<TestedForms>
    requires some { 2 ≤ length c.now }
    requires few { length c.now ≤ 8 }
    requires form { is_symmetric (length c.now - 1) (form_of offer.now) ≡ true }
    ensures wide { is_none result
        ≡ (has_wide_entry (suc (length c.now - 1))
        (step_summands (length c.now - 1) (vector_of c.now) offer.now)
        || has_wide_entry (length c.now - 1) (first_summands offer.now)) }
    ensures step { IfSome result (λ forms. StandsFor (suc (length c.now - 1))
        (step_form (length c.now - 1) (vector_of c.now) offer.now) forms.step) }
    ensures first { IfSome result
        (λ forms. StandsFor (length c.now - 1) (first_form offer.now) forms.first) }
{
    Some(TestedForms {
        step: tested_form(FormKind::Step, c, offer)?,
        first: tested_form(FormKind::First, c, offer)?,
    })
}

/// Both forms of an offer for the controller.
pub(crate) fn tested_forms(
    quantised: &Quantised,
    offer: &Ellipsoid,
) -> Result<TestedForms, EllipsoidRefusal>
    requires { IsShaped quantised.now offer.now }
    ensures refusal { refusal_of result ≡ first_of (entry_tests quantised.now offer.now) }
    ensures step { IfOk result (λ forms. StandsFor (suc (order quantised.now))
        (step_form (order quantised.now) (vector_of quantised.now.a) offer.now) forms.step) }
    ensures first { IfOk result
        (λ forms. StandsFor (order quantised.now) (first_form offer.now) forms.first) }
{
    match forms_of(quantised.a(), offer) {
        Some(forms) => Ok(forms),
        None => Err(EllipsoidRefusal::Wide { place: 7 }),
    }
}
