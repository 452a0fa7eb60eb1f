// The check of an ellipsoid that is offered.
//
// While nothing is fitted, the last outputs of a controller in direct form I move by the companion
// matrix of its denominator and by a disturbance, the inputs' part and the errors of all rounded
// products, whose size is bounded. An ellipsoid that each step from it ends in, whatever the
// disturbance is, bounds the outputs; and where the intervals of all exact values are within the
// words then, nothing is ever fitted. Both claims on the form are S-procedures: a weighted sum of
// what is known less what is wanted is nowhere negative, which squares show.
#![tactic(auto, using(dsv_algebra::proofs::Casts::casts, crate::proofs::FirstTests::test_lists))]

ghost use Rattle.std.specs.Prelude.{◌≡◌, ◌≤◌, ◌∷◌, [], ◌||◌, suc, true, int_lt, pos};
ghost use Rattle.std.specs.Prelude.{IfOk, OnOk};
ghost use Rattle.std.specs.Option.{option_map};
ghost use Rattle.dsv_algebra.specs.Vectors.{vector_of, matrix_of};
ghost use Rattle.dsv_names.specs.declared.realisation.Realisation.TheVariants.{Dfi};
ghost use Rattle.dsv_word.specs.Words.{width, hi};
ghost use Rattle.dsv_quantiser.specs.QuantisedView.{IsQuantisedView};
ghost use Rattle.dsv_meaning.specs.Equations.{order};
ghost use Rattle.dsv_forms.specs.Refusals as forms;
ghost use Rattle.dsv_forms.specs.declared.refusal.OfferPart.TheVariants as part;
ghost use Rattle.dsv_ellipsoid.specs.declared.refusal.EllipsoidRefusal.TheVariants as refusal;
ghost use Rattle.dsv_ellipsoid.specs.Good.{step_form, first_form, IsGood, NeverBreaks, StaysKept};
ghost use Rattle.dsv_forms.specs.Refusals.{first_of, refusal_of};
ghost use Rattle.dsv_ellipsoid.specs.Refusals.{is_direct, bad_shape};
ghost use Rattle.dsv_ellipsoid.specs.Refusals.{sign_tests, claim_tests, ellipsoid_refusal};
ghost use Rattle.dsv_ellipsoid.specs.Sizes.{sizes_of};
ghost use Rattle.dsv_ellipsoid.specs.Stages.{IsShaped, HasBound, StandsFor};
ghost use Rattle.dsv_ellipsoid.specs.Stages.{step_sign_tests, first_sign_tests};

use crate::entries::{TestedForms, tested_forms};
use crate::intervals::check_intervals;
use crate::refusal::{EllipsoidRefusal, refuse_where};
use crate::sizes::{Sizes, sizes_of};
use dsv_algebra::NarrowInteger;
use dsv_certfile::Ellipsoid;
use dsv_forms::{Form, OfferPart, Squares, check_semidefinite};
use dsv_names::Realisation;
use dsv_quantiser::Quantised;

/// The greatest order: the step form has one place more, and a form has at most eight.
pub(crate) const MOST_STATES: usize = 7;

/// Whether the realisation is the direct form I.
pub(crate) fn is_direct(realisation: Realisation) -> bool
    ensures { result ≡ is_direct realisation }
{
    matches!(realisation, Realisation::Dfi)
}

/// Whether the form hasn't as many places as the order, or isn't symmetric in them.
fn is_bad_form(order: usize, form: &Form) -> bool
    requires { order ≤ 8 }
    ensures { result ≡ forms.bad_form order form.now }
{
    form.d as usize != order || !form.is_symmetric()
}

/// Whether the controller isn't one whose ellipsoids are checked, or the form isn't one for it.
fn is_bad_shape(quantised: &Quantised, offer: &Ellipsoid) -> bool
    ensures { result ≡ bad_shape quantised.now offer.now }
{
    let order = quantised.order();
    !is_direct(quantised.realisation())
        || quantised.is_wide()
        || order == 0
        || MOST_STATES < order
        || is_bad_form(order, &offer.form)
}

/// Checks the shape of controller and form.
fn check_shape(quantised: &Quantised, offer: &Ellipsoid) -> Result<(), EllipsoidRefusal>
    ensures refusal { refusal_of result
        ≡ first_of ((bad_shape quantised.now offer.now, refusal.Shape) ∷ []) }
    ensures shape { OnOk result (IsShaped quantised.now offer.now) }
    ensures quantised { IsQuantisedView quantised.now }
{
    let _order = quantised.order(); // what is true of each controller, for the proof
    refuse_where(is_bad_shape(quantised, offer), EllipsoidRefusal::Shape)
}

/// Whether the bound isn't from 0 to the greatest word.
fn is_bad_bound(quantised: &Quantised, bound: &i64) -> bool
    ensures { result ≡ (int_lt bound.now (pos 0)
        || int_lt (hi (width quantised.now.format)) bound.now) }
{
    *bound < 0 || quantised.format().hi() < *bound
}

/// Checks the signs of the level and of the step form's factors.
fn check_step_signs(offer: &Ellipsoid) -> Result<(), EllipsoidRefusal>
    ensures { refusal_of result ≡ first_of (step_sign_tests offer.now) }
{
    refuse_where(offer.level < 0, EllipsoidRefusal::Sign { place: 0 })?;
    refuse_where(offer.lambda < 0, EllipsoidRefusal::Sign { place: 1 })?;
    refuse_where(offer.mu < 0, EllipsoidRefusal::Sign { place: 2 })
}

/// Checks the signs of the first form's factors, and the bound.
fn check_first_signs(quantised: &Quantised, offer: &Ellipsoid) -> Result<(), EllipsoidRefusal>
    ensures { refusal_of result ≡ first_of (first_sign_tests quantised.now offer.now) }
{
    refuse_where(offer.kappa < 1, EllipsoidRefusal::Sign { place: 3 })?;
    refuse_where(offer.nu < 0, EllipsoidRefusal::Sign { place: 4 })?;
    refuse_where(
        is_bad_bound(quantised, &offer.bound),
        EllipsoidRefusal::Sign { place: 5 },
    )
}

/// Checks the signs of an offer's numbers.
#[tactic(auto, using(crate::proofs::Shown::bound_where))]
fn check_signs(quantised: &Quantised, offer: &Ellipsoid) -> Result<(), EllipsoidRefusal>
    ensures refusal { refusal_of result ≡ first_of (sign_tests quantised.now offer.now) }
    ensures bound { OnOk result (HasBound quantised.now offer.now) }
{
    check_step_signs(offer)?;
    check_first_signs(quantised, offer)
}

/// Whether a is less than b.
fn is_less(a: NarrowInteger, b: NarrowInteger) -> bool
    ensures { result ≡ int_lt a b }
{
    a.get() < b.get()
}

/// Checks that the squares show the step form to be nowhere negative.
fn check_step(form: &Form, squares: &Squares) -> Result<(), EllipsoidRefusal>
    requires few { form.now.d ≤ 8 }
    requires symmetric { forms.is_symmetric form.now.d (matrix_of form.now.rows) ≡ true }
    ensures { refusal_of result ≡ option_map refusal.Step (forms.first_of
        (forms.semidefinite_tests part.Fall form.now.d squares.now (matrix_of form.now.rows)
        (λ i j. []))) }
{
    match check_semidefinite(form, squares, OfferPart::Fall) {
        Ok(()) => Ok(()),
        Err(refusal) => Err(EllipsoidRefusal::Step(refusal)),
    }
}

/// Checks that the squares show the first form to be nowhere negative.
fn check_first(form: &Form, squares: &Squares) -> Result<(), EllipsoidRefusal>
    requires few { form.now.d ≤ 8 }
    requires symmetric { forms.is_symmetric form.now.d (matrix_of form.now.rows) ≡ true }
    ensures { refusal_of result ≡ option_map refusal.First (forms.first_of
        (forms.semidefinite_tests part.Fall form.now.d squares.now (matrix_of form.now.rows)
        (λ i j. []))) }
{
    match check_semidefinite(form, squares, OfferPart::Fall) {
        Ok(()) => Ok(()),
        Err(refusal) => Err(EllipsoidRefusal::First(refusal)),
    }
}

/// Checks what an offer claims, by numbers that aren't too wide: the level, both forms, the bound
/// and the intervals.
#[tactic(auto, using(crate::proofs::Shown::squares_same))]
fn check_claims(
    quantised: &Quantised,
    offer: &Ellipsoid,
    sizes: Sizes,
    forms: &TestedForms,
) -> Result<(), EllipsoidRefusal>
    requires shape { IsShaped quantised.now offer.now }
    requires bound { HasBound quantised.now offer.now }
    requires sizes { sizes ≡ sizes_of quantised.now offer.now }
    requires step { StandsFor (suc (order quantised.now))
        (step_form (order quantised.now) (vector_of quantised.now.a) offer.now) forms.now.step }
    requires first { StandsFor (order quantised.now) (first_form offer.now) forms.now.first }
    ensures { refusal_of result ≡ first_of (claim_tests quantised.now offer.now) }
{
    refuse_where(is_less(sizes.before, sizes.after), EllipsoidRefusal::Level)?;
    check_step(&forms.step, &offer.step)?;
    check_first(&forms.first, &offer.first)?;
    refuse_where(!is_less(sizes.reach, sizes.limit), EllipsoidRefusal::Bound)?;
    check_intervals(quantised, &offer.bound)
}

/// Checks that an ellipsoid is good for a controller: that in no run from registers of zeros,
/// whatever its inputs in range are, any exact value leaves the words. It takes no memory.
///
/// # Errors
///
/// The first test that refuses, in the order of the variants of `EllipsoidRefusal` and of their
/// places.
#[tactic(auto, using(crate::proofs::Shown::accepted_offers))]
pub fn check_ellipsoid(quantised: &Quantised, offer: &Ellipsoid) -> Result<(), EllipsoidRefusal>
    // The offer is accepted exactly where no test refuses.
    ensures refusal { refusal_of result ≡ ellipsoid_refusal quantised.now offer.now }
    ensures good { IfOk result (λ _. IsGood quantised.now offer.now) }
    // No list of inputs in range, of any length, breaks the written equations.
    ensures never { IfOk result (λ _. NeverBreaks quantised.now) }
    // Each exact value of each sample lies in its interval, the output within the bound, and the
    // form of the last outputs is never greater than the level.
    ensures kept { IfOk result (λ _. StaysKept quantised.now offer.now) }
{
    check_shape(quantised, offer)?;
    check_signs(quantised, offer)?;
    let sizes = sizes_of(quantised, offer)?;
    let forms = tested_forms(quantised, offer)?;
    check_claims(quantised, offer, sizes, &forms)
}
