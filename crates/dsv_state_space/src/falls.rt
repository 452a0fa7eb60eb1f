// The check of an offer of a form that falls along the states without input.
//
// Lyapunov's direct method for x' = A x in words: with q = 2^frac_bits the step is A divided by q,
// so that what the form P loses in a step is q^2 P - A^T P A, in whole numbers.
ghost use Rattle.std.specs.Prelude.{◌≡◌, ◌<◌, ◌≤◌, ◌^◌, [], ◌∷◌, pos, true, IfOk, OnOk};
ghost use Rattle.std.specs.List.{flat_map};
ghost use Rattle.dsv_algebra.specs.Falling.{fall_form};
ghost use Rattle.dsv_algebra.specs.Vectors.{matrix_of};
ghost use Rattle.dsv_forms.specs.Poly.{greatest_order};
ghost use Rattle.dsv_forms.specs.Refusals.{refusal_of, first_of, form_tests, is_symmetric};
ghost use Rattle.dsv_forms.specs.Refusals.{places, any_wide};
ghost use Rattle.dsv_forms.specs.Sums.{sum_with, sum_from, product};
ghost use Rattle.dsv_forms.specs.declared.refusal.OfferPart.TheVariants as part;
ghost use Rattle.dsv_forms.specs.declared.refusal.FormRefusal.TheVariants as refusal;
ghost use Rattle.dsv_state_space.specs.Losses.{row_summands, loss_sum, IsLossRow};
ghost use Rattle.dsv_state_space.specs.StateForms.{one_of, state_falls_refusal, FallsAlongStates};
ghost use Rattle.dsv_state_space.specs.StateForms.{IsStateLoss, loss_numbers, loss_row_tests};
ghost use Rattle.dsv_state_space.specs.StateForms.{loss_tests};
ghost use Rattle.dsv_state_space.specs.StateView.{states};

use crate::system::StateSystem;
use dsv_algebra::NarrowInteger;
use dsv_forms::{
    Falls, Form, FormRefusal, GREATEST_ORDER, OfferPart, check_definite, negation, number_of,
    sum_with_product,
};

/// A place of a form.
#[derive(Clone, Copy)]
pub(crate) struct Corner {
    pub(crate) row: usize,
    pub(crate) column: usize,
}

/// The word of the number 1, whether or not it is a word of the format.
#[tactic(auto, using(dsv_word::proofs::Powers::power_small))]
fn one(system: &StateSystem) -> i64
    ensures { result ≡ one_of system.now }
{
    1i64 << system.format().frac_bits
}

/// The entry of A in a row and a column.
fn state_entry(system: &StateSystem, i: usize, j: usize) -> i64
    requires row { i < states system.now }
    requires column { j < states system.now }
    ensures { result ≡ matrix_of system.now.a i j }
{
    system.a()[i].as_slice()[j]
}

/// The sum less the products of an entry of A and a row of the form, where no number on the way is
/// too wide.
fn sum_less_row(
    sum: NarrowInteger,
    system: &StateSystem,
    form: &Form,
    at: Corner,
    k: usize,
) -> Option<NarrowInteger>
    requires row { at.row < states system.now }
    requires column { at.column < states system.now }
    requires inside { k < states system.now }
    ensures { result ≡ sum_from sum (row_summands (states system.now) (matrix_of system.now.a)
        (matrix_of form.now.rows) at.row at.column k) }
{
    let factor = negation(&state_entry(system, k, at.row));
    let mut sum = sum;
    for l in 0..system.states() as usize {
        let other = number_of(&state_entry(system, l, at.column));
        sum = sum_with_product(sum, factor, other, form.entry(k, l))?;
    }
    Some(sum)
}

/// The sum less an entry of the form after a step, where no number on the way is too wide.
pub(crate) fn sum_less_image(
    sum: NarrowInteger,
    system: &StateSystem,
    form: &Form,
    at: Corner,
) -> Option<NarrowInteger>
    requires row { at.row < states system.now }
    requires column { at.column < states system.now }
    ensures { result ≡ sum_from sum (flat_map (row_summands (states system.now)
        (matrix_of system.now.a) (matrix_of form.now.rows) at.row at.column)
        (places (states system.now))) }
{
    let mut sum = sum;
    for k in 0..system.states() as usize {
        sum = sum_less_row(sum, system, form, at, k)?;
    }
    Some(sum)
}

/// The entry of the form times q^2, where it isn't too wide.
fn scaled_entry(system: &StateSystem, form: &Form, at: Corner) -> Option<NarrowInteger>
    requires row { at.row < states system.now }
    requires column { at.column < states system.now }
    ensures { result ≡ sum_with (pos 0) (product (one_of system.now) (one_of system.now)
        (matrix_of form.now.rows at.row at.column)) }
{
    let _states = system.states(); // their range, for the proof
    let one = number_of(&one(system));
    sum_with_product(
        NarrowInteger::from(0i64),
        one,
        one,
        form.entry(at.row, at.column),
    )
}

/// An entry of what the form loses in a step, where no number on the way is too wide.
fn loss_entry(system: &StateSystem, form: &Form, at: Corner) -> Option<NarrowInteger>
    requires row { at.row < states system.now }
    requires column { at.column < states system.now }
    ensures { result ≡ loss_sum (states system.now) (one_of system.now)
        (matrix_of system.now.a) (matrix_of form.now.rows) at.row at.column }
{
    let sum = scaled_entry(system, form, at)?;
    sum_less_image(sum, system, form, at)
}

/// An entry of what the form loses in a step. It is refused where a number on the way passes 2^126.
fn tested_entry(system: &StateSystem, form: &Form, at: Corner) -> Result<NarrowInteger, FormRefusal>
    requires row { at.row < states system.now }
    requires column { at.column < states system.now }
    ensures refusal { refusal_of result ≡ first_of ((
      any_wide (loss_numbers (states system.now)
          (one_of system.now) (matrix_of system.now.a) (matrix_of form.now.rows) at.row at.column),
      refusal.Wide part.Fall at.row at.column,
    ) ∷ []) }
    ensures entry { IfOk result (λ entry. entry ≡ fall_form (states system.now)
        (one_of system.now) (matrix_of system.now.a) (matrix_of form.now.rows)
        at.row at.column) }
{
    let _states = system.states(); // their range, for the proof
    match loss_entry(system, form, at) {
        Some(entry) => Ok(entry),
        None => Err(FormRefusal::Wide {
            part: OfferPart::Fall,
            i: at.row as u32,
            j: at.column as u32,
        }),
    }
}

/// A row of what the form loses in a step.
fn loss_row(
    system: &StateSystem,
    form: &Form,
    i: usize,
) -> Result<[i128; GREATEST_ORDER], FormRefusal>
    requires { i < states system.now }
    ensures refusal { refusal_of result ≡ first_of (loss_row_tests (states system.now)
        (one_of system.now) (matrix_of system.now.a) (matrix_of form.now.rows) i) }
    ensures row { IfOk result (IsLossRow (states system.now) (one_of system.now)
        (matrix_of system.now.a) (matrix_of form.now.rows) i) }
{
    let mut row = [0; GREATEST_ORDER];
    for j in 0..system.states() as usize {
        row[j] = tested_entry(system, form, Corner { row: i, column: j })?.get();
    }
    Ok(row)
}

/// What the form loses in a step. It is refused at the first entry, row by row, with a number on
/// the way that passes 2^126.
pub(crate) fn loss_form(system: &StateSystem, form: &Form) -> Result<Form, FormRefusal>
    ensures refusal { refusal_of result ≡ first_of (loss_tests (states system.now)
        (one_of system.now) (matrix_of system.now.a) (matrix_of form.now.rows)) }
    ensures loss { IfOk result (IsStateLoss system.now form.now) }
{
    let d = system.states();
    let mut rows = [[0; GREATEST_ORDER]; GREATEST_ORDER];
    for i in 0..d as usize {
        rows[i] = loss_row(system, form, i)?;
    }
    Ok(Form { d, rows })
}

/// Checks that a form has as many places as there are states, and is symmetric in them.
fn check_form(system: &StateSystem, form: &Form) -> Result<(), FormRefusal>
    ensures refusal { refusal_of result ≡ first_of (form_tests (states system.now) form.now) }
    ensures places { OnOk result (form.now.d ≡ states system.now) }
    ensures few { OnOk result (form.now.d ≤ greatest_order) }
    ensures symmetric { OnOk result (is_symmetric form.now.d (matrix_of form.now.rows) ≡ true) }
{
    let states = system.states();
    if form.d != states || !form.is_symmetric() {
        return Err(FormRefusal::Shape {
            part: OfferPart::Form,
        });
    }
    Ok(())
}

/// Checks that the offer shows a form which strictly falls along the states of the controller
/// without input, and gives what the form loses in a step. It takes no memory.
///
/// # Errors
///
/// The first test that refuses: the form's shape, the squares of the form itself, the numbers on
/// the way to what it loses, and the squares of that.
pub fn check_state_falls(system: &StateSystem, offer: &Falls) -> Result<Form, FormRefusal>
    // The offer is accepted exactly where no test refuses.
    ensures refusal { refusal_of result ≡ state_falls_refusal system.now offer.now }
    ensures falls { IfOk result (λ _. FallsAlongStates system.now offer.now.form) }
    ensures loss { IfOk result (IsStateLoss system.now offer.now.form) }
    ensures places { OnOk result (offer.now.form.d ≡ states system.now) }
{
    check_form(system, &offer.form)?;
    check_definite(&offer.form, &offer.positive, OfferPart::Positive)?;
    let loss = loss_form(system, &offer.form)?;
    check_definite(&loss, &offer.fall, OfferPart::Fall)?;
    Ok(loss)
}
