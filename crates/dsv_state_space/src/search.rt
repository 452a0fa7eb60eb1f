// The search for a form that falls along the states without input. It needs no trust: what it
// offers has passed the check.
//
// As for polynomials (`dsv_sums`), the partial sums of the series that solves Lyapunov's equation
// are tried after 1, 2, 4, .. 2048 steps: with B = 2^20 on the diagonal, P_0 = B and P_(t+1) = B +
// A^T P_t A / q^2, each entry rounded down, with squares by rounded elimination for the form and
// for what it loses in a step.
ghost use Rattle.std.specs.Prelude.{◌≡◌, ◌<◌, ◌^◌, None, IfSome};
ghost use Rattle.dsv_sums.specs.SumForms.{most_looks};
ghost use Rattle.dsv_state_space.specs.StateForms.{state_falls_refusal};
ghost use Rattle.dsv_state_space.specs.StateView.{states};

use crate::falls::{Corner, check_state_falls, loss_form, sum_less_image};
use crate::system::StateSystem;
use dsv_algebra::NarrowInteger;
use dsv_forms::{Falls, Form, GREATEST_ORDER};
use dsv_sums::{MOST_LOOKS, squares_of};

/// The entries on the diagonal of the first form, which each step adds.
const BASE: i64 = 1 << 20;

/// The least size that an entry of a form may not have.
const ENTRY_LIMIT: u128 = 1 << 60;

/// An entry of the first form.
fn base_entry(at: Corner) -> NarrowInteger {
    NarrowInteger::from(if at.row == at.column { BASE } else { 0 })
}

/// An entry of the form after a step, where no number on the way is too great.
fn next_entry(system: &StateSystem, form: &Form, at: Corner) -> Option<NarrowInteger>
    requires row { at.row < states system.now }
    requires column { at.column < states system.now }
{
    let zero = NarrowInteger::from(0i64);
    let negative = sum_less_image(zero, system, form, at)?;
    let image = zero.checked_sub(negative)?.get() >> (2 * system.format().frac_bits);
    let entry = base_entry(at).checked_add(NarrowInteger::from(image))?;
    if entry.get().unsigned_abs() < ENTRY_LIMIT {
        Some(entry)
    } else {
        None
    }
}

/// A row of the form after a step.
fn next_row(system: &StateSystem, form: &Form, i: usize) -> Option<[i128; GREATEST_ORDER]>
    requires { i < states system.now }
{
    let mut row = [0; GREATEST_ORDER];
    for j in 0..system.states() as usize {
        let at = Corner {
            row: i.min(j),
            column: i.max(j),
        };
        row[j] = next_entry(system, form, at)?.get();
    }
    Some(row)
}

/// The form after a step.
fn next_form(system: &StateSystem, form: &Form) -> Option<Form>
    ensures { IfSome result (λ next. next.d ≡ states system.now) }
{
    let d = system.states();
    let mut rows = [[0; GREATEST_ORDER]; GREATEST_ORDER];
    for i in 0..d as usize {
        rows[i] = next_row(system, form, i)?;
    }
    Some(Form { d, rows })
}

/// The form with which the steps begin.
fn first_form(system: &StateSystem) -> Form
    ensures { result.d ≡ states system.now }
{
    let d = system.states();
    let mut rows = [[0; GREATEST_ORDER]; GREATEST_ORDER];
    for i in 0..d as usize {
        rows[i][i] = i128::from(BASE);
    }
    Form { d, rows }
}

/// The form after so many steps.
fn form_after(system: &StateSystem, form: Form, steps: u32) -> Option<Form>
    requires { form.d ≡ states system.now }
    ensures { IfSome result (λ next. next.d ≡ states system.now) }
{
    let mut form = form;
    for _ in 0..steps {
        form = next_form(system, &form)?;
    }
    Some(form)
}

/// The form with squares by rounded elimination, where the check accepts it with them.
fn offer_with(system: &StateSystem, form: &Form) -> Option<Falls>
    requires { form.now.d ≡ states system.now }
    ensures { IfSome result (λ offer. state_falls_refusal system.now offer ≡ None) }
{
    let _states = system.states(); // their range, for the proof
    if !form.is_symmetric() {
        return None;
    }
    let positive = squares_of(form)?;
    let loss = loss_form(system, form).ok()?;
    if !loss.is_symmetric() {
        return None;
    }
    let fall = squares_of(&loss)?;
    let offer = Falls {
        form: *form,
        positive,
        fall,
    };
    match check_state_falls(system, &offer) {
        Ok(_) => Some(offer),
        Err(_) => None,
    }
}

/// The number of steps at a look.
fn steps_at(look: u32) -> u32
    requires { look < most_looks }
    ensures { result ≡ 2 ^ look }
{
    1 << look
}

/// An offer of a form that the check accepts, where one of the partial sums has such squares. The
/// search ends where a form has an entry that passes 2^60, or a number on the way to it 2^126. It
/// takes no memory.
pub fn state_offer(system: &StateSystem) -> Option<Falls>
    ensures { IfSome result (λ offer. state_falls_refusal system.now offer ≡ None) }
{
    let mut form = first_form(system);
    let mut steps = 0;
    for look in 0..MOST_LOOKS {
        let wanted = steps_at(look);
        form = form_after(system, form, wanted - steps)?;
        steps = wanted;
        if let Some(offer) = offer_with(system, &form) {
            return Some(offer);
        }
    }
    None
}
