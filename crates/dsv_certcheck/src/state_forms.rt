// The check of a certificate's form against a state-space controller.
ghost use Rattle.std.specs.Prelude.{◌≡◌, ◌≤◌, IfOk};
ghost use Rattle.dsv_certcheck.specs.StateChecks.{is_stability, state_offer_check, state_check};
ghost use Rattle.dsv_certcheck.specs.StateChecks.{Offers};
ghost use Rattle.dsv_certcheck.specs.Checks.{as_checked};
ghost use Rattle.dsv_state_space.specs.StateForms.{FallsAlongStates, IsStateLoss};

use crate::check_refusal::CheckRefusal;
use crate::line_numbers::{JOB_LINE, form_line};
use dsv_certfile::{CertWords, Certificate, CheckFault};
use dsv_forms::{Falls, Form};
use dsv_names::{Property, RootProperty};
use dsv_state_space::{StateSystem, check_state_falls};

/// A form that falls along the states of a controller, as a certificate offers it, and what it
/// loses in a step. Both have a place for each state.
#[derive(Clone, Copy)]
pub struct StateForm {
    /// The form, with the squares that show its sign and that of what it loses.
    pub offer: Falls,
    /// What the form loses in a step.
    pub loss: Form,
}

/// Whether the property is stability.
fn is_stability(property: Property) -> bool
    ensures { result ≡ is_stability property }
{
    match property {
        Property::OfRoots(RootProperty::Stability) => true,
        _ => false,
    }
}

/// Checks that a form falls along the states of the controller without input.
fn check_state_offer(
    system: &StateSystem,
    words: CertWords,
    offer: &Falls,
) -> Result<StateForm, CheckRefusal>
    ensures found { as_checked result ≡ state_offer_check words system.now offer.now }
    ensures offered { IfOk result (λ f. f.offer ≡ offer.now) }
    ensures falls { IfOk result (λ f. FallsAlongStates system.now f.offer.form) }
    ensures loss { IfOk result (λ f. IsStateLoss system.now f.offer.form f.loss) }
    ensures places { IfOk result (λ f. (f.offer.form.d ≤ 8) × (f.loss.d ≤ 8)) }
{
    if offer.form.d != system.states() {
        return Err(CheckRefusal::misfit(words));
    }
    match check_state_falls(system, offer) {
        Ok(loss) => Ok(StateForm {
            offer: *offer,
            loss,
        }),
        Err(refusal) => Err(CheckRefusal::Line {
            line: form_line(words, offer, refusal),
            fault: CheckFault::Form,
        }),
    }
}

/// Checks that a certificate's form falls along the states of the controller without input. Of the
/// certificate's job the property alone counts: it has to be stability, and neither the design nor
/// the format is compared with the controller's. It takes no memory.
///
/// # Errors
///
/// The first line whose claim isn't so: the kind, where it is another than a form that falls; the
/// job, where its property isn't stability; the kind again, where the form has another number of
/// places than there are states; and the first line of the form that its check refuses.
pub fn check_state_form(
    system: &StateSystem,
    certificate: &Certificate,
) -> Result<StateForm, CheckRefusal>
    ensures found { as_checked result ≡ state_check system.now certificate.now }
    ensures offered { IfOk result (λ f. Offers certificate.now f.offer) }
    ensures falls { IfOk result (λ f. FallsAlongStates system.now f.offer.form) }
    ensures loss { IfOk result (λ f. IsStateLoss system.now f.offer.form f.loss) }
    ensures places { IfOk result (λ f. (f.offer.form.d ≤ 8) × (f.loss.d ≤ 8)) }
{
    match certificate {
        Certificate::Falls { job, offer } if is_stability(job.property) => {
            check_state_offer(system, job.words, offer)
        }
        Certificate::Falls { .. } => Err(CheckRefusal::Line {
            line: JOB_LINE,
            fault: CheckFault::Shape,
        }),
        other => Err(CheckRefusal::misfit(other.job().words)),
    }
}
