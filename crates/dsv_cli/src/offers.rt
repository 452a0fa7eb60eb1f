// What becomes of ellipsoids: of one that is offered, or that is sought.
ghost use Rattle.std.specs.Prelude.{◌≡◌, ◌≤◌, ℕ, IfOk, IfErr};
ghost use Rattle.dsv_bounded.specs.RunAnswers.{IsTooLarge};
ghost use Rattle.dsv_bounded.specs.RunQuestions.{IsWithin};
ghost use Rattle.dsv_invariant.specs.Limits.{unbounded_samples};
ghost use Rattle.dsv_report.specs.declared.stop.Stop.TheVariants as stop;
ghost use Rattle.dsv_cli.specs.Causes.{IsPlain};
ghost use Rattle.dsv_cli.specs.Ellipsoids.{IsOfOffer, IsOfSoughtEllipsoid};
ghost use Rattle.dsv_realise.specs.Controllers.{of_controller};

use dsv_certfile::Ellipsoid;
use dsv_ellipsoid::{check_ellipsoid, ellipsoid_offer};
use dsv_invariant::accept_unbounded;
use dsv_quantiser::Quantised;
use dsv_report::{Answer, Stop};

/// Refuses a controller whose job over runs of any length is too large.
fn accept_size(quantised: &Quantised) -> Result<(), Stop>
    ensures within { IfOk result (λ _. IsWithin (of_controller quantised.now) unbounded_samples) }
    ensures refused { IfErr result (λ why. (size : ℕ) × (why ≡ stop.JobSize size)
        × IsTooLarge unbounded_samples (of_controller quantised.now) size) }
{
    match accept_unbounded(quantised) {
        Ok(()) => Ok(()),
        Err(refusal) => Err(Stop::JobSize { size: refusal.size }),
    }
}

/// The answer for an ellipsoid that is offered.
pub(crate) fn offer_answer(quantised: &Quantised, offer: &Ellipsoid) -> Result<Answer, Stop>
    requires { offer.now.form.d ≤ 8 }
    ensures offered { IsOfOffer offer.now quantised.now result }
    ensures plain { IsPlain result }
{
    accept_size(quantised)?;
    check_ellipsoid(quantised, offer)?;
    Ok(Answer::InEllipsoid(*offer))
}

/// The answer where an ellipsoid is to be found.
pub(crate) fn sought_answer(quantised: &Quantised) -> Result<Answer, Stop>
    ensures sought { IsOfSoughtEllipsoid quantised.now result }
    ensures plain { IsPlain result }
{
    accept_size(quantised)?;
    let _order = quantised.order(); // what is true of each controller, for the proof
    match ellipsoid_offer(quantised) {
        Some(offer) => Ok(Answer::FoundEllipsoid(offer)),
        None => Ok(Answer::NoEllipsoid),
    }
}
