// Forms that their check accepts.
ghost use Rattle.std.specs.Prelude.{◌≡◌, IfOk};
ghost use Rattle.dsv_closed_forms.specs.ClosedForm.{IsAccepted};
ghost use Rattle.dsv_forms.specs.Refusals.{refusal_of};
ghost use Rattle.dsv_lyapunov.specs.Answers.{offer_refusal, offer_in, IsShown};

use dsv_forms::{
    Falls, Form, FormOffer, FormRefusal, KeptAway, Poly, check_falls, check_kept_away,
};

/// An offer that its check accepts, and what the check finds.
#[derive(Clone, Copy, Debug, PartialEq, Eq)]
pub enum CheckedForm {
    /// The offer's form strictly falls along each trajectory, and loses `fall` in a step.
    Falls {
        offer: Falls,
        fall: Form,
    },
    /// The offer's form has this negative value at the offer's start, rises along no trajectory,
    /// and loses `fall` in a step.
    KeptAway {
        offer: KeptAway,
        fall: Form,
        value: i128,
    },
}

/// Checks an offer of either kind. It takes no memory.
pub fn check_offer(poly: &Poly, offer: &FormOffer) -> Result<CheckedForm, FormRefusal>
    // The first test that refuses, in their order; the offer is accepted exactly where none does.
    ensures refusal { refusal_of result ≡ offer_refusal poly.now offer.now }
    ensures same { IfOk result (λ found. offer_in found ≡ offer.now) }
    ensures shown { IfOk result (λ found. IsShown poly.now found) }
{
    match offer {
        FormOffer::Falls(offer) => {
            let fall = check_falls(poly, offer)?;
            Ok(CheckedForm::Falls {
                offer: *offer,
                fall,
            })
        }
        FormOffer::KeptAway(offer) => {
            let (fall, value) = check_kept_away(poly, offer)?;
            Ok(CheckedForm::KeptAway {
                offer: *offer,
                fall,
                value,
            })
        }
    }
}

/// The checked form of an offer that its check accepts. It takes no memory.
pub fn accepted_form(poly: &Poly, offer: &FormOffer) -> CheckedForm
    requires { IsAccepted poly.now offer.now }
    ensures same { offer_in result ≡ offer.now }
    ensures shown { IsShown poly.now result }
{
    match check_offer(poly, offer) {
        Ok(found) => found,
        Err(_) => unreachable!(),
    }
}
