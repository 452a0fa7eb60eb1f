// Decides a polynomial by a form that is checked.
ghost use Rattle.std.specs.Prelude.{◌≡◌, ◌⊎◌, [], true, Some, None, IfOk, IfSome};
ghost use Rattle.dsv_closed_forms.specs.ClosedForm.{closed_form_of, IsAccepted};
ghost use Rattle.dsv_jury.specs.Jury.{jury_of};
ghost use Rattle.dsv_lyapunov.specs.Answers.{offer_in, IsShown};
ghost use Rattle.dsv_cli.specs.Asking.{form_of, IfChecked, IfNoForm, IsChecked};
ghost use Rattle.dsv_lyapunov.specs.Kept.{IsRefused, AreRefused};
ghost use Rattle.dsv_base.specs.Lists.{AreBlocks, IsTurn};
ghost use Rattle.dsv_cli.specs.Proposers.{offers_in, told_of, IsBeyond};
ghost use Rattle.dsv_base.specs.Lists.{IsSuffix, IfFirst, HoldsOfNone};
ghost use Rattle.dsv_cli.specs.Turns.{IfAccepted, IfRefused, IsNotAccepted};

use crate::turns::{Turn, first_accepted};
use dsv_base::NoMemory;
use dsv_closed_forms::closed_form;
use dsv_forms::{FormOffer, Poly};
use dsv_jury::{Jury, jury};
use dsv_lyapunov::{CheckedForm, FormProposer, KeptForm, KeptForms, accepted_form, check_offer};
use dsv_schur_cohn::schur_cohn_offer;
use std::alloc::Global;

/// What was found of a polynomial.
#[derive(Drop)]
pub enum FormAnswer {
    /// A form shows whether its trajectories fall.
    Checked(CheckedForm),
    /// It has no closed form, and no proposer offered a form that is accepted: all offers with
    /// their refusals, and what Jury's recursion says.
    NoForm { kept: KeptForms, jury: Jury },
}

/// What comes of asking the proposers in their order ([`first_accepted`]).
fn asked_answer(
    alloc: Global,
    poly: &Poly,
    forms: &mut Vec<Box<dyn FormProposer>>,
) -> Result<FormAnswer, NoMemory>
    ensures suffix { IsSuffix (λ b. b.ptr) forms.old.items forms.new.items }
    ensures shown { IfOk result (λ a. IfChecked a (λ found. IsShown poly.now found)) }
    ensures accepted { IfOk result (λ a. IfChecked a (λ found.
        IsAccepted poly.now (offer_in found))) }
    ensures last { IfOk result (λ a. IfChecked a (λ found.
        IfFirst forms.new.items (λ b. last b ≡ Some (offer_in found)))) }
    ensures none_left { IfOk result (λ a. IfNoForm a (λ kept verdict. forms.new.items ≡ [])) }
    ensures causes { IfOk result (λ a. IfNoForm a (λ kept verdict. AreRefused poly.now kept)) }
    ensures blocks { IfOk result (λ a. IfNoForm a (λ kept verdict. AreBlocks 32
        (told_of (λ b cs. to_come b cs) poly.now forms.old.items) (offers_in kept))) }
    ensures sure { IfOk result (λ a. IfNoForm a (λ kept verdict.
        HoldsOfNone (λ b. sure b poly.now) forms.old.items)) }
    ensures jury { IfOk result (λ a. IfNoForm a (λ kept verdict. verdict ≡ jury_of poly.now)) }
{
    // Asks a proposer once, and tells it where its offer is refused.
    let ask = |first: &mut Box<dyn FormProposer>| -> Result<Turn<CheckedForm, KeptForm>, NoMemory>
        ensures same { first.new.ptr ≡ first.old.ptr }
        ensures accepted { IfOk result (λ came. IfAccepted came (λ found.
            IsAccepted poly.entry.now (offer_in found) × IsShown poly.entry.now found)) }
        ensures refused { IfOk result (λ came. IfRefused came (IsRefused poly.entry.now)) }
        ensures last { IfOk result (λ came. IfAccepted came (λ found.
            last first.new ≡ Some (offer_in found))) }
        ensures sure { IfOk result (λ came. IsNotAccepted came
            → sure first.old poly.entry.now → ⊥) }
        ensures turn { IfOk result (λ came. IsTurn (to_come first.old poly.entry.now)
            (to_come first.new poly.entry.now) (form_of came)) }
        ensures heard { IfOk result (λ came. IfRefused came (λ kept.
            heard first.new kept.refusal)) }
    {
        let Some(offer) = first.propose(poly) else {
            return Ok(Turn::Nothing);
        };
        match check_offer(poly, &offer) {
            Ok(found) => Ok(Turn::Accepted(found)),
            Err(refusal) => {
                first.tell(&refusal);
                Ok(Turn::Refused(KeptForm { offer, refusal }))
            }
        }
    };
    let mut kept = KeptForms::new(alloc);
    match first_accepted(forms, &mut kept, ask)? {
        Some(found) => Ok(FormAnswer::Checked(found)),
        None => Ok(FormAnswer::NoForm {
            kept,
            jury: jury(poly),
        }),
    }
}

/// The Schur-Cohn form, where it is wanted and one is accepted.
fn schur_cohn_form(poly: &Poly, wanted: bool) -> Option<CheckedForm>
    ensures accepted { IfSome result (λ found. IsAccepted poly.now (offer_in found)) }
    ensures shown { IfSome result (IsShown poly.now) }
    ensures wanted { IfSome result (λ found. wanted ≡ true) }
    ensures beyond { wanted ≡ true → result ≡ None → IsBeyond poly.now }
{
    if !wanted {
        return None;
    }
    let offer = schur_cohn_offer(poly)?;
    Some(accepted_form(poly, &offer))
}

/// Decides a polynomial by a form that is checked: its closed form, where it has one; else its
/// Schur-Cohn form, where that is wanted; and else what the proposers offer, who are asked in their
/// order. One that offers nothing, or whose 32nd offer was refused, is dropped; one whose offer is
/// accepted stays in front.
pub fn decide(
    alloc: Global,
    poly: &Poly,
    schur_cohn: bool,
    forms: &mut Vec<Box<dyn FormProposer>>,
) -> Result<FormAnswer, NoMemory>
    // Where there is a closed form, the answer is that offer; no memory is taken and nobody asked.
    ensures closed { IfSome (closed_form_of poly.now) (λ offer. IsChecked result offer) }
    ensures unasked { IfSome (closed_form_of poly.now)
        (λ offer. forms.new.items ≡ forms.old.items) }
    // What is left of the proposers: the last of them, and only the first was asked.
    ensures suffix { IsSuffix (λ b. b.ptr) forms.old.items forms.new.items }
    // A form is accepted by its check and shows what it says.
    ensures accepted { IfOk result (λ a. IfChecked a (λ found.
        IsAccepted poly.now (offer_in found))) }
    ensures shown { IfOk result (λ a. IfChecked a (λ found. IsShown poly.now found)) }
    // Where it is no closed form, it is the Schur-Cohn form and nobody was asked, or the first
    // proposer that is left gave it last.
    ensures last { closed_form_of poly.now ≡ None → IfOk result (λ a. IfChecked a (λ found.
        ((schur_cohn ≡ true) × (forms.new.items ≡ forms.old.items))
        ⊎ IfFirst forms.new.items (λ b. last b ≡ Some (offer_in found)))) }
    // No form: there is no closed form, no proposer was sure and none is left, each kept offer has
    // its refusal, and they are a block of each proposer: the first 32 of what it tells, and else
    // at most 32.
    ensures no_form { IfOk result (λ a. IfNoForm a (λ kept verdict.
        closed_form_of poly.now ≡ None)) }
    ensures none_left { IfOk result (λ a. IfNoForm a (λ kept verdict. forms.new.items ≡ [])) }
    ensures causes { IfOk result (λ a. IfNoForm a (λ kept verdict. AreRefused poly.now kept)) }
    ensures blocks { IfOk result (λ a. IfNoForm a (λ kept verdict. AreBlocks 32
        (told_of (λ b cs. to_come b cs) poly.now forms.old.items) (offers_in kept))) }
    ensures sure { IfOk result (λ a. IfNoForm a (λ kept verdict.
        HoldsOfNone (λ b. sure b poly.now) forms.old.items)) }
    ensures jury { IfOk result (λ a. IfNoForm a (λ kept verdict. verdict ≡ jury_of poly.now)) }
    // Where the Schur-Cohn form is wanted, the polynomial is none that it always decides.
    ensures beyond { schur_cohn ≡ true
        → IfOk result (λ a. IfNoForm a (λ kept verdict. IsBeyond poly.now)) }
{
    if let Some(offer) = closed_form(poly) {
        return Ok(FormAnswer::Checked(accepted_form(poly, &offer)));
    }
    if let Some(found) = schur_cohn_form(poly, schur_cohn) {
        return Ok(FormAnswer::Checked(found));
    }
    asked_answer(alloc, poly, forms)
}
