// Answers whether a quantised controller has a property of its roots.
ghost use Rattle.std.specs.Prelude.{◌≡◌, true, IfOk};
ghost use Rattle.dsv_report.specs.Printing.{HasPlaces};
ghost use Rattle.dsv_cli.specs.Causes.{IsDecision, IsOfProperty};
ghost use Rattle.dsv_cli.specs.Proposers.{IsAsked};

use crate::forms::{FormAnswer, decide};
use dsv_command::RootQuestion;
use dsv_delta::PolyWide;
use dsv_forms::Poly;
use dsv_lyapunov::{CheckedForm, FormProposer};
use dsv_poly_table::poly_finding;
use dsv_quantiser::Quantised;
use dsv_report::{Answer, Stop};
use dsv_tested::{Tested, polynomial_of, side_of};
use std::alloc::Global;

/// The answer that decides a polynomial, by its closed form, by its Schur-Cohn form if that is
/// asked for, or by what the proposers offer; and if no offer is accepted, by its table, if the
/// Schur-Cohn form was asked for.
pub(crate) fn polynomial_answer(
    alloc: Global,
    poly: Poly,
    schur_cohn: bool,
    forms: &mut Vec<Box<dyn FormProposer>>,
) -> Result<Answer, Stop>
    ensures decision { IsDecision schur_cohn poly result }
    ensures places { IfOk result HasPlaces }
    ensures proposers { IsAsked (λ b. b.ptr) (λ b. last b) (λ b cs. sure b cs)
        (λ b cs. to_come b cs) (schur_cohn ≡ true) forms.old.items forms.new.items result }
{
    let _words = poly.coefficients(); // what is true of them, for the proof
    match decide(alloc, &poly, schur_cohn, forms)? {
        FormAnswer::Checked(CheckedForm::Falls { offer, fall }) => {
            Ok(Answer::Falls { poly, offer, fall })
        }
        FormAnswer::Checked(CheckedForm::KeptAway { offer, fall, value }) => Ok(Answer::KeptAway {
            poly,
            offer,
            fall,
            value,
        }),
        FormAnswer::NoForm { .. } if schur_cohn => {
            Ok(Answer::OfTable(poly_finding(&poly, alloc)?))
        }
        FormAnswer::NoForm { kept, jury } => Ok(Answer::NoForm { poly, kept, jury }),
    }
}

/// The answer whether the controller has the property.
pub(crate) fn roots_answer(
    alloc: Global,
    quantised: &Quantised,
    question: &RootQuestion,
    forms: &mut Vec<Box<dyn FormProposer>>,
) -> Result<Answer, Stop>
    ensures property { IsOfProperty question.now.property question.now.schur_cohn quantised.now
        result }
    ensures places { IfOk result HasPlaces }
    ensures proposers { IsAsked (λ b. b.ptr) (λ b. last b) (λ b cs. sure b cs)
        (λ b cs. to_come b cs) (question.now.schur_cohn ≡ true) forms.old.items forms.new.items
        result }
{
    match polynomial_of(quantised, side_of(question.property)) {
        Ok(Tested::Poly(poly)) => polynomial_answer(alloc, poly, question.schur_cohn, forms),
        Ok(Tested::NoZeros) => Ok(Answer::NoZeros),
        Err(PolyWide { index }) => Ok(Answer::Wide { index }),
    }
}
