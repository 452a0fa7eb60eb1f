// Answers questions about a subject's runs.
ghost use Rattle.std.specs.Prelude.{◌≡◌};
ghost use Rattle.dsv_cli.specs.Answering.{stop_of_question, formula_outcome, overflow_outcome};
ghost use Rattle.dsv_cli.specs.Answering.{cycle_outcome};
ghost use Rattle.dsv_cli.specs.Causes.{IsPlain};
ghost use Rattle.dsv_cli.specs.Searching.{IsOfFormula, IsOfSearch};

use dsv_bounded::{BoundedRefusal, cycle_within, formula, overflow_within};
use dsv_cnf::Formula;
use dsv_command::{Budget, RunQuestion};
use dsv_hints::Searched;
use dsv_meaning::{Cycle, Trace};
use dsv_names::RunProperty;
use dsv_realise::{Asking, Subject};
use dsv_report::{Answer, Stop};
use std::alloc::Global;

/// Why there is no answer where a question is refused.
pub(crate) fn question_stop(refusal: BoundedRefusal) -> Stop
    ensures { result ≡ stop_of_question refusal }
{
    match refusal {
        BoundedRefusal::JobSize { size } => Stop::JobSize { size },
        BoundedRefusal::NoMemory => Stop::NoMemory,
    }
}

/// The answer that a formula is, or why there is none.
fn formula_found(found: Result<Formula, BoundedRefusal>) -> Result<Answer, Stop>
    ensures { result ≡ formula_outcome found }
{
    match found {
        Ok(formula) => Ok(Answer::FormulaText(formula)),
        Err(refusal) => Err(question_stop(refusal)),
    }
}

/// The answer that a search for an overflow gives, or why there is none.
fn overflow_found(found: Result<Searched<Trace>, BoundedRefusal>) -> Result<Answer, Stop>
    ensures { result ≡ overflow_outcome found }
{
    match found {
        Ok(Searched::Never(log)) => Ok(Answer::Never { log }),
        Ok(Searched::Happens(trace)) => Ok(Answer::Overflow(trace)),
        Ok(Searched::Spent(log)) => Ok(Answer::Spent { log }),
        Err(refusal) => Err(question_stop(refusal)),
    }
}

/// The answer that a search for a limit cycle gives, or why there is none.
fn cycle_found(found: Result<Searched<Cycle>, BoundedRefusal>) -> Result<Answer, Stop>
    ensures { result ≡ cycle_outcome found }
{
    match found {
        Ok(Searched::Never(log)) => Ok(Answer::Never { log }),
        Ok(Searched::Happens(cycle)) => Ok(Answer::Cycles(cycle)),
        Ok(Searched::Spent(log)) => Ok(Answer::Spent { log }),
        Err(refusal) => Err(question_stop(refusal)),
    }
}

/// The formula of a question about a subject.
pub(crate) fn formula_answer<S: Subject>(
    alloc: Global,
    subject: &S,
    question: &RunQuestion,
) -> Result<Answer, Stop>
    ensures formula { IsOfFormula question.now.property question.now.samples
        (S.view subject.now) result }
    ensures plain { IsPlain result }
{
    let asking = Asking::of(alloc, subject)?;
    formula_found(formula(alloc, &asking, question.property, question.samples))
}

/// The answer to a question, by a search.
pub(crate) fn search_answer<S: Subject>(
    alloc: Global,
    asking: &Asking<S>,
    question: &RunQuestion,
    budget: &Budget,
) -> Result<Answer, Stop>
    ensures search { IsOfSearch question.now.property question.now.samples budget.now.conflicts
        (S.view asking.now.subject.now) result }
    ensures plain { IsPlain result }
{
    let (samples, conflicts) = (question.samples, budget.conflicts);
    match question.property {
        RunProperty::Overflow => overflow_found(overflow_within(alloc, asking, samples, conflicts)),
        RunProperty::LimitCycle => cycle_found(cycle_within(alloc, asking, samples, conflicts)),
    }
}
