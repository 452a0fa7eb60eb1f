// Questions about runs that a search decides.
ghost use Rattle.std.specs.Prelude.{◌≡◌, ◌≤◌, ◌↔◌, ◌^◌, ℕ, List, IfOk, IfSome};
ghost use Rattle.dsv_cnf.specs.Formula.{IsSatisfiable};
ghost use Rattle.dsv_hints.specs.Lessons.{IsRefutation, IsSpent};
ghost use Rattle.dsv_hints.specs.Searches.{IfHappens, IfNever, IfSpent};
ghost use Rattle.dsv_term.specs.Building.{Built, built_of};
ghost use Rattle.dsv_term.specs.Terms.{AreValues};
ghost use Rattle.dsv_bounded.specs.Formulas.{formula_of};
ghost use Rattle.dsv_bounded.specs.Questions.{Asks, NoneHave, SomeHave};

use crate::decision::decide;
use crate::goal_clauses::goal_formula;
use dsv_base::NoMemory;
use dsv_cnf::Formula;
use dsv_hints::Searched;
use dsv_term::Goal;
use std::alloc::Global;

/// A question whether something happens: whether the inputs of its goal have values that are what
/// is asked.
pub(crate) trait Question {
    /// What shows that it happens.
    type Found: Drop;

    /// The widths of the values.
    ghost widths: { Self → List ℕ };

    /// Whether values are what is asked.
    ghost asked: { Self → List ℕ → Type 0 };

    /// The goal.
    ghost made: { Self → Built };

    /// Whether it happens by this.
    ghost shown: { Self → Self.Found → Type 0 };

    /// What is found without a search.
    fn offer(&self, alloc: Global) -> Result<Option<Self::Found>, NoMemory>
        ensures { IfOk result (λ found. IfSome found (shown self.now)) };

    /// The goal whether some values are what is asked.
    fn goal(&self, alloc: Global) -> Result<Goal, NoMemory>
        ensures made { IfOk result (λ goal. built_of goal.terms goal.root ≡ made self.now) }
        ensures asks { IfOk result
            (λ goal. Asks goal.terms goal.root (widths self.now) (asked self.now)) };

    /// What values that are what is asked show, by a replay.
    fn replay(&self, alloc: Global, values: &[u128]) -> Result<Self::Found, NoMemory>
        requires fit { AreValues (widths self.now) values.now }
        requires are { asked self.now values.now }
        ensures { IfOk result (shown self.now) };
}

/// The formula of a question.
pub(crate) fn formula<Q: Question>(alloc: Global, question: &Q) -> Result<Formula, NoMemory>
    ensures formula { IfOk result (λ f. f ≡ formula_of (Q.made question.now)) }
    ensures told { IfOk result (λ f. IsSatisfiable f.clauses
        ↔ SomeHave (Q.widths question.now) (Q.asked question.now)) }
{
    let goal = question.goal(alloc)?;
    let blasted = goal_formula(alloc, goal)?;
    Ok(blasted.formula)
}

/// The answer to a question: first what is offered, and then a search that learns at most so many
/// clauses.
pub(crate) fn answer<Q: Question>(
    alloc: Global,
    question: &Q,
    conflicts: u32,
) -> Result<Searched<Q::Found>, NoMemory>
    requires allowed { 1 ≤ conflicts }
    requires limited { conflicts ≤ 2 ^ 30 }
    ensures never { IfOk result
        (IfNever (λ log. NoneHave (Q.widths question.now) (Q.asked question.now))) }
    ensures refuted { IfOk result
        (IfNever (IsRefutation (formula_of (Q.made question.now)) conflicts)) }
    ensures happens { IfOk result (IfHappens (Q.shown question.now)) }
    ensures spent { IfOk result
        (IfSpent (IsSpent (formula_of (Q.made question.now)) conflicts)) }
{
    if let Some(found) = question.offer(alloc)? {
        return Ok(Searched::Happens(found));
    }
    let goal = question.goal(alloc)?;
    match decide(alloc, goal, conflicts)? {
        Searched::Never(log) => Ok(Searched::Never(log)),
        Searched::Happens(values) => Ok(Searched::Happens(question.replay(
            alloc,
            values.as_slice(),
        )?)),
        Searched::Spent(log) => Ok(Searched::Spent(log)),
    }
}
