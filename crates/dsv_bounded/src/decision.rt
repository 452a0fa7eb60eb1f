// Goals that are decided by a search.
ghost use Rattle.std.specs.Prelude.{◌≡◌, ◌≢◌, ◌≤◌, ◌^◌, ℕ, List, IfOk};
ghost use Rattle.dsv_hints.specs.Lessons.{IsRefutation, IsSpent};
ghost use Rattle.dsv_hints.specs.Searches.{IfHappens, IfNever, IfSpent};
ghost use Rattle.dsv_term.specs.Building.{built_of};
ghost use Rattle.dsv_term.specs.Terms.{AreValues, word_of};
ghost use Rattle.dsv_bounded.specs.Formulas.{formula_of};

use crate::goal_clauses::goal_formula;
use dsv_base::NoMemory;
use dsv_blast::values_of;
use dsv_hints::Searched;
use dsv_solver::solve;
use dsv_term::{Goal, ValueList};
use std::alloc::Global;

/// Whether the root of a goal is 1 at some values of its inputs, by a search that learns at most so
/// many clauses. The goal is dropped before the search.
///
/// - `Never`: the root is 1 at no values; the log refutes the goal's formula.
/// - `Happens`: the root is 1 at these values.
/// - `Spent`: the search gave up after so many learned clauses.
pub fn decide(alloc: Global, goal: Goal, conflicts: u32) -> Result<Searched<ValueList>, NoMemory>
    requires some { 1 ≤ conflicts }
    requires few { conflicts ≤ 2 ^ 30 }
    ensures never { IfOk result (IfNever (λ log. (values : List ℕ)
        → AreValues goal.terms.inputs values
        → (word_of goal.terms values goal.root).number ≢ 1)) }
    ensures refuted { IfOk result
        (IfNever (IsRefutation (formula_of (built_of goal.terms goal.root)) conflicts)) }
    ensures happens { IfOk result (IfHappens (λ values.
        AreValues goal.terms.inputs values
        × ((word_of goal.terms values goal.root).number ≡ 1))) }
    ensures spent { IfOk result
        (IfSpent (IsSpent (formula_of (built_of goal.terms goal.root)) conflicts)) }
{
    let blasted = goal_formula(alloc, goal)?;
    match solve(alloc, &blasted.formula, conflicts)? {
        Searched::Happens(model) => Ok(Searched::Happens(values_of(alloc, &blasted, &model)?)),
        Searched::Never(log) => Ok(Searched::Never(log)),
        Searched::Spent(log) => Ok(Searched::Spent(log)),
    }
}
