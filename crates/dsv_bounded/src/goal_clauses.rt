// The formula of a goal.
ghost use Rattle.std.specs.Prelude.{◌≡◌, ◌↔◌, ℕ, Bool, List, IfOk};
ghost use Rattle.dsv_blast.specs.Blast.{IsDecisive, input_values};
ghost use Rattle.dsv_cnf.specs.Formula.{IsSatisfiable};
ghost use Rattle.dsv_term.specs.Building.{built_of};
ghost use Rattle.dsv_term.specs.Terms.{AreValues, word_of};
ghost use Rattle.dsv_bounded.specs.Formulas.{formula_of};

use dsv_base::NoMemory;
use dsv_blast::{Blasted, blast};
use dsv_rewrite::simplify;
use dsv_term::Goal;
use std::alloc::Global;

/// The formula of a goal, which is simplified before. The goal is dropped on the way.
pub fn goal_formula(alloc: Global, goal: Goal) -> Result<Blasted, NoMemory>
    ensures formula { IfOk result
        (λ b. b.formula ≡ formula_of (built_of goal.terms goal.root)) }
    // Some assignment satisfies it exactly where the root is 1 at some values.
    ensures told { IfOk result (λ b. IsSatisfiable b.formula.clauses
        ↔ ((values : List ℕ) × AreValues goal.terms.inputs values
        × ((word_of goal.terms values goal.root).number ≡ 1))) }
    // Every assignment gives the inputs values that their bits can spell.
    ensures values { IfOk result (λ b. (v : ℕ → Bool)
        → AreValues goal.terms.inputs (input_values b.inputs v)) }
    // What a solver finds for it is so of the goal.
    ensures decisive { IfOk result
        (λ b. IsDecisive goal.terms goal.root b.formula b.inputs) }
{
    let simple = simplify(alloc, &goal)?;
    drop(goal);
    let blasted = blast(alloc, &simple)?;
    Ok(blasted)
}
