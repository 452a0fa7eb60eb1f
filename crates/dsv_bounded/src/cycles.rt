// Limit cycles of all periods up to so many samples, from all starts: of netlists, and of quantised
// controllers by theirs.
ghost use Rattle.std.specs.Prelude.{◌≡◌, ◌≤◌, ◌↔◌, ◌^◌, IfOk};
ghost use Rattle.dsv_cnf.specs.Formula.{IsSatisfiable};
ghost use Rattle.dsv_hints.specs.Lessons.{IsRefutation, IsSpent};
ghost use Rattle.dsv_hints.specs.Searches.{IfHappens, IfNever, IfSpent};
ghost use Rattle.dsv_unroll.specs.CycleGoals.{cycle_of};
ghost use Rattle.dsv_bounded.specs.Formulas.{net_cycle_formula_of};
ghost use Rattle.dsv_bounded.specs.Questions.{DoCycle, free_registers, input_widths};
ghost use Rattle.dsv_netlist.specs.Systems.{runs_of};
ghost use Rattle.dsv_bounded.specs.Verdicts.{CyclesWithinBy, IsCycleBy};

use crate::question::{Question, answer, formula};
use crate::replayed_cycles::replayed_cycle;
use crate::words::{words_after, zero_words};
use dsv_base::NoMemory;
use dsv_cnf::Formula;
use dsv_hints::Searched;
use dsv_meaning::Cycle;
use dsv_realise::RangedNetlist;
use dsv_term::Goal;
use dsv_unroll::cycle_goal;
use std::alloc::Global;

/// Whether some start of a netlist has a limit cycle of a period up to so many samples.
#[derive(Clone, Copy)]
pub(crate) struct CycleQuestion<'a> {
    pub(crate) subject: &'a RangedNetlist<'a>,
    pub(crate) periods: u32,
}

impl<'a> Question for CycleQuestion<'a> {
    type Found = Cycle;

    ghost widths = { λ s. input_widths s.subject.now.net.now
        (free_registers s.subject.now.net.now) };

    ghost asked = { λ s. DoCycle s.subject.now.net.now s.periods };

    ghost made = { λ s. cycle_of s.subject.now.net.now s.periods };

    ghost shown = { λ s. IsCycleBy (runs_of s.subject.now.net.now) s.periods };

    fn offer(&self, alloc: Global) -> Result<Option<Cycle>, NoMemory> {
        self.offered_cycle(alloc)
    }

    fn goal(&self, alloc: Global) -> Result<Goal, NoMemory> {
        let goal = cycle_goal(alloc, self.subject.net, self.periods)?;
        let _count = goal.terms.len(); // its range, for the proof
        Ok(goal)
    }

    fn replay(&self, alloc: Global, values: &[u128]) -> Result<Cycle, NoMemory> {
        let net = self.subject.net;
        let quiet = zero_words(alloc, net.feed_forward())?;
        let start = words_after(quiet, &net.format(), values)?;
        match replayed_cycle(alloc, net, start, self.periods)? {
            Some(cycle) => Ok(cycle),
            None => unreachable!(),
        }
    }
}

/// The formula of a limit cycle of a netlist of a period from 1 to `periods`, which is 1 to 64. How
/// large the question may be is the caller's to test.
#[tactic(auto, unfolding(crate::specs::Formulas::net_cycle_formula_of))]
pub fn netlist_cycle_formula(
    alloc: Global,
    subject: &RangedNetlist,
    periods: u32,
) -> Result<Formula, NoMemory>
    requires some { 1 ≤ periods }
    requires few { periods ≤ 64 }
    ensures formula { IfOk result (λ f. f ≡ net_cycle_formula_of subject.now.net.now periods) }
    // Some assignment satisfies it exactly where some start has such a cycle in the netlist.
    ensures told { IfOk result (λ f. IsSatisfiable f.clauses
        ↔ CyclesWithinBy (runs_of subject.now.net.now) periods) }
{
    let _count = subject.net.len(); // its clause on the netlist, for the proof
    let question = CycleQuestion { subject, periods };
    formula(alloc, &question)
}

/// Whether a start of a netlist has a limit cycle of a period from 1 to `periods`, which is 1 to
/// 64: first some starts are tried, some of which the range of the inputs gives, and then there is
/// a search that learns at most so many clauses. A cycle that is found replays. How large the
/// question may be is the caller's to test.
#[tactic(auto, unfolding(crate::specs::Formulas::net_cycle_formula_of))]
pub fn netlist_cycle(
    alloc: Global,
    subject: &RangedNetlist,
    periods: u32,
    conflicts: u32,
) -> Result<Searched<Cycle>, NoMemory>
    requires some { 1 ≤ periods }
    requires few { periods ≤ 64 }
    requires allowed { 1 ≤ conflicts }
    requires limited { conflicts ≤ 2 ^ 30 }
    // No start has a cycle of such a period in the netlist.
    ensures never { IfOk result
        (IfNever (λ log. CyclesWithinBy (runs_of subject.now.net.now) periods → ⊥)) }
    // The log is a derivation of the empty clause from the question's formula.
    ensures refuted { IfOk result (IfNever (IsRefutation (net_cycle_formula_of
        subject.now.net.now periods) conflicts)) }
    ensures cycle { IfOk result (IfHappens (IsCycleBy (runs_of subject.now.net.now) periods)) }
    ensures spent { IfOk result (IfSpent (IsSpent (net_cycle_formula_of
        subject.now.net.now periods) conflicts)) }
{
    let _count = subject.net.len(); // its clause on the netlist, for the proof
    let question = CycleQuestion { subject, periods };
    answer(alloc, &question, conflicts)
}
