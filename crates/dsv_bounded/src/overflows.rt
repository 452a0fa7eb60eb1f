// Overflow over all lists of so many inputs, of netlists.
ghost use Rattle.std.specs.Prelude.{◌≡◌, ◌≤◌, ◌↔◌, ◌^◌, IfOk};
ghost use Rattle.dsv_cnf.specs.Formula.{IsSatisfiable};
ghost use Rattle.dsv_hints.specs.Lessons.{IsRefutation, IsSpent};
ghost use Rattle.dsv_hints.specs.Searches.{IfHappens, IfNever, IfSpent};
ghost use Rattle.dsv_realise.specs.RangedNetlists.{IsTraceIn};
ghost use Rattle.dsv_unroll.specs.Goals.{overflow_of};
ghost use Rattle.dsv_bounded.specs.Formulas.{net_overflow_formula_of};
ghost use Rattle.dsv_bounded.specs.Questions.{DoBreak, input_widths};
ghost use Rattle.dsv_netlist.specs.Systems.{runs_of};
ghost use Rattle.dsv_meaning.specs.Traces.{IsTraceBy};
ghost use Rattle.dsv_bounded.specs.Verdicts.{BreaksWithinBy};

use crate::question::{Question, answer, formula};
use crate::words::words_after;
use dsv_base::{NoMemory, WordList};
use dsv_cnf::Formula;
use dsv_hints::Searched;
use dsv_meaning::Trace;
use dsv_realise::{RangedNetlist, replayed_trace};
use dsv_term::Goal;
use dsv_unroll::overflow_goal;
use std::alloc::Global;

/// Whether some inputs in range, so many of them, break a netlist.
#[derive(Clone, Copy)]
pub(crate) struct OverflowQuestion<'a> {
    pub(crate) subject: &'a RangedNetlist<'a>,
    pub(crate) samples: u32,
    ghost few: { samples ≤ 64 },
}

impl<'a> Question for OverflowQuestion<'a> {
    type Found = Trace;

    ghost widths = { λ s. input_widths s.subject.now.net.now s.samples };

    ghost asked = { λ s. DoBreak s.subject.now.net.now s.subject.now.low s.subject.now.high };

    ghost made = { λ s. overflow_of s.subject.now.net.now s.subject.now.low s.subject.now.high
        s.samples };

    ghost shown = { λ s. IsTraceIn s.subject.now s.samples };

    fn offer(&self, alloc: Global) -> Result<Option<Trace>, NoMemory> {
        self.offered_trace(alloc)
    }

    fn goal(&self, alloc: Global) -> Result<Goal, NoMemory> {
        let goal = overflow_goal(
            alloc,
            self.subject.net,
            self.subject.low,
            self.subject.high,
            self.samples,
        )?;
        let _count = goal.terms.len(); // its range, for the proof
        Ok(goal)
    }

    fn replay(&self, alloc: Global, values: &[u128]) -> Result<Trace, NoMemory> {
        let words = words_after(WordList::new(alloc), &self.subject.net.format(), values)?;
        match replayed_trace(alloc, self.subject, words.as_slice())? {
            Some(trace) => Ok(trace),
            None => unreachable!(),
        }
    }
}

/// The formula of an overflow of a netlist within so many samples, at most 64. How large the
/// question may be is the caller's to test.
#[tactic(auto, unfolding(crate::specs::Formulas::net_overflow_formula_of))]
pub fn netlist_overflow_formula(
    alloc: Global,
    subject: &RangedNetlist,
    samples: u32,
) -> Result<Formula, NoMemory>
    requires few { samples ≤ 64 }
    ensures formula { IfOk result (λ f. f ≡ net_overflow_formula_of subject.now.net.now
        subject.now.low subject.now.high samples) }
    // Some assignment satisfies it exactly where some list of so many inputs in range breaks the
    // netlist.
    ensures told { IfOk result (λ f. IsSatisfiable f.clauses ↔ BreaksWithinBy
        (runs_of subject.now.net.now) subject.now.low subject.now.high samples) }
{
    let question = OverflowQuestion { subject, samples };
    formula(alloc, &question)
}

/// Whether a list of so many inputs in range, at most 64, breaks a netlist from registers of zeros:
/// first some lists are tried, and then there is a search that learns at most so many clauses. A
/// trace that is found replays. How large the question may be is the caller's to test.
#[tactic(auto, unfolding(crate::specs::Formulas::net_overflow_formula_of))]
pub fn netlist_overflow(
    alloc: Global,
    subject: &RangedNetlist,
    samples: u32,
    conflicts: u32,
) -> Result<Searched<Trace>, NoMemory>
    requires few { samples ≤ 64 }
    requires allowed { 1 ≤ conflicts }
    requires limited { conflicts ≤ 2 ^ 30 }
    // No list of so many inputs in range breaks the netlist.
    ensures never { IfOk result (IfNever (λ log. BreaksWithinBy
        (runs_of subject.now.net.now) subject.now.low subject.now.high samples → ⊥)) }
    // The log is a derivation of the empty clause from the question's formula.
    ensures refuted { IfOk result (IfNever (IsRefutation (net_overflow_formula_of
        subject.now.net.now subject.now.low subject.now.high samples) conflicts)) }
    ensures trace { IfOk result (IfHappens (IsTraceBy
        (runs_of subject.now.net.now) subject.now.low subject.now.high samples)) }
    ensures spent { IfOk result (IfSpent (IsSpent (net_overflow_formula_of
        subject.now.net.now subject.now.low subject.now.high samples) conflicts)) }
{
    let question = OverflowQuestion { subject, samples };
    answer(alloc, &question, conflicts)
}
