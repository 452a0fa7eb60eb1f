// One sentence of a candidate asked of a search.
ghost use Rattle.std.specs.Prelude.{◌≡◌, IfOk, IfErr};
ghost use Rattle.dsv_bounded.specs.Questions.{Asks};
ghost use Rattle.dsv_invariant.specs.Netlists.{Realises, word_widths};
ghost use Rattle.dsv_hints.specs.Lessons.{IsRefutation};
ghost use Rattle.dsv_realise.specs.Netlists.{net_of};
ghost use Rattle.dsv_term.specs.Building.{built_of};
ghost use Rattle.dsv_term.specs.Terms.{AreValues};
ghost use Rattle.dsv_unroll.specs.SetGoals.{set_of, set_inputs};
ghost use Rattle.dsv_unroll.specs.Words.{spelled_words};
ghost use Rattle.dsv_invariant.specs.Breaking.{DoBreak, IsFoundAt, IsBreakOf};
ghost use Rattle.dsv_invariant.specs.Causes.{Holds, IsShaped};
ghost use Rattle.dsv_invariant.specs.Formulas.{set_formula_of};
ghost use Rattle.dsv_invariant.specs.Obstacles.{IfFound};

use crate::check::Check;
use dsv_base::{NoMemory, WordList};
use dsv_bounded::{decide, words_after};
use dsv_hints::{Log, Searched};
use dsv_netlist::Netlist;
use dsv_quantiser::Quantised;
use dsv_template::{Candidate, SetPart, Why};
use dsv_term::Goal;
use dsv_unroll::{InputRange, set_goal};
use std::alloc::Global;

/// What keeps a sentence from being shown.
#[derive(Drop)]
pub(crate) enum Obstacle {
    /// This is found of the candidate.
    Found(Why),
    NoMemory,
}

impl From<NoMemory> for Obstacle {
    ghost use Rattle.std.specs.Prelude.{◌≡◌};
    ghost use Rattle.dsv_invariant.specs.declared.parts.Obstacle.TheVariants as obstacle;

    ghost from_gives = { λ _ e. e ≡ obstacle.NoMemory };

    fn from(_: NoMemory) -> Self {
        Obstacle::NoMemory
    }
}

/// The goal that a sentence of the candidate is broken.
pub(crate) fn part_goal(
    alloc: Global,
    quantised: &Quantised,
    net: &Netlist,
    candidate: &Candidate,
    part: SetPart,
) -> Result<Goal, NoMemory>
    requires net { Realises quantised.now net.now }
    requires shaped { IsShaped quantised.now candidate.now }
    ensures made { IfOk result (λ goal. built_of goal.terms goal.root
        ≡ set_of (net_of quantised.now) quantised.now.xlo quantised.now.xhi candidate.now part) }
    ensures asks { IfOk result (λ goal. Asks goal.terms goal.root
        (word_widths quantised.now (set_inputs net.now candidate.now part))
        (λ values. DoBreak quantised.now candidate.now part
        (spelled_words quantised.now.format values))) }
{
    let range = InputRange {
        low: quantised.xlo(),
        high: quantised.xhi(),
    };
    let goal = set_goal(alloc, net, range, candidate, part)?;
    let _count = goal.terms.len(); // its range, for the proof
    Ok(goal)
}

impl<'a> Check<'a> {
    /// What is found of the candidate where these values break a sentence.
    fn found_break(&self, alloc: Global, part: SetPart, values: &[u128]) -> Result<Why, NoMemory>
        requires fit { AreValues (word_widths self.now.quantised.now
            (set_inputs self.now.net.now self.now.candidate.now part)) values.now }
        requires breaks { DoBreak self.now.quantised.now self.now.candidate.now part
            (spelled_words self.now.quantised.now.format values.now) }
        ensures { IfOk result (IsBreakOf self.now.quantised.now self.now.candidate.now part) }
    {
        let words = words_after(WordList::new(alloc), &self.quantised.format(), values)?;
        self.break_of(alloc, part, words.as_slice())
    }

    /// The log that shows a sentence of the candidate, or what is found where there is none and the
    /// sentences before it hold.
    #[tactic(auto, unfolding(crate::specs::Formulas::set_formula_of))]
    pub(crate) fn part_log(&self, alloc: Global, part: SetPart) -> Result<Log, Obstacle>
        ensures holds { IfOk result (λ log. Holds self.now.quantised.now self.now.candidate.now
            part) }
        ensures refuted { IfOk result (IsRefutation
            (set_formula_of self.now.quantised.now self.now.candidate.now part)
            self.now.conflicts) }
        ensures found { IfErr result (IfFound (IsFoundAt self.now.quantised.now self.now.conflicts
            self.now.candidate.now part)) }
    {
        let goal = part_goal(alloc, self.quantised, self.net, self.candidate, part)?;
        match decide(alloc, goal, self.conflicts)? {
            Searched::Never(log) => Ok(log),
            Searched::Happens(values) => Err(Obstacle::Found(self.found_break(
                alloc,
                part,
                values.as_slice(),
            )?)),
            Searched::Spent(log) => Err(Obstacle::Found(Why::Spent { part, log })),
        }
    }
}
