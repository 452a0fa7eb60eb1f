// A candidate set is shown to be kept by k-induction (Sheeran, Singh and Stålmarck, 2000), where k
// is its depth, in three sentences. The base: from registers of zeros the first k states are in
// it. The step: from any registers, where k states in a row are in it, so is the next one. The
// safe sentence: from a state in it no sample has an exact value that is no word.
//
// Each sentence has a goal, which is 1 at the inputs that break it. What isn't fixed by the
// sentence is an input: those of the samples, and for the step and the safe sentence the start.
ghost use Rattle.dsv_word.specs.Words.{width, lo, hi};
ghost use Rattle.std.specs.Prelude.{◌≡◌, ◌≤ℤ◌, ◌+◌, ℕ, List, true, length, replicate, IfOk};
ghost use Rattle.dsv_netlist.specs.Conditions.{IsNetlist};
ghost use Rattle.dsv_template.specs.Candidates.{is_shaped};
ghost use Rattle.dsv_term.specs.declared.node.TermNode.TheVariants as TermNode;
ghost use Rattle.dsv_term.specs.Building.{built_of, with_node};
ghost use Rattle.dsv_term.specs.Terms.{AreValues, word_of, HasBits};
ghost use Rattle.dsv_term.specs.TermsView.{no_terms};
ghost use Rattle.dsv_unroll.specs.SetGoals.{registers_of, set_start, states_of};
ghost use Rattle.dsv_unroll.specs.SetGoals.{base_break, step_break};
ghost use Rattle.dsv_unroll.specs.SetGoals.{safe_break, break_of, samples_of, set_inputs, set_of};
ghost use Rattle.dsv_unroll.specs.Beside.{states_with, start_with};
ghost use Rattle.dsv_unroll.specs.Ready.{AreStatesReady, IsStartReady};
ghost use Rattle.dsv_unroll.specs.Words.{spelled_words, Tells, BreaksPart};

use crate::inputs::{InputRange, input_terms, start_inputs};
use crate::lists::{conjunction, repeated_term};
use crate::states::StateTerms;
use crate::unroller::Unroller;
use dsv_base::NoMemory;
use dsv_netlist::Netlist;
use dsv_template::{Candidate, SetPart};
use dsv_term::{Goal, TermId, Terms};
use std::alloc::Global;

/// What a goal begins with, after a zero in one bit: the terms of the registers and of the inputs,
/// and the tests that the inputs are in range.
#[derive(Drop)]
pub(crate) struct GoalStart {
    pub registers: Vec<TermId>,
    pub inputs: Vec<TermId>,
    pub tests: Vec<TermId>,
}

/// How many inputs a sentence is over.
fn samples_of(candidate: &Candidate, part: SetPart) -> u32
    ensures { result ≡ samples_of candidate.now part }
{
    match part {
        SetPart::Base => candidate.depth.saturating_sub(1),
        SetPart::Step => candidate.depth,
        SetPart::Safe => 1,
    }
}

impl<'a> Unroller<'a> {
    /// The terms that the registers start with: zeros for the base, and else an input each.
    fn register_terms(&self, terms: &mut Terms, part: SetPart) -> Result<Vec<TermId>, NoMemory>
        ensures { IfOk result (λ registers.
            record { terms = terms.new; ids = registers.items }
            ≡ registers_of self.now.net.now terms.old self.now.zero_bit part) }
    {
        let net = self.net;
        let count = net.registers();
        let format = net.format();
        match part {
            SetPart::Base => repeated_term(self.alloc, self.zero_bit, count),
            SetPart::Step | SetPart::Safe => {
                start_inputs(terms, &format, Vec::new(self.alloc), count)
            }
        }
    }

    /// What a goal begins with, over so many inputs.
    fn set_start(
        &self,
        terms: &mut Terms,
        range: &InputRange,
        samples: u32,
        part: SetPart,
    ) -> Result<GoalStart, NoMemory>
        requires zero_bit { built_of terms.old self.now.zero_bit
            ≡ with_node no_terms (TermNode.Constant 1 0) }
        requires low { range.now.low ≤ℤ hi (width self.now.net.now.format) }
        requires high { lo (width self.now.net.now.format) ≤ℤ range.now.high }
        ensures built { IfOk result (λ start. start_with terms.new self.now.zero_bit start
            ≡ set_start self.now.net.now range.now.low range.now.high samples part) }
        ensures ready { IfOk result (λ start. IsStartReady self.now.net.now
            (start_with terms.new self.now.zero_bit start)) }
        ensures count { IfOk result (λ start. length start.inputs.items ≡ samples) }
    {
        let format = self.net.format();
        let registers = self.register_terms(terms, part)?;
        let inputs = input_terms(self.alloc, terms, &format, range, samples)?;
        Ok(GoalStart {
            registers,
            inputs: inputs.ids,
            tests: inputs.tests,
        })
    }

    /// The states of a start, over all its inputs.
    fn states_of(
        &self,
        terms: &mut Terms,
        candidate: &Candidate,
        start: &GoalStart,
    ) -> Result<StateTerms, NoMemory>
        requires netlist { IsNetlist self.now.net.now }
        requires ready { IsStartReady self.now.net.now
            (start_with terms.old self.now.zero_bit start.now) }
        requires shaped { is_shaped (length self.now.net.now.next) candidate.now ≡ true }
        ensures built { IfOk result (λ states. states_with terms.new states
            ≡ states_of self.now.net.now candidate.now
            (start_with terms.old self.now.zero_bit start.now)) }
        ensures ready { IfOk result (λ states. AreStatesReady self.now.net.now terms.new
            self.now.zero_bit states.registers.items states.inside.items) }
        ensures count { IfOk result
            (λ states. length states.inside.items ≡ length start.now.inputs.items + 1) }
    {
        let registers = Vec::from_slice(self.alloc, &start.registers)?;
        self.state_terms(terms, candidate, registers, start.inputs.as_slice())
    }

    /// Whether some state isn't in the set.
    fn base_break(
        &self,
        terms: &mut Terms,
        candidate: &Candidate,
        start: &GoalStart,
    ) -> Result<TermId, NoMemory>
        requires netlist { IsNetlist self.now.net.now }
        requires ready { IsStartReady self.now.net.now
            (start_with terms.old self.now.zero_bit start.now) }
        requires shaped { is_shaped (length self.now.net.now.next) candidate.now ≡ true }
        ensures { IfOk result (λ broken. built_of terms.new broken
            ≡ base_break self.now.net.now candidate.now
            (start_with terms.old self.now.zero_bit start.now)) }
    {
        let states = self.states_of(terms, candidate, start)?;
        let whole = terms.constant(1, 1)?;
        let all = conjunction(terms, whole, &states.inside)?;
        terms.not(all)
    }

    /// Whether the states before the last are in the set, and the last isn't.
    fn step_break(
        &self,
        terms: &mut Terms,
        candidate: &Candidate,
        start: &GoalStart,
    ) -> Result<TermId, NoMemory>
        requires netlist { IsNetlist self.now.net.now }
        requires ready { IsStartReady self.now.net.now
            (start_with terms.old self.now.zero_bit start.now) }
        requires shaped { is_shaped (length self.now.net.now.next) candidate.now ≡ true }
        requires count { length start.now.inputs.items ≡ candidate.now.depth }
        ensures { IfOk result (λ broken. built_of terms.new broken
            ≡ step_break self.now.net.now candidate.now
            (start_with terms.old self.now.zero_bit start.now)) }
    {
        let states = self.states_of(terms, candidate, start)?;
        let depth = candidate.depth as usize;
        let left = terms.not(states.inside[depth])?;
        conjunction(terms, left, &states.inside[..depth])
    }

    /// Whether the start is in the set, and an exact value of its sample is no word.
    fn safe_break(
        &self,
        terms: &mut Terms,
        candidate: &Candidate,
        start: &GoalStart,
    ) -> Result<TermId, NoMemory>
        requires netlist { IsNetlist self.now.net.now }
        requires ready { IsStartReady self.now.net.now
            (start_with terms.old self.now.zero_bit start.now) }
        requires shaped { is_shaped (length self.now.net.now.next) candidate.now ≡ true }
        ensures { IfOk result (λ broken. built_of terms.new broken
            ≡ safe_break self.now.net.now candidate.now
            (start_with terms.old self.now.zero_bit start.now)) }
    {
        let inside = self.set_term(terms, candidate, &start.registers)?;
        let registers = Vec::from_slice(self.alloc, &start.registers)?;
        let run = self.run_terms(terms, &start.inputs, registers)?;
        terms.and(run.overflowed, inside)
    }

    /// Whether a sentence is broken, where the inputs are in range.
    fn break_of(
        &self,
        terms: &mut Terms,
        candidate: &Candidate,
        part: SetPart,
        start: &GoalStart,
    ) -> Result<TermId, NoMemory>
        requires netlist { IsNetlist self.now.net.now }
        requires ready { IsStartReady self.now.net.now
            (start_with terms.old self.now.zero_bit start.now) }
        requires shaped { is_shaped (length self.now.net.now.next) candidate.now ≡ true }
        requires count { length start.now.inputs.items ≡ samples_of candidate.now part }
        ensures { IfOk result (λ broken. built_of terms.new broken
            ≡ break_of self.now.net.now candidate.now part
            (start_with terms.old self.now.zero_bit start.now)) }
    {
        match part {
            SetPart::Base => self.base_break(terms, candidate, start),
            SetPart::Step => self.step_break(terms, candidate, start),
            SetPart::Safe => self.safe_break(terms, candidate, start),
        }
    }

    /// The root of the goal that a sentence is broken.
    #[tactic(auto, unfolding(crate::specs::SetGoals::set_of))]
    fn set_root(
        &self,
        terms: &mut Terms,
        range: &InputRange,
        candidate: &Candidate,
        part: SetPart,
    ) -> Result<TermId, NoMemory>
        requires zero_bit { built_of terms.old self.now.zero_bit
            ≡ with_node no_terms (TermNode.Constant 1 0) }
        requires netlist { IsNetlist self.now.net.now }
        requires low { range.now.low ≤ℤ hi (width self.now.net.now.format) }
        requires high { lo (width self.now.net.now.format) ≤ℤ range.now.high }
        requires shaped { is_shaped (length self.now.net.now.next) candidate.now ≡ true }
        ensures built { IfOk result (λ root. built_of terms.new root ≡ set_of self.now.net.now
            range.now.low range.now.high candidate.now part) }
        ensures bit { IfOk result (λ root. HasBits terms.new root 1) }
    {
        let samples = samples_of(candidate, part);
        let start = self.set_start(terms, range, samples, part)?;
        let broken = self.break_of(terms, candidate, part, &start)?;
        conjunction(terms, broken, &start.tests)
    }
}

/// The goal that a sentence of a candidate is broken, which is 1 exactly at the values of its
/// inputs that break it. Inputs have as many bits as the format's words. Where m is the depth, they
/// are, for the base, whose registers start with zeros, x(0) to x(m-2); for the step the words that
/// the registers start with, in their order, and after them x(0) to x(m-1); and for the safe
/// sentence those words and after them x(0). Each x(n) is to be in the range.
pub fn set_goal(
    alloc: Global,
    net: &Netlist,
    range: InputRange,
    candidate: &Candidate,
    part: SetPart,
) -> Result<Goal, NoMemory>
    requires low { range.low ≤ℤ hi (width net.now.format) }
    requires high { lo (width net.now.format) ≤ℤ range.high }
    requires shaped { is_shaped (length net.now.next) candidate.now ≡ true }
    ensures made { IfOk result (λ goal. built_of goal.terms goal.root
        ≡ set_of net.now range.low range.high candidate.now part) }
    ensures inputs { IfOk result (λ goal. goal.terms.inputs
        ≡ replicate (set_inputs net.now candidate.now part) (width net.now.format)) }
    ensures exact { IfOk result (λ goal. (values : List ℕ) → AreValues goal.terms.inputs values
        → Tells (word_of goal.terms values goal.root) (BreaksPart net.now range.low range.high
        candidate.now part (spelled_words net.now.format values))) }
{
    let _count = net.len(); // its clause on the netlist, for the proof
    let mut terms = Terms::new(alloc);
    let zero_bit = terms.constant(1, 0)?;
    let unroller = Unroller {
        alloc,
        net,
        zero_bit,
    };
    let root = unroller.set_root(&mut terms, &range, candidate, part)?;
    Goal::new(alloc, terms, root)
}
