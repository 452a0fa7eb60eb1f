// The states of a run, and whether each is in a set: a walk from a start, with a bit for each
// state from the first to the last. A state may be any, also one that no run leads to, so the
// samples between compute what the controller does, whatever breaks.
ghost use Rattle.std.specs.Prelude.{◌≡◌, ◌+◌, true, [], length, IfOk};
ghost use Rattle.dsv_netlist.specs.Conditions.{IsNetlist};
ghost use Rattle.dsv_template.specs.Candidates.{is_shaped};
ghost use Rattle.dsv_term.specs.Terms.{KeepsTerms};
ghost use Rattle.dsv_unroll.specs.SetGoals.{with_state, with_next, states_from};
ghost use Rattle.dsv_unroll.specs.Beside.{states_with};
ghost use Rattle.dsv_unroll.specs.Ready.{IsValue, AreAllValues, AreStatesReady};

use crate::nodes::Sample;
use crate::rules::FitRule;
use crate::unroller::Unroller;
use dsv_base::NoMemory;
use dsv_template::Candidate;
use dsv_term::{TermId, Terms};

/// A run so far: the terms of the registers, and for each state so far whether it is in the set.
#[derive(Drop)]
pub(crate) struct StateTerms {
    pub registers: Vec<TermId>,
    pub inside: Vec<TermId>,
}

impl<'a> Unroller<'a> {
    /// The same, with the test of the state that the registers hold.
    fn with_state(
        &self,
        terms: &mut Terms,
        candidate: &Candidate,
        state: StateTerms,
    ) -> Result<StateTerms, NoMemory>
        requires netlist { IsNetlist self.now.net.now }
        requires ready { AreStatesReady self.now.net.now terms.old self.now.zero_bit
            state.registers.items state.inside.items }
        requires shaped { is_shaped (length self.now.net.now.next) candidate.now ≡ true }
        ensures built { IfOk result (λ now. states_with terms.new now ≡ with_state
            self.now.net.now self.now.zero_bit candidate.now (states_with terms.old state)) }
        ensures ready { IfOk result (λ now. AreStatesReady self.now.net.now terms.new
            self.now.zero_bit now.registers.items now.inside.items) }
        ensures kept { IfOk result (λ now. KeepsTerms terms.old terms.new) }
    {
        let here = self.set_term(terms, candidate, &state.registers)?;
        let mut inside = state.inside;
        inside.push(here)?;
        Ok(StateTerms {
            registers: state.registers,
            inside,
        })
    }

    /// The same, with the registers after one sample more: the words that the run computes,
    /// whatever breaks.
    fn with_next(
        &self,
        terms: &mut Terms,
        x: TermId,
        state: StateTerms,
    ) -> Result<StateTerms, NoMemory>
        requires netlist { IsNetlist self.now.net.now }
        requires ready { AreStatesReady self.now.net.now terms.old self.now.zero_bit
            state.registers.items state.inside.items }
        requires input { IsValue terms.old x }
        ensures built { IfOk result (λ next. states_with terms.new next ≡ with_next
            self.now.net.now self.now.zero_bit x (states_with terms.old state)) }
        ensures ready { IfOk result (λ next. AreStatesReady self.now.net.now terms.new
            self.now.zero_bit next.registers.items next.inside.items) }
        ensures kept { IfOk result (λ next. KeepsTerms terms.old terms.new) }
    {
        let before = Sample {
            rule: FitRule::Faithful,
            registers: &state.registers,
            x,
        };
        let sample = self.sample_terms(terms, &before, self.zero_bit)?;
        let registers = self.next_terms(&sample.ids)?;
        Ok(StateTerms {
            registers,
            inside: state.inside,
        })
    }

    /// The states from a start on: before these inputs, between them, and after the last.
    pub(crate) fn state_terms(
        &self,
        terms: &mut Terms,
        candidate: &Candidate,
        start: Vec<TermId>,
        inputs: &[TermId],
    ) -> Result<StateTerms, NoMemory>
        requires netlist { IsNetlist self.now.net.now }
        requires ready { AreStatesReady self.now.net.now terms.old self.now.zero_bit start.items
            [] }
        requires inputs { AreAllValues terms.old inputs.now }
        requires shaped { is_shaped (length self.now.net.now.next) candidate.now ≡ true }
        ensures built { IfOk result (λ states. states_with terms.new states ≡ states_from
            self.now.net.now self.now.zero_bit candidate.now
            (record { terms = terms.old; registers = start.items; inside = [] }) inputs.now) }
        ensures ready { IfOk result (λ states. AreStatesReady self.now.net.now terms.new
            self.now.zero_bit states.registers.items states.inside.items) }
        ensures kept { IfOk result (λ states. KeepsTerms terms.old terms.new) }
        ensures count { IfOk result
            (λ states. length states.inside.items ≡ length inputs.now + 1) }
    {
        let mut state = StateTerms {
            registers: start,
            inside: Vec::new(self.alloc),
        };
        for x in inputs {
            let here = self.with_state(terms, candidate, state)?;
            state = self.with_next(terms, *x, here)?;
        }
        self.with_state(terms, candidate, state)
    }
}
