// The goal of a limit cycle: the start words are its inputs, and the run from them has no input.
// Its values wrap or saturate as the controller's do. A cycle is found where after a sample the
// registers hold the start words again, and some output so far wasn't 0.
//
// A cycle of a period is one of each multiple of it, too. Every period up to a bound has a
// multiple that is above half the bound and not above it, so only the samples after that half are
// compared with the start.
ghost use Rattle.dsv_word.specs.Words.{width};
ghost use Rattle.std.specs.Prelude.{◌≡◌, ◌<◌, ◌-◌};
ghost use Rattle.std.specs.Prelude.{length, replicate};
ghost use Rattle.std.specs.Prelude.{IfOk, nat_lt, ◌*◌, ◌+◌, ℕ, List};
ghost use Rattle.dsv_netlist.specs.Conditions.{IsNetlist};
ghost use Rattle.dsv_term.specs.Building.{built_of};
ghost use Rattle.dsv_term.specs.Growth.{AreSound, Adds};
ghost use Rattle.dsv_term.specs.Terms.{KeepsTerms, AreValues, word_of, HasBits};
ghost use Rattle.dsv_term.specs.TermsView.{no_terms};
ghost use Rattle.dsv_unroll.specs.CycleGoals.{same_term, sounding_term, returned_from};
ghost use Rattle.dsv_unroll.specs.CycleGoals.{with_quiet_sample, with_asked, cycles_from};
ghost use Rattle.dsv_unroll.specs.CycleGoals.{starts_from, found_of, cycle_of};
ghost use Rattle.dsv_unroll.specs.Words.{cycle_start, HasCycle, Tells};
ghost use Rattle.dsv_unroll.specs.Beside.{cycle_with};
ghost use Rattle.dsv_unroll.specs.Ready.{IsValue, AreAllValues, AreCycleReady};

use crate::inputs::start_inputs;
use crate::lists::repeated_term;
use crate::nodes::Sample;
use crate::rules::{FitRule, widened_term};
use crate::unroller::Unroller;
use dsv_base::NoMemory;
use dsv_netlist::Netlist;
use dsv_term::{Goal, TermId, Terms};
use std::alloc::Global;

/// Whether two terms spell one number.
fn same_term(terms: &mut Terms, left: TermId, right: TermId) -> Result<TermId, NoMemory>
    requires sound { AreSound terms.old }
    requires left { IsValue terms.old left }
    requires right { IsValue terms.old right }
    ensures built { IfOk result (λ same.
        built_of terms.new same ≡ same_term terms.old left right) }
    ensures adds { IfOk result (λ same. Adds terms.old terms.new same 1) }
{
    let bits = terms.width(left).max(terms.width(right));
    let first = widened_term(terms, left, bits)?;
    let second = widened_term(terms, right, bits)?;
    terms.eq(first, second)
}

/// Whether the output isn't 0, or the bit holds.
fn sounding_term(
    terms: &mut Terms,
    output: TermId,
    zero_bit: TermId,
    sounding: TermId,
) -> Result<TermId, NoMemory>
    requires sound { AreSound terms.old }
    requires output { IsValue terms.old output }
    requires zero_bit { IsValue terms.old zero_bit }
    requires bit { HasBits terms.old sounding 1 }
    ensures built { IfOk result (λ made.
        built_of terms.new made ≡ sounding_term terms.old output zero_bit sounding) }
    ensures adds { IfOk result (λ made. Adds terms.old terms.new made 1) }
{
    let quiet = same_term(terms, output, zero_bit)?;
    let sound = terms.not(quiet)?;
    terms.or(sounding, sound)
}

/// A bit, and whether the registers hold the words of the start.
fn returned_terms(
    terms: &mut Terms,
    first: TermId,
    registers: &[TermId],
    starts: &[TermId],
) -> Result<TermId, NoMemory>
    requires sound { AreSound terms.old }
    requires bit { HasBits terms.old first 1 }
    requires count { length starts.now ≡ length registers.now }
    requires registers { AreAllValues terms.old registers.now }
    requires starts { AreAllValues terms.old starts.now }
    ensures built { IfOk result (λ all. built_of terms.new all
        ≡ returned_from (built_of terms.old first) registers.now starts.now) }
    ensures sound { IfOk result (λ all. AreSound terms.new) }
    ensures bit { IfOk result (λ all. HasBits terms.new all 1) }
    ensures kept { IfOk result (λ all. KeepsTerms terms.old terms.new) }
{
    let mut all = first;
    for k in 0..registers.len() {
        let same = same_term(terms, registers[k], starts[k])?;
        all = terms.and(all, same)?;
    }
    Ok(all)
}

/// A run without input so far: the terms of the registers, whether an output so far wasn't 0, and
/// whether a cycle was found.
#[derive(Drop)]
pub(crate) struct CycleTerms {
    pub registers: Vec<TermId>,
    pub sounding: TermId,
    pub found: TermId,
}

/// A cycle is found where the registers hold the start, too.
fn found_cycle(
    terms: &mut Terms,
    asked: bool,
    state: CycleTerms,
    starts: &[TermId],
) -> Result<CycleTerms, NoMemory>
    requires sound { AreSound terms.old }
    requires registers { AreAllValues terms.old state.registers.items }
    requires starts { AreAllValues terms.old starts.now }
    requires count { length starts.now ≡ length state.registers.items }
    requires sounding { HasBits terms.old state.sounding 1 }
    requires found { HasBits terms.old state.found 1 }
    ensures built { IfOk result (λ next. cycle_with terms.new next
        ≡ with_asked asked (cycle_with terms.old state) starts.now) }
    ensures sound { IfOk result (λ next. AreSound terms.new) }
    ensures kept { IfOk result (λ next. KeepsTerms terms.old terms.new) }
    ensures registers { IfOk result
        (λ next. next.registers.items ≡ state.registers.items) }
    ensures sounding { IfOk result (λ next. next.sounding ≡ state.sounding) }
    ensures found { IfOk result (λ next. HasBits terms.new next.found 1) }
{
    if !asked {
        return Ok(state);
    }
    let cycle = returned_terms(terms, state.sounding, &state.registers, starts)?;
    let found = terms.or(state.found, cycle)?;
    Ok(CycleTerms {
        registers: state.registers,
        sounding: state.sounding,
        found,
    })
}

/// Whether the period after so many samples is asked for: it is more than half the periods.
fn is_asked(periods: u32, done: u32) -> bool
    requires { done < periods }
    ensures { result ≡ nat_lt periods (2 * (done + 1)) }
{
    u64::from(periods) < 2 * (u64::from(done) + 1)
}

impl<'a> Unroller<'a> {
    /// One sample more without input.
    fn quiet_sample(&self, terms: &mut Terms, state: CycleTerms) -> Result<CycleTerms, NoMemory>
        requires netlist { IsNetlist self.now.net.now }
        requires ready { AreCycleReady self.now.net.now terms.old self.now.zero_bit
            state.registers.items state.sounding state.found }
        ensures built { IfOk result (λ next. cycle_with terms.new next ≡ with_quiet_sample
            self.now.net.now self.now.zero_bit (cycle_with terms.old state)) }
        ensures ready { IfOk result (λ next. AreCycleReady self.now.net.now terms.new
            self.now.zero_bit next.registers.items next.sounding next.found) }
        ensures kept { IfOk result (λ next. KeepsTerms terms.old terms.new) }
    {
        let zero_bit = self.zero_bit;
        let before = Sample {
            rule: FitRule::Faithful,
            registers: &state.registers,
            x: zero_bit,
        };
        let sample = self.sample_terms(terms, &before, zero_bit)?;
        let registers = self.next_terms(&sample.ids)?;
        let output = sample.ids[self.net.output() as usize];
        let sounding = sounding_term(terms, output, zero_bit, state.sounding)?;
        Ok(CycleTerms {
            registers,
            sounding,
            found: state.found,
        })
    }

    /// Whether a cycle is found from this state on, in so many samples.
    fn found_term(
        &self,
        terms: &mut Terms,
        starts: &[TermId],
        start: CycleTerms,
        periods: u32,
    ) -> Result<TermId, NoMemory>
        requires netlist { IsNetlist self.now.net.now }
        requires ready { AreCycleReady self.now.net.now terms.old self.now.zero_bit
            start.registers.items start.sounding start.found }
        requires starts { AreAllValues terms.old starts.now }
        requires count { length starts.now ≡ length self.now.net.now.next }
        ensures built { IfOk result (λ found. built_of terms.new found
            ≡ found_of (cycles_from self.now.net.now starts.now self.now.zero_bit periods 1 periods
            (cycle_with terms.old start))) }
        ensures bit { IfOk result (λ found. HasBits terms.new found 1) }
    {
        let mut state = start;
        for i in 0..periods {
            let next = self.quiet_sample(terms, state)?;
            let asked = is_asked(periods, i);
            state = found_cycle(terms, asked, next, starts)?;
        }
        Ok(state.found)
    }

    /// The terms that the registers start with: 0 for the feed-forward ones, and an input for each
    /// other.
    fn start_terms(&self, terms: &mut Terms) -> Result<Vec<TermId>, NoMemory>
        requires { IsNetlist self.now.net.now }
        ensures { IfOk result (λ ids. let net = self.now.net.now in
            record { terms = terms.new; ids = ids.items }
            ≡ starts_from (width net.format) (length net.next - net.feed_forward)
            (record { terms = terms.old; ids = replicate net.feed_forward self.now.zero_bit })) }
    {
        let net = self.net;
        let format = net.format();
        let forward = net.feed_forward();
        let ids = repeated_term(self.alloc, self.zero_bit, forward)?;
        start_inputs(terms, &format, ids, net.registers() - forward)
    }
}

/// The root of the goal of a cycle.
#[tactic(auto, unfolding(crate::specs::CycleGoals::cycle_of))]
fn cycle_root(
    alloc: Global,
    terms: &mut Terms,
    net: &Netlist,
    periods: u32,
) -> Result<TermId, NoMemory>
    requires empty { terms.old ≡ no_terms }
    requires netlist { IsNetlist net.now }
    ensures built { IfOk result (λ root. built_of terms.new root ≡ cycle_of net.now periods) }
    ensures bit { IfOk result (λ root. HasBits terms.new root 1) }
{
    let zero_bit = terms.constant(1, 0)?;
    let unroller = Unroller {
        alloc,
        net,
        zero_bit,
    };
    let starts = unroller.start_terms(terms)?;
    let state = CycleTerms {
        registers: Vec::from_slice(alloc, &starts)?,
        sounding: zero_bit,
        found: zero_bit,
    };
    unroller.found_term(terms, &starts, state, periods)
}

/// The goal of a limit cycle of a period from 1 to `periods`: its inputs are the start words of the
/// registers that aren't feed-forward, in their order, in as many bits as the format's words have,
/// and it is 1 exactly where the start with these words, and 0 in the feed-forward registers, has
/// such a cycle.
pub fn cycle_goal(alloc: Global, net: &Netlist, periods: u32) -> Result<Goal, NoMemory>
    ensures made { IfOk result
        (λ goal. built_of goal.terms goal.root ≡ cycle_of net.now periods) }
    ensures inputs { IfOk result (λ goal. goal.terms.inputs
        ≡ replicate (length net.now.next - net.now.feed_forward) (width net.now.format)) }
    ensures exact { IfOk result (λ goal. (values : List ℕ) → AreValues goal.terms.inputs values
        → Tells (word_of goal.terms values goal.root)
        (HasCycle net.now (cycle_start net.now values) periods)) }
{
    let _count = net.len(); // its clause on the netlist, for the proof
    let mut terms = Terms::new(alloc);
    let root = cycle_root(alloc, &mut terms, net, periods)?;
    Goal::new(alloc, terms, root)
}
