// The goal of an overflow is a bounded model check: a run from registers of zeros over so many
// inputs, and a root that is 1 where some exact value of it is no word and all inputs are in
// range. Up to the first such value nothing wraps or saturates, so one unrolling serves both modes
// of overflow.
//
// The root has tests of known ranges, too. They hold at all inputs in range, so that the root
// stays as it is, and a search for a model of it is shorter.
ghost use Rattle.dsv_word.specs.Words.{width, lo, hi};
ghost use Rattle.std.specs.Prelude.{◌≡◌, ◌≤ℤ◌, ℤ, ℕ, List, length, replicate, IfOk};
ghost use Rattle.dsv_netlist.specs.Conditions.{IsNetlist};
ghost use Rattle.dsv_system.specs.Breaks.{Breaks};
ghost use Rattle.dsv_linear.specs.Facts.{AreFacts};
ghost use Rattle.dsv_linear.specs.Known.{facts_of};
ghost use Rattle.dsv_term.specs.declared.node.TermNode.TheVariants as TermNode;
ghost use Rattle.dsv_term.specs.Building.{built_of, with_node};
ghost use Rattle.dsv_term.specs.Terms.{AreValues, word_of, HasBits};
ghost use Rattle.dsv_term.specs.TermsView.{no_terms};
ghost use Rattle.dsv_unroll.specs.Goals.{first_inputs, overflow_of};
ghost use Rattle.dsv_unroll.specs.Words.{spelled_words, Tells};
ghost use Rattle.dsv_netlist.specs.Systems.{runs_of};

use crate::facts::{KnownTests, fact_tests};
use crate::inputs::{InputRange, input_terms};
use crate::lists::{conjunction, repeated_term};
use crate::unroller::Unroller;
use dsv_base::NoMemory;
use dsv_linear::facts_of;
use dsv_netlist::Netlist;
use dsv_term::{Goal, TermId, Terms};
use std::alloc::Global;

/// From so many samples on a goal is long: a value that is known to lie between two ends is tested
/// for being a word, too. Below it a search takes some hundred conflicts at most.
const LONG_RUN: u32 = 11;

/// What the goal begins with: the terms of the inputs, the tests that they are in range, a zero in
/// one bit, and the registers, which start with it.
#[derive(Drop)]
struct ZeroStart {
    inputs: Vec<TermId>,
    tests: Vec<TermId>,
    zero_bit: TermId,
    registers: Vec<TermId>,
}

/// The start of the goal of an overflow.
fn zero_start(
    alloc: Global,
    terms: &mut Terms,
    net: &Netlist,
    range: &InputRange,
    samples: u32,
) -> Result<ZeroStart, NoMemory>
    ensures zero_bit { IfOk result (λ start. built_of terms.new start.zero_bit ≡ with_node
        (first_inputs net.now terms.old range.now.low range.now.high samples).terms
        (TermNode.Constant 1 0)) }
    ensures inputs { IfOk result (λ start. start.inputs.items
        ≡ (first_inputs net.now terms.old range.now.low range.now.high samples).ids) }
    ensures tests { IfOk result (λ start. start.tests.items
        ≡ (first_inputs net.now terms.old range.now.low range.now.high samples).tests) }
    ensures registers { IfOk result (λ start. start.registers.items
        ≡ replicate (length net.now.next) start.zero_bit) }
{
    let format = net.format();
    let inputs = input_terms(alloc, terms, &format, range, samples)?;
    let zero_bit = terms.constant(1, 0)?;
    let registers = repeated_term(alloc, zero_bit, net.registers())?;
    Ok(ZeroStart {
        inputs: inputs.ids,
        tests: inputs.tests,
        zero_bit,
        registers,
    })
}

/// The root of the goal of an overflow.
fn overflow_root(
    alloc: Global,
    terms: &mut Terms,
    net: &Netlist,
    range: &InputRange,
    samples: u32,
) -> Result<TermId, NoMemory>
    requires empty { terms.old ≡ no_terms }
    requires low { range.now.low ≤ℤ hi (width net.now.format) }
    requires high { lo (width net.now.format) ≤ℤ range.now.high }
    ensures built { IfOk result (λ root. built_of terms.new root
        ≡ overflow_of net.now range.now.low range.now.high samples) }
    ensures bit { IfOk result (λ root. HasBits terms.new root 1) }
    ensures netlist { IfOk result (λ root. IsNetlist net.now) }
    ensures facts { IfOk result (λ root. AreFacts net.now range.now.low range.now.high samples
        (facts_of net.now range.now.low range.now.high samples)) }
{
    let _count = net.len(); // its clause on the netlist, for the proof
    let facts = facts_of(alloc, net, range.low, range.high, samples)?;
    let start = zero_start(alloc, terms, net, range, samples)?;
    let zero_bit = start.zero_bit;
    let registers = start.registers;
    let unroller = Unroller {
        alloc,
        net,
        zero_bit,
    };
    let run = unroller.run_terms(terms, &start.inputs, registers)?;
    let before = KnownTests {
        overflowed: zero_bit,
        tests: start.tests,
    };
    let is_long = samples >= LONG_RUN;
    let tests = fact_tests(terms, before, is_long, facts.as_slice(), &run.tested)?;
    conjunction(terms, run.overflowed, &tests)
}

/// The goal of an overflow within so many samples from registers of zeros: its inputs are those of
/// the samples, in their order, in as many bits as the format's words have, and it is 1 exactly
/// where all of them are from `low` to `high` and an exact value of some sample is no word.
pub fn overflow_goal(
    alloc: Global,
    net: &Netlist,
    low: i64,
    high: i64,
    samples: u32,
) -> Result<Goal, NoMemory>
    requires low { low ≤ℤ hi (width net.now.format) }
    requires high { lo (width net.now.format) ≤ℤ high }
    ensures made { IfOk result
        (λ goal. built_of goal.terms goal.root ≡ overflow_of net.now low high samples) }
    ensures inputs { IfOk result
        (λ goal. goal.terms.inputs ≡ replicate samples (width net.now.format)) }
    ensures exact { IfOk result (λ goal. (values : List ℕ) → AreValues goal.terms.inputs values
        → Tells (word_of goal.terms values goal.root)
        (Breaks (runs_of net.now) low high (spelled_words net.now.format values))) }
{
    let range = InputRange { low, high };
    let mut terms = Terms::new(alloc);
    let root = overflow_root(alloc, &mut terms, net, &range, samples)?;
    Goal::new(alloc, terms, root)
}
