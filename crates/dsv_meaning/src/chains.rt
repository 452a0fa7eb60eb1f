// The new words of registers.
//
// The registers' next words. In direct forms they are delay lines, each loaded from the one before
// it. In the transposed form II each takes a product of the input, less one of the output, and the
// next register (Oppenheim and Schafer, Discrete-Time Signal Processing). The delta forms have an
// accumulator in place of each delay (Middleton and Goodwin 1986): the old word, and delta times
// what a delay would be loaded with.
#![tactic(auto, using(dsv_algebra::proofs::Casts::casts))]

ghost use Rattle.std.specs.Prelude.{◌≡◌, ◌+◌, ◌*◌, ◌≤◌, length, drop};
ghost use Rattle.dsv_meaning.specs.Equations.{order, feedback, delta_chain};
ghost use Rattle.dsv_meaning.specs.Equations.{transposed_chain, transposed_delta_chain};
ghost use Rattle.dsv_meaning.specs.Stepping.{delay_line};
ghost use Rattle.dsv_meaning.specs.declared.chains.TheConstants.{MOST_REGISTERS};
ghost use Rattle.dsv_system.specs.declared.exact_list.TheConstants.{MOST_EXACT};

use crate::lines::line;
use crate::summands::{Signals, delta_line, rest_after, transposed_line};
use arrayvec::ArrayVec;
use dsv_quantiser::Quantised;
use dsv_system::ExactList;

/// The most registers that a realisation has.
pub(crate) const MOST_REGISTERS: usize = 16;

/// The words in the registers.
pub(crate) type Registers = ArrayVec<i64, MOST_REGISTERS>;

/// Adds the new words of a delay line: the newest word, and the old ones but for the oldest.
pub(crate) fn delay(newest: &i64, old: &[i64], registers: &mut Registers)
    requires { length registers.old.items + length old.now ≤ MOST_REGISTERS }
    ensures value { registers.new.items ≡ delay_line registers.old.items newest.now old.now }
    ensures count { length registers.new.items ≡ length registers.old.items + length old.now }
{
    let mut before = *newest;
    for word in old {
        registers.push(before);
        before = *word;
    }
}

/// Adds the new words of a chain of the delta forms: to each old word delta times the old one
/// before it.
pub(crate) fn delta_chain(
    quantised: &Quantised,
    newest: &i64,
    old: &[i64],
    exact: &mut ExactList,
    registers: &mut Registers,
)
    requires room { length exact.old.items + 4 * length old.now ≤ MOST_EXACT }
    requires many { length registers.old.items + length old.now ≤ MOST_REGISTERS }
    ensures value { record { words = registers.new.items; exact = exact.new.items } ≡
        delta_chain quantised.now newest.now old.now
        (record { words = registers.old.items; exact = exact.old.items }) }
    ensures count { length registers.new.items ≡ length registers.old.items + length old.now }
    ensures room { length exact.new.items ≤ length exact.old.items + 4 * length old.now }
{
    let mut before = newest;
    for word in old {
        let next = line(quantised, &delta_line(quantised, word, before), exact);
        registers.push(next);
        before = word;
    }
}

/// Adds the new words of the transposed form's chain.
pub(crate) fn transposed_chain(
    quantised: &Quantised,
    signals: Signals,
    old: &[i64],
    exact: &mut ExactList,
    registers: &mut Registers,
)
    requires old { length old.now ≡ order quantised.now }
    requires room { length exact.old.items + 6 * order quantised.now ≤ MOST_EXACT }
    requires many { length registers.old.items + order quantised.now ≤ MOST_REGISTERS }
    ensures value { record { words = registers.new.items; exact = exact.new.items } ≡
        transposed_chain quantised.now signals.entry.x.now signals.entry.y.now
        (drop 1 quantised.now.b)
        (feedback quantised.now) old.now
        (record { words = registers.old.items; exact = exact.old.items }) }
    ensures count { length registers.new.items ≡ length registers.old.items + order quantised.now }
    ensures room { length exact.new.items ≤ length exact.old.items + 6 * order quantised.now }
{
    let _order = quantised.order(); // its range, for the proof
    for i in 0..old.len() {
        let summands = transposed_line(quantised, i, signals, rest_after(old, i + 1));
        let next = line(quantised, &summands, exact);
        registers.push(next);
    }
}

/// Adds the new words of the transposed delta form's chain.
pub(crate) fn transposed_delta_chain(
    quantised: &Quantised,
    signals: Signals,
    old: &[i64],
    exact: &mut ExactList,
    registers: &mut Registers,
)
    requires old { length old.now ≡ order quantised.now }
    requires room { length exact.old.items + 10 * order quantised.now ≤ MOST_EXACT }
    requires many { length registers.old.items + order quantised.now ≤ MOST_REGISTERS }
    ensures value { record { words = registers.new.items; exact = exact.new.items } ≡
        transposed_delta_chain quantised.now signals.entry.x.now signals.entry.y.now
        (drop 1 quantised.now.b)
        (feedback quantised.now) old.now
        (record { words = registers.old.items; exact = exact.old.items }) }
    ensures count { length registers.new.items ≡ length registers.old.items + order quantised.now }
    ensures room { length exact.new.items ≤ length exact.old.items + 10 * order quantised.now }
{
    let _order = quantised.order(); // its range, for the proof
    for i in 0..old.len() {
        let summands = transposed_line(quantised, i, signals, rest_after(old, i + 1));
        let change = line(quantised, &summands, exact);
        let next = line(quantised, &delta_line(quantised, &old[i], &change), exact);
        registers.push(next);
    }
}
