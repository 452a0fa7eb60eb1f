// Circuits of words, which are lists of literals, lowest bit first. A sum is a row of full adders,
// each a parity of three and a majority (a ripple-carry adder). A difference is the sum with the
// complement and a carry of 1, and a comparison is the last carry of a difference: 1 where nothing
// is borrowed.
ghost use Rattle.std.specs.Prelude.{◌≡◌, ◌<◌, ◌≤◌, ◌-◌, [], length, replicate};
ghost use Rattle.std.specs.Prelude.{OnOk, IfOk};
ghost use Rattle.dsv_cnf.specs.Literal.{negation};
ghost use Rattle.dsv_cnf.specs.Formula.{IsOver};
ghost use Rattle.dsv_blast.specs.Gates.{and_wired, or_wired};
ghost use Rattle.dsv_blast.specs.Words.{zip_from, negations, sign_turned};
ghost use Rattle.dsv_blast.specs.Words.{add_from, carry_from, same_from, choice_from};
ghost use Rattle.dsv_blast.specs.Words.{difference_built, at_least_wired};

use crate::circuit::Circuit;
use dsv_base::{Items, NoMemory};
use dsv_cnf::Lit;
use std::alloc::Global;

/// The literals of a word, lowest bit first.
pub(crate) type Bits = Items<Lit>;

/// The bits that two words of one width both have.
pub(crate) fn and(
    alloc: Global,
    circuit: &mut Circuit,
    first: &[Lit],
    second: &[Lit],
) -> Result<Bits, NoMemory>
    requires alike { length second.now ≡ length first.now }
    requires first { IsOver circuit.old.formula.vars first.now }
    requires second { IsOver circuit.old.formula.vars second.now }
    ensures circuit { OnOk result
        (circuit.new ≡ (zip_from and_wired first.now second.now circuit.old []).circuit) }
    ensures bits { IfOk result
        (λ bits. bits ≡ (zip_from and_wired first.now second.now circuit.old []).bits) }
{
    let mut both = Items::new(alloc);
    for i in 0..first.len() {
        let bit = circuit.and(first[i], second[i])?;
        both.push(bit)?;
    }
    Ok(both)
}

/// The bits that one of two words of one width has.
pub(crate) fn or(
    alloc: Global,
    circuit: &mut Circuit,
    first: &[Lit],
    second: &[Lit],
) -> Result<Bits, NoMemory>
    requires alike { length second.now ≡ length first.now }
    requires first { IsOver circuit.old.formula.vars first.now }
    requires second { IsOver circuit.old.formula.vars second.now }
    ensures circuit { OnOk result
        (circuit.new ≡ (zip_from or_wired first.now second.now circuit.old []).circuit) }
    ensures bits { IfOk result
        (λ bits. bits ≡ (zip_from or_wired first.now second.now circuit.old []).bits) }
{
    let mut any = Items::new(alloc);
    for i in 0..first.len() {
        let bit = circuit.or(first[i], second[i])?;
        any.push(bit)?;
    }
    Ok(any)
}

/// The first of two words of one width where the test is true, and else the second.
pub(crate) fn choice(
    alloc: Global,
    circuit: &mut Circuit,
    test: Lit,
    first: &[Lit],
    second: &[Lit],
) -> Result<Bits, NoMemory>
    requires alike { length second.now ≡ length first.now }
    requires test { test.var < circuit.old.formula.vars }
    requires first { IsOver circuit.old.formula.vars first.now }
    requires second { IsOver circuit.old.formula.vars second.now }
    ensures circuit { OnOk result
        (circuit.new ≡ (choice_from test first.now second.now circuit.old []).circuit) }
    ensures bits { IfOk result
        (λ bits. bits ≡ (choice_from test first.now second.now circuit.old []).bits) }
{
    let mut chosen = Items::new(alloc);
    for i in 0..first.len() {
        let bit = circuit.choice(test, first[i], second[i])?;
        chosen.push(bit)?;
    }
    Ok(chosen)
}

/// The sum of two words of one width with a carry, modulo 2 to the width.
pub(crate) fn add(
    alloc: Global,
    circuit: &mut Circuit,
    first: &[Lit],
    second: &[Lit],
    carry: Lit,
) -> Result<Bits, NoMemory>
    requires alike { length second.now ≡ length first.now }
    requires first { IsOver circuit.old.formula.vars first.now }
    requires second { IsOver circuit.old.formula.vars second.now }
    requires carry { carry.var < circuit.old.formula.vars }
    ensures circuit { OnOk result
        (circuit.new ≡ (add_from first.now second.now carry circuit.old []).circuit) }
    ensures bits { IfOk result
        (λ bits. bits ≡ (add_from first.now second.now carry circuit.old []).bits) }
    ensures over { IfOk result (λ bits. IsOver circuit.new.formula.vars bits) }
    ensures width { IfOk result (λ bits. length bits ≡ length first.now) }
    ensures longer { OnOk result (circuit.old.formula.vars ≤ circuit.new.formula.vars) }
{
    let mut sum = Items::new(alloc);
    let mut carry = carry;
    for i in 0..first.len() {
        let (a, b) = (first[i], second[i]);
        let bit = circuit.parity(a, b, carry)?;
        carry = circuit.majority(a, b, carry)?;
        sum.push(bit)?;
    }
    Ok(sum)
}

/// The carry that comes out of the sum of two words of one width with a carry.
fn carry_out(
    circuit: &mut Circuit,
    first: &[Lit],
    second: &[Lit],
    carry: Lit,
) -> Result<Lit, NoMemory>
    requires alike { length second.now ≡ length first.now }
    requires first { IsOver circuit.old.formula.vars first.now }
    requires second { IsOver circuit.old.formula.vars second.now }
    requires carry { carry.var < circuit.old.formula.vars }
    ensures circuit { OnOk result
        (circuit.new ≡ (carry_from first.now second.now carry circuit.old).circuit) }
    ensures bit { IfOk result
        (λ l. l ≡ (carry_from first.now second.now carry circuit.old).bit) }
{
    let mut carry = carry;
    for i in 0..first.len() {
        carry = circuit.majority(first[i], second[i], carry)?;
    }
    Ok(carry)
}

/// Whether two words of one width are the same.
pub(crate) fn equality(
    circuit: &mut Circuit,
    first: &[Lit],
    second: &[Lit],
) -> Result<Lit, NoMemory>
    requires alike { length second.now ≡ length first.now }
    requires first { IsOver circuit.old.formula.vars first.now }
    requires second { IsOver circuit.old.formula.vars second.now }
    ensures circuit { OnOk result
        (circuit.new ≡ (same_from first.now second.now circuit.old.one circuit.old).circuit) }
    ensures bit { IfOk result
        (λ l. l ≡ (same_from first.now second.now circuit.old.one circuit.old).bit) }
{
    let mut same = circuit.one();
    for i in 0..first.len() {
        let apart = circuit.exclusive_or(first[i], second[i])?;
        same = circuit.and(same, apart.negation())?;
    }
    Ok(same)
}

/// The negation of each bit.
pub(crate) fn complement(alloc: Global, bits: &[Lit]) -> Result<Bits, NoMemory>
    ensures { IfOk result (λ turned. turned ≡ negations bits.now) }
{
    let mut turned = Items::new(alloc);
    for bit in bits {
        turned.push(bit.negation())?;
    }
    Ok(turned)
}

/// The word with its highest bit turned over.
pub(crate) fn with_sign_turned(alloc: Global, bits: &[Lit]) -> Result<Bits, NoMemory>
    ensures { IfOk result (λ turned. turned ≡ sign_turned bits.now) }
{
    let top = bits.len().saturating_sub(1);
    let mut word = Items::from_slice(alloc, &bits[..top])?;
    let sign = complement(alloc, &bits[top..])?;
    word.extend_from_slice(sign.as_slice())?;
    Ok(word)
}

/// So many bits that are the same.
pub(crate) fn repetition(alloc: Global, bit: Lit, count: usize) -> Result<Bits, NoMemory>
    ensures { IfOk result (λ bits. bits ≡ replicate count bit) }
{
    Ok(Items::from(vec![in alloc; bit; count]?))
}

/// The difference of two words of one width, modulo 2 to the width.
pub(crate) fn subtract(
    alloc: Global,
    circuit: &mut Circuit,
    first: &[Lit],
    second: &[Lit],
) -> Result<Bits, NoMemory>
    requires alike { length second.now ≡ length first.now }
    requires first { IsOver circuit.old.formula.vars first.now }
    requires second { IsOver circuit.old.formula.vars second.now }
    ensures circuit { OnOk result
        (circuit.new ≡ (difference_built circuit.old first.now second.now).circuit) }
    ensures bits { IfOk result
        (λ bits. bits ≡ (difference_built circuit.old first.now second.now).bits) }
{
    let second = complement(alloc, second)?;
    let one = circuit.one();
    add(alloc, circuit, first, second.as_slice(), one)
}

/// Whether a word is at least another of its width, without signs.
pub(crate) fn at_least(
    alloc: Global,
    circuit: &mut Circuit,
    first: &[Lit],
    second: &[Lit],
) -> Result<Lit, NoMemory>
    requires alike { length second.now ≡ length first.now }
    requires first { IsOver circuit.old.formula.vars first.now }
    requires second { IsOver circuit.old.formula.vars second.now }
    ensures circuit { OnOk result
        (circuit.new ≡ (at_least_wired circuit.old first.now second.now).circuit) }
    ensures bit { IfOk result
        (λ l. l ≡ (at_least_wired circuit.old first.now second.now).bit) }
{
    let second = complement(alloc, second)?;
    let one = circuit.one();
    carry_out(circuit, first, second.as_slice(), one)
}
