// Words that are made of constants. A product by a constant adds a shifted copy of the word for
// each bit of the constant that is 1 (shift and add); a copy is a part of the word after zeros, so
// shifting adds no gates.
ghost use Rattle.std.specs.Prelude.{◌≡◌, ◌<◌, ◌≤◌, ◌+◌};
ghost use Rattle.std.specs.Prelude.{length, cond, OnOk, IfOk};
ghost use Rattle.dsv_cnf.specs.Literal.{negation};
ghost use Rattle.dsv_cnf.specs.Formula.{IsOver};
ghost use Rattle.dsv_blast.specs.Words.{constant_bits, added_if, after_zeros};
ghost use Rattle.dsv_blast.specs.Words.{multiple_built};

use crate::circuit::Circuit;
use crate::words::{Bits, add, repetition};
use dsv_base::{Items, NoMemory};
use dsv_cnf::Lit;
use std::alloc::Global;

/// The literal where the truth holds, and else its negation.
fn says(literal: Lit, truth: bool) -> Lit
    ensures { result ≡ cond truth literal (negation literal) }
{
    if truth { literal } else { literal.negation() }
}

/// The bits of a number, by a literal that is true.
pub(crate) fn constant(alloc: Global, one: Lit, width: u32, number: u128) -> Result<Bits, NoMemory>
    ensures { IfOk result (λ bits. bits ≡ constant_bits one width number) }
{
    let mut bits = Items::new(alloc);
    let mut rest = number;
    for i in 0..width {
        bits.push(says(one, rest % 2 == 1))?;
        rest /= 2;
    }
    Ok(bits)
}

/// A sum with a copy of a word, where it is to be added.
fn add_if(
    alloc: Global,
    circuit: &mut Circuit,
    odd: bool,
    copy: &[Lit],
    sum: Bits,
) -> Result<Bits, NoMemory>
    requires alike { length copy.now ≡ length sum }
    requires copy { IsOver circuit.old.formula.vars copy.now }
    requires sum { IsOver circuit.old.formula.vars sum }
    ensures circuit { OnOk result
        (circuit.new ≡ (added_if odd copy.now circuit.old sum).circuit) }
    ensures bits { IfOk result (λ bits. bits ≡ (added_if odd copy.now circuit.old sum).bits) }
    ensures over { IfOk result (λ bits. IsOver circuit.new.formula.vars bits) }
    ensures width { IfOk result (λ bits. length bits ≡ length sum) }
    ensures longer { OnOk result (circuit.old.formula.vars ≤ circuit.new.formula.vars) }
{
    if odd {
        let zero = circuit.zero();
        add(alloc, circuit, sum.as_slice(), copy, zero)
    } else {
        Ok(sum)
    }
}

/// The bits of a word after as many zeros.
fn with_zeros(alloc: Global, zero: Lit, word: &[Lit]) -> Result<Bits, NoMemory>
    ensures { IfOk result (λ bits. bits ≡ after_zeros zero word.now) }
{
    let mut bits = repetition(alloc, zero, word.len())?;
    bits.extend_from_slice(word)?;
    Ok(bits)
}

/// A word times a number, modulo 2 to its width.
pub(crate) fn multiply(
    alloc: Global,
    circuit: &mut Circuit,
    number: u128,
    word: &[Lit],
) -> Result<Bits, NoMemory>
    requires { IsOver circuit.old.formula.vars word.now }
    ensures circuit { OnOk result
        (circuit.new ≡ (multiple_built circuit.old number word.now).circuit) }
    ensures bits { IfOk result (λ bits. bits ≡ (multiple_built circuit.old number word.now).bits) }
{
    let width = word.len();
    let zero = circuit.zero();
    let copies = with_zeros(alloc, zero, word)?;
    let copies = copies.as_slice();
    let mut sum = repetition(alloc, zero, width)?;
    let mut rest = number;
    for i in 0..width {
        let place = width - i;
        let copy = &copies[place..place + width];
        sum = add_if(alloc, circuit, rest % 2 == 1, copy, sum)?;
        rest /= 2;
    }
    Ok(sum)
}
