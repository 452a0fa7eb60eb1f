// The bits of one node over those of earlier ones.
ghost use Rattle.std.specs.Prelude.{◌≡◌, ◌<◌, ◌≤◌, ◌+◌, ◌++◌};
ghost use Rattle.std.specs.Prelude.{length, map, slice_index, replicate, ◌∷◌, []};
ghost use Rattle.std.specs.Prelude.{slice_index_or, OnOk, IfOk};
ghost use Rattle.dsv_cnf.specs.Formula.{IsOver};
ghost use Rattle.dsv_term.specs.TermNode.{AreAlike, IsLawful};
ghost use Rattle.dsv_term.specs.Word.{IsWidth, residue};
ghost use Rattle.dsv_blast.specs.Gates.{zero_of};
ghost use Rattle.dsv_blast.specs.Words.{sign_turned, extended, at_least_wired};
ghost use Rattle.dsv_blast.specs.Words.{difference_built, multiple_built};
ghost use Rattle.dsv_blast.specs.Blast.{bits_at, node_built};
ghost use Rattle.dsv_blast.specs.Pushing.{AreEarlier};

use crate::circuit::Circuit;
use crate::multiples::{constant, multiply};
use crate::places::BitPlaces;
use crate::words;
use crate::words::Bits;
use dsv_base::{Items, NoMemory};
use dsv_cnf::Lit;
use dsv_term::{TermId, TermNode, Word};
use std::alloc::Global;

/// The bits of an earlier node.
fn operand<'a>(circuit: &Circuit, bits: &'a BitPlaces, id: TermId) -> &'a [Lit]
    requires stands { id.0 < length (map length bits.now) }
    requires earlier { AreEarlier circuit.now bits.now }
    ensures bits { result.now ≡ bits_at bits.now id.0 }
    ensures over { IsOver circuit.now.formula.vars result.now }
    ensures width { length result.now ≡ slice_index (map length bits.now) id.0 }
    ensures lawful { IsWidth (length result.now) }
{
    bits.at(id.0 as usize)
}

/// One bit as a word.
fn bit_word(alloc: Global, bit: Lit) -> Result<Bits, NoMemory>
    ensures { IfOk result (λ bits. bits ≡ bit ∷ []) }
{
    let mut bits = Items::new(alloc);
    bits.push(bit)?;
    Ok(bits)
}

/// The lowest bit of a word.
fn lowest_bit(circuit: &Circuit, bits: &[Lit]) -> Lit
    requires some { 1 ≤ length bits.now }
    requires over { IsOver circuit.now.formula.vars bits.now }
    ensures bit { result ≡ slice_index_or bits.now 0 (zero_of circuit.now) }
    ensures over { result.var < circuit.now.formula.vars }
{
    bits[0]
}

/// Whether a word is at least another of its width, with signs.
fn signed_at_least(
    alloc: Global,
    circuit: &mut Circuit,
    first: &[Lit],
    second: &[Lit],
) -> Result<Lit, NoMemory>
    requires alike { length second.now ≡ length first.now }
    requires first { IsOver circuit.old.formula.vars first.now }
    requires second { IsOver circuit.old.formula.vars second.now }
    ensures circuit { OnOk result (circuit.new
        ≡ (at_least_wired circuit.old (sign_turned first.now) (sign_turned second.now)).circuit) }
    ensures bit { IfOk result (λ l. l
        ≡ (at_least_wired circuit.old (sign_turned first.now) (sign_turned second.now)).bit) }
{
    let first = words::with_sign_turned(alloc, first)?;
    let second = words::with_sign_turned(alloc, second)?;
    words::at_least(alloc, circuit, first.as_slice(), second.as_slice())
}

/// The same number in two's complement, in this many bits.
fn sign_extended(
    alloc: Global,
    circuit: &Circuit,
    width: u32,
    bits: &[Lit],
) -> Result<Bits, NoMemory>
    requires some { 1 ≤ length bits.now }
    requires wider { length bits.now ≤ width }
    ensures { IfOk result (λ word. word ≡ extended (zero_of circuit.now) width bits.now) }
{
    let sign = bits[bits.len() - 1];
    let more = words::repetition(alloc, sign, width as usize - bits.len())?;
    let mut word = Items::from_slice(alloc, bits)?;
    word.extend_from_slice(more.as_slice())?;
    Ok(word)
}

/// The negation of a number, modulo 2 to its width.
fn negation(alloc: Global, bits: &[Lit], circuit: &mut Circuit) -> Result<Bits, NoMemory>
    requires { IsOver circuit.old.formula.vars bits.now }
    ensures circuit { OnOk result (circuit.new ≡ (difference_built circuit.old
        (replicate (length bits.now) (zero_of circuit.old)) bits.now).circuit) }
    ensures bits { IfOk result (λ word. word ≡ (difference_built circuit.old
        (replicate (length bits.now) (zero_of circuit.old)) bits.now).bits) }
{
    let zeros = words::repetition(alloc, circuit.zero(), bits.len())?;
    words::subtract(alloc, circuit, zeros.as_slice(), bits)
}

/// The product by a constant, modulo 2 to the width.
fn product(alloc: Global, coeff: i64, bits: &[Lit], circuit: &mut Circuit) -> Result<Bits, NoMemory>
    requires over { IsOver circuit.old.formula.vars bits.now }
    requires width { IsWidth (length bits.now) }
    ensures circuit { OnOk result (circuit.new
        ≡ (multiple_built circuit.old (residue (length bits.now) coeff) bits.now).circuit) }
    ensures bits { IfOk result (λ word. word
        ≡ (multiple_built circuit.old (residue (length bits.now) coeff) bits.now).bits) }
{
    let factor = Word::of_signed(bits.len() as u32, i128::from(coeff));
    multiply(alloc, circuit, factor.number, bits)
}

/// The sum, modulo 2 to the width.
fn sum(
    alloc: Global,
    circuit: &mut Circuit,
    bits: &BitPlaces,
    a: TermId,
    b: TermId,
) -> Result<Bits, NoMemory>
    requires earlier { AreEarlier circuit.old bits.now }
    requires alike { AreAlike (map length bits.now) a b }
    ensures circuit { OnOk result (circuit.new
        ≡ (node_built [] bits.now circuit.old (TermNode.Add a b)).circuit) }
    ensures bits { IfOk result (λ word. word
        ≡ (node_built [] bits.now circuit.old (TermNode.Add a b)).bits) }
{
    let first = operand(circuit, bits, a);
    let second = operand(circuit, bits, b);
    let zero = circuit.zero();
    words::add(alloc, circuit, first, second, zero)
}

/// The difference, modulo 2 to the width.
fn difference(
    alloc: Global,
    circuit: &mut Circuit,
    bits: &BitPlaces,
    a: TermId,
    b: TermId,
) -> Result<Bits, NoMemory>
    requires earlier { AreEarlier circuit.old bits.now }
    requires alike { AreAlike (map length bits.now) a b }
    ensures circuit { OnOk result (circuit.new
        ≡ (node_built [] bits.now circuit.old (TermNode.Sub a b)).circuit) }
    ensures bits { IfOk result (λ word. word
        ≡ (node_built [] bits.now circuit.old (TermNode.Sub a b)).bits) }
{
    let first = operand(circuit, bits, a);
    let second = operand(circuit, bits, b);
    words::subtract(alloc, circuit, first, second)
}

/// The bits that both have.
fn conjunction(
    alloc: Global,
    circuit: &mut Circuit,
    bits: &BitPlaces,
    a: TermId,
    b: TermId,
) -> Result<Bits, NoMemory>
    requires earlier { AreEarlier circuit.old bits.now }
    requires alike { AreAlike (map length bits.now) a b }
    ensures circuit { OnOk result (circuit.new
        ≡ (node_built [] bits.now circuit.old (TermNode.And a b)).circuit) }
    ensures bits { IfOk result (λ word. word
        ≡ (node_built [] bits.now circuit.old (TermNode.And a b)).bits) }
{
    let first = operand(circuit, bits, a);
    let second = operand(circuit, bits, b);
    words::and(alloc, circuit, first, second)
}

/// The bits that one of the two has.
fn disjunction(
    alloc: Global,
    circuit: &mut Circuit,
    bits: &BitPlaces,
    a: TermId,
    b: TermId,
) -> Result<Bits, NoMemory>
    requires earlier { AreEarlier circuit.old bits.now }
    requires alike { AreAlike (map length bits.now) a b }
    ensures circuit { OnOk result (circuit.new
        ≡ (node_built [] bits.now circuit.old (TermNode.Or a b)).circuit) }
    ensures bits { IfOk result (λ word. word
        ≡ (node_built [] bits.now circuit.old (TermNode.Or a b)).bits) }
{
    let first = operand(circuit, bits, a);
    let second = operand(circuit, bits, b);
    words::or(alloc, circuit, first, second)
}

/// Whether the first is less, with signs.
fn signed_less(
    alloc: Global,
    circuit: &mut Circuit,
    bits: &BitPlaces,
    a: TermId,
    b: TermId,
) -> Result<Bits, NoMemory>
    requires earlier { AreEarlier circuit.old bits.now }
    requires alike { AreAlike (map length bits.now) a b }
    ensures circuit { OnOk result (circuit.new
        ≡ (node_built [] bits.now circuit.old (TermNode.Slt a b)).circuit) }
    ensures bits { IfOk result (λ word. word
        ≡ (node_built [] bits.now circuit.old (TermNode.Slt a b)).bits) }
{
    let first = operand(circuit, bits, a);
    let second = operand(circuit, bits, b);
    let at_least = signed_at_least(alloc, circuit, first, second)?;
    bit_word(alloc, at_least.negation())
}

/// Whether the first is at most the second, with signs.
fn signed_at_most(
    alloc: Global,
    circuit: &mut Circuit,
    bits: &BitPlaces,
    a: TermId,
    b: TermId,
) -> Result<Bits, NoMemory>
    requires earlier { AreEarlier circuit.old bits.now }
    requires alike { AreAlike (map length bits.now) a b }
    ensures circuit { OnOk result (circuit.new
        ≡ (node_built [] bits.now circuit.old (TermNode.Sle a b)).circuit) }
    ensures bits { IfOk result (λ word. word
        ≡ (node_built [] bits.now circuit.old (TermNode.Sle a b)).bits) }
{
    let first = operand(circuit, bits, a);
    let second = operand(circuit, bits, b);
    let at_most = signed_at_least(alloc, circuit, second, first)?;
    bit_word(alloc, at_most)
}

/// Whether the first is less, without signs.
fn unsigned_less(
    alloc: Global,
    circuit: &mut Circuit,
    bits: &BitPlaces,
    a: TermId,
    b: TermId,
) -> Result<Bits, NoMemory>
    requires earlier { AreEarlier circuit.old bits.now }
    requires alike { AreAlike (map length bits.now) a b }
    ensures circuit { OnOk result (circuit.new
        ≡ (node_built [] bits.now circuit.old (TermNode.Ult a b)).circuit) }
    ensures bits { IfOk result (λ word. word
        ≡ (node_built [] bits.now circuit.old (TermNode.Ult a b)).bits) }
{
    let first = operand(circuit, bits, a);
    let second = operand(circuit, bits, b);
    let at_least = words::at_least(alloc, circuit, first, second)?;
    bit_word(alloc, at_least.negation())
}

/// Whether the two are the same.
fn equality(
    alloc: Global,
    circuit: &mut Circuit,
    bits: &BitPlaces,
    a: TermId,
    b: TermId,
) -> Result<Bits, NoMemory>
    requires earlier { AreEarlier circuit.old bits.now }
    requires alike { AreAlike (map length bits.now) a b }
    ensures circuit { OnOk result (circuit.new
        ≡ (node_built [] bits.now circuit.old (TermNode.Eq a b)).circuit) }
    ensures bits { IfOk result (λ word. word
        ≡ (node_built [] bits.now circuit.old (TermNode.Eq a b)).bits) }
{
    let first = operand(circuit, bits, a);
    let second = operand(circuit, bits, b);
    let same = words::equality(circuit, first, second)?;
    bit_word(alloc, same)
}

/// The bits of the first above those of the second.
fn concatenation(
    alloc: Global,
    circuit: &Circuit,
    bits: &BitPlaces,
    a: TermId,
    b: TermId,
) -> Result<Bits, NoMemory>
    requires earlier { AreEarlier circuit.now bits.now }
    requires first { a.0 < length (map length bits.now) }
    requires second { b.0 < length (map length bits.now) }
    ensures { IfOk result (λ word. word ≡ bits_at bits.now b.0 ++ bits_at bits.now a.0) }
{
    let mut word = Items::from_slice(alloc, operand(circuit, bits, b))?;
    word.extend_from_slice(operand(circuit, bits, a))?;
    Ok(word)
}

/// The bits of a node.
pub(crate) fn node_bits(
    alloc: Global,
    circuit: &mut Circuit,
    places: &BitPlaces,
    bits: &BitPlaces,
    node: TermNode,
) -> Result<Bits, NoMemory>
    requires earlier { AreEarlier circuit.old bits.now }
    requires lawful { IsLawful (map length places.now) (map length bits.now) node }
    ensures circuit { OnOk result (circuit.new
        ≡ (node_built places.now bits.now circuit.old node).circuit) }
    ensures bits { IfOk result (λ word. word
        ≡ (node_built places.now bits.now circuit.old node).bits) }
{
    match node {
        TermNode::Input(k) => Items::from_slice(alloc, places.at(k as usize)),
        TermNode::Constant { width, value } => constant(alloc, circuit.one(), width, value),
        TermNode::Add(a, b) => sum(alloc, circuit, bits, a, b),
        TermNode::Sub(a, b) => difference(alloc, circuit, bits, a, b),
        TermNode::Slt(a, b) => signed_less(alloc, circuit, bits, a, b),
        TermNode::Sle(a, b) => signed_at_most(alloc, circuit, bits, a, b),
        TermNode::Ult(a, b) => unsigned_less(alloc, circuit, bits, a, b),
        TermNode::Eq(a, b) => equality(alloc, circuit, bits, a, b),
        TermNode::And(a, b) => conjunction(alloc, circuit, bits, a, b),
        TermNode::Or(a, b) => disjunction(alloc, circuit, bits, a, b),
        TermNode::Concat(a, b) => concatenation(alloc, circuit, bits, a, b),
        TermNode::Neg(a) => negation(alloc, operand(circuit, bits, a), circuit),
        TermNode::Not(a) => words::complement(alloc, operand(circuit, bits, a)),
        TermNode::MulConst { of, coeff } => {
            product(alloc, coeff, operand(circuit, bits, of), circuit)
        }
        TermNode::Sext { of, width } => {
            sign_extended(alloc, circuit, width, operand(circuit, bits, of))
        }
        TermNode::Extract { of, high, low } => {
            let word = operand(circuit, bits, of);
            Items::from_slice(alloc, &word[low as usize..high as usize + 1])
        }
        TermNode::Ite(test, a, b) => {
            let test = lowest_bit(circuit, operand(circuit, bits, test));
            let first = operand(circuit, bits, a);
            let second = operand(circuit, bits, b);
            words::choice(alloc, circuit, test, first, second)
        }
    }
}
