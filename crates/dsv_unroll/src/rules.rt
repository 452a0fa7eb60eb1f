// How each kind of node becomes a term. A term spells its value in two's complement, in so many
// bits that it never wraps: those that the node's bound needs, or, where that is less, so many
// more than its operands have as suffice for any operands. The operands are extended to that width
// first, and so each rule computes with whole numbers.
ghost use Rattle.std.specs.Prelude.{◌≡◌, ◌<◌, ◌≤◌, ◌-◌, ◌^◌, length, pos, IfOk};
ghost use Rattle.dsv_term.specs.Limits.{max_width};
ghost use Rattle.dsv_term.specs.Building.{built_of};
ghost use Rattle.dsv_term.specs.Growth.{AreSound, Adds};
ghost use Rattle.dsv_term.specs.Terms.{width_of};
ghost use Rattle.dsv_term.specs.Word.{IsWidth};
ghost use Rattle.dsv_unroll.specs.Rules.{width_for, widened_term, product_width};
ghost use Rattle.dsv_unroll.specs.Rules.{product_term, scaled_width, scaled_term};
ghost use Rattle.dsv_unroll.specs.Rules.{sum_width, shift_width};
ghost use Rattle.dsv_unroll.specs.Rules.{sum_term, difference_term, with_addend, shifted_term};
ghost use Rattle.dsv_unroll.specs.Rules.{rounded_term};
ghost use Rattle.dsv_unroll.specs.Ready.{IsValue};

use dsv_base::NoMemory;
use dsv_term::{TermId, Terms};

/// How a goal takes the node that fits a value into a word.
#[derive(Clone, Copy, Debug, PartialEq, Eq)]
pub enum FitRule {
    /// A value that is no word is a break, and what comes after it doesn't matter.
    Tested,
    /// As the format's overflow has it.
    Faithful,
}

/// The least width in which all numbers of at most this size are spelled.
pub(crate) fn width_for(bound: u128) -> u32
    ensures { result ≡ width_for bound }
{
    129 - bound.leading_zeros()
}

/// The same number in so many bits.
pub(crate) fn widened_term(terms: &mut Terms, id: TermId, bits: u32) -> Result<TermId, NoMemory>
    requires sound { AreSound terms.old }
    requires stands { id.0 < length terms.old.nodes }
    requires wider { width_of terms.old id ≤ bits }
    requires narrow { bits ≤ max_width }
    ensures built { IfOk result
        (λ made. built_of terms.new made ≡ widened_term terms.old id bits) }
    ensures adds { IfOk result (λ made. Adds terms.old terms.new made bits) }
{
    if terms.width(id) == bits {
        return Ok(id);
    }
    terms.sext(id, bits)
}

/// The width of a product by a constant, where this is its bound.
fn product_width(terms: &Terms, bound: u128, coeff: i64, of: TermId) -> u32
    requires stands { of.0 < length terms.now.nodes }
    requires small { bound < 2 ^ 126 }
    ensures { result ≡ product_width terms.now bound coeff of }
{
    let bits = terms.width(of);
    let size = u128::from(coeff.unsigned_abs()).min(bound);
    bits.max((bits + width_for(size) - 1).min(width_for(bound)))
}

/// A product by a constant, where this is its bound.
pub(crate) fn product_term(
    terms: &mut Terms,
    bound: u128,
    coeff: i64,
    of: TermId,
) -> Result<TermId, NoMemory>
    requires sound { AreSound terms.old }
    requires value { IsValue terms.old of }
    requires small { bound < 2 ^ 126 }
    ensures { IfOk result (λ made. built_of terms.new made
        ≡ product_term terms.old bound coeff of) }
{
    let bits = product_width(terms, bound, coeff, of);
    let wide = widened_term(terms, of, bits)?;
    terms.mul_const(wide, coeff)
}

/// The width of a term times 2 to the number of bits after the point, where this is its bound.
fn scaled_width(terms: &Terms, bound: u128, frac_bits: u32, of: TermId) -> u32
    requires stands { of.0 < length terms.now.nodes }
    requires small { bound < 2 ^ 126 }
    requires point { frac_bits ≤ 48 }
    ensures { result ≡ scaled_width terms.now bound frac_bits of }
{
    let bits = terms.width(of);
    bits.max((bits + frac_bits).min(width_for(bound)))
}

/// 2 to the number of bits after the point.
#[tactic(auto, using(dsv_word::proofs::Powers::power_small))]
fn scale_of(frac_bits: u32) -> i64
    requires { frac_bits ≤ 48 }
    ensures { result ≡ pos (2 ^ frac_bits) }
{
    1i64 << frac_bits
}

/// A term times 2 to the number of bits after the point, where this is its bound.
pub(crate) fn scaled_term(
    terms: &mut Terms,
    bound: u128,
    frac_bits: u32,
    of: TermId,
) -> Result<TermId, NoMemory>
    requires sound { AreSound terms.old }
    requires value { IsValue terms.old of }
    requires small { bound < 2 ^ 126 }
    requires point { frac_bits ≤ 48 }
    ensures { IfOk result (λ made. built_of terms.new made
        ≡ scaled_term terms.old bound frac_bits of) }
{
    let bits = scaled_width(terms, bound, frac_bits, of);
    let wide = widened_term(terms, of, bits)?;
    terms.mul_const(wide, scale_of(frac_bits))
}

/// The width of a sum or a difference, where this is its bound.
fn sum_width(terms: &Terms, bound: u128, left: TermId, right: TermId) -> u32
    requires left { left.0 < length terms.now.nodes }
    requires right { right.0 < length terms.now.nodes }
    ensures { result ≡ sum_width terms.now bound left right }
{
    let bits = terms.width(left).max(terms.width(right));
    bits.max((bits + 1).min(width_for(bound)))
}

/// A sum, where this is its bound.
pub(crate) fn sum_term(
    terms: &mut Terms,
    bound: u128,
    left: TermId,
    right: TermId,
) -> Result<TermId, NoMemory>
    requires sound { AreSound terms.old }
    requires left { IsValue terms.old left }
    requires right { IsValue terms.old right }
    requires small { bound < 2 ^ 126 }
    ensures { IfOk result (λ made. built_of terms.new made
        ≡ sum_term terms.old bound left right) }
{
    let bits = sum_width(terms, bound, left, right);
    let first = widened_term(terms, left, bits)?;
    let second = widened_term(terms, right, bits)?;
    terms.add(first, second)
}

/// A difference, where this is its bound.
pub(crate) fn difference_term(
    terms: &mut Terms,
    bound: u128,
    left: TermId,
    right: TermId,
) -> Result<TermId, NoMemory>
    requires sound { AreSound terms.old }
    requires left { IsValue terms.old left }
    requires right { IsValue terms.old right }
    requires small { bound < 2 ^ 126 }
    ensures { IfOk result (λ made. built_of terms.new made
        ≡ difference_term terms.old bound left right) }
{
    let bits = sum_width(terms, bound, left, right);
    let first = widened_term(terms, left, bits)?;
    let second = widened_term(terms, right, bits)?;
    terms.sub(first, second)
}

/// A term with a number added in the same bits.
fn with_addend(terms: &mut Terms, bits: u32, addend: u128, id: TermId) -> Result<TermId, NoMemory>
    requires sound { AreSound terms.old }
    requires stands { id.0 < length terms.old.nodes }
    requires same { width_of terms.old id ≡ bits }
    requires width { IsWidth bits }
    requires small { addend < 2 ^ bits }
    ensures built { IfOk result (λ made. built_of terms.new made
        ≡ with_addend terms.old bits addend id) }
    ensures adds { IfOk result (λ made. Adds terms.old terms.new made bits) }
{
    if addend == 0 {
        return Ok(id);
    }
    let constant = terms.constant(bits, addend)?;
    terms.add(id, constant)
}

/// The width of a term with an addend, where this is the bound of what is rounded.
fn shift_width(terms: &Terms, bound: u128, addend: u128, frac_bits: u32, of: TermId) -> u32
    requires stands { of.0 < length terms.now.nodes }
    requires small { bound < 2 ^ 126 }
    requires addend { addend ≤ 2 ^ frac_bits }
    requires point { frac_bits ≤ 48 }
    ensures { result ≡ shift_width terms.now bound addend frac_bits of }
{
    let bits = terms.width(of).max(frac_bits + 1);
    if addend == 0 {
        return bits;
    }
    bits.max((bits + 1).min(width_for(bound + addend)))
}

/// The bits from the point up, with the addend, where this is the bound of what is rounded.
fn shifted_term(
    terms: &mut Terms,
    bound: u128,
    addend: u128,
    frac_bits: u32,
    of: TermId,
) -> Result<TermId, NoMemory>
    requires sound { AreSound terms.old }
    requires value { IsValue terms.old of }
    requires small { bound < 2 ^ 126 }
    requires addend { addend ≤ 2 ^ frac_bits }
    requires point { frac_bits ≤ 48 }
    ensures { IfOk result (λ made. built_of terms.new made
        ≡ shifted_term terms.old bound addend frac_bits of) }
{
    let bits = shift_width(terms, bound, addend, frac_bits, of);
    let wide = widened_term(terms, of, bits)?;
    let sum = with_addend(terms, bits, addend, wide)?;
    terms.extract(sum, bits - 1, frac_bits)
}

/// A number divided by 2 to the number of bits after the point, made whole.
pub(crate) fn rounded_term(
    terms: &mut Terms,
    bound: u128,
    addend: u128,
    frac_bits: u32,
    of: TermId,
) -> Result<TermId, NoMemory>
    requires sound { AreSound terms.old }
    requires value { IsValue terms.old of }
    requires small { bound < 2 ^ 126 }
    requires addend { addend ≤ 2 ^ frac_bits }
    requires point { frac_bits ≤ 48 }
    ensures { IfOk result (λ made. built_of terms.new made
        ≡ rounded_term terms.old bound addend frac_bits of) }
{
    if frac_bits == 0 {
        return Ok(of);
    }
    shifted_term(terms, bound, addend, frac_bits, of)
}
