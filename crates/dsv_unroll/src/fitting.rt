// How a value that is fitted into a word becomes a term. A term of more bits is a word exactly
// where its low bits, extended by their sign again, are the same number. Where the first value
// that is no word is looked for, what comes after it doesn't matter: the low bits are taken, and
// the test is kept. Where the run is to be the controller's, a value wraps to the low bits, or it
// saturates to the end that it lies beyond.
ghost use Rattle.std.specs.Prelude.{◌≡◌, ◌<◌, ◌≤◌, ◌-◌, ◌^◌, length, IfOk, Some};
ghost use Rattle.dsv_word.specs.Words.{width, lo, hi};
ghost use Rattle.dsv_term.specs.Building.{built_of};
ghost use Rattle.dsv_term.specs.Terms.{width_of, HasBits};
ghost use Rattle.dsv_term.specs.Word.{IsWidth};
ghost use Rattle.dsv_unroll.specs.Rules.{cut_terms, cut_term, saturated_term, word_term};
ghost use Rattle.dsv_unroll.specs.Rules.{fitted_term, tested_term};
ghost use Rattle.dsv_unroll.specs.Rules.{end_terms, clamped_term};
ghost use Rattle.dsv_unroll.specs.Beside.{node_with, ends_with};
ghost use Rattle.dsv_unroll.specs.Ready.{IsValue};

use crate::rules::FitRule;
use dsv_base::NoMemory;
use dsv_names::OverflowMode;
use dsv_term::{TermId, Terms, Word};
use dsv_word::Format;

/// A term whose value is fitted, and the bits that are 1 where it is a word and where it isn't.
#[derive(Clone, Copy, Debug)]
pub(crate) struct TestedTerm {
    pub value: TermId,
    pub is_word: TermId,
    pub outside: TermId,
}

/// The term of a node, the one that is 1 where a value so far was no word, and the test of a value
/// that the node fits, where it has one.
#[derive(Clone, Copy, Debug)]
pub(crate) struct NodeTerm {
    pub id: TermId,
    pub overflowed: TermId,
    pub tested: Option<TestedTerm>,
}

/// The low bits of a wider term, and whether it was no word.
fn cut_term(
    terms: &mut Terms,
    bits: u32,
    of: TermId,
    overflowed: TermId,
) -> Result<NodeTerm, NoMemory>
    requires value { IsValue terms.old of }
    requires some { 1 ≤ bits }
    requires wider { bits < width_of terms.old of }
    requires stands { overflowed.0 < length terms.old.nodes }
    requires bit { width_of terms.old overflowed ≡ 1 }
    ensures built { IfOk result
        (λ made. node_with terms.new made ≡ cut_term terms.old bits of overflowed) }
    ensures tested { IfOk result
        (λ made. made.tested ≡ Some (cut_terms terms.old bits of).tested) }
{
    let width = terms.width(of);
    let id = terms.extract(of, bits - 1, 0)?;
    let back = terms.sext(id, width)?;
    let is_word = terms.eq(back, of)?;
    let outside = terms.not(is_word)?;
    let overflowed = terms.or(overflowed, outside)?;
    let tested = Some(TestedTerm {
        value: of,
        is_word,
        outside,
    });
    Ok(NodeTerm {
        id,
        overflowed,
        tested,
    })
}

/// Two numbers, and whether a term lies below the one or above the other.
#[derive(Clone, Copy, Debug)]
struct EndTerms {
    least: TermId,
    greatest: TermId,
    below: TermId,
    above: TermId,
}

/// Two numbers of so many bits, and whether a term lies below the one or above the other.
fn end_terms(
    terms: &mut Terms,
    bits: u32,
    low: u128,
    high: u128,
    of: TermId,
) -> Result<EndTerms, NoMemory>
    requires width { IsWidth bits }
    requires low { low < 2 ^ bits }
    requires high { high < 2 ^ bits }
    requires stands { of.0 < length terms.old.nodes }
    requires wide { width_of terms.old of ≡ bits }
    ensures built { IfOk result
        (λ ends. ends_with terms.new ends ≡ end_terms terms.old bits low high of) }
    ensures of { IfOk result (λ ends. HasBits terms.new of bits) }
    ensures least { IfOk result (λ ends. HasBits terms.new ends.least bits) }
    ensures greatest { IfOk result (λ ends. HasBits terms.new ends.greatest bits) }
    ensures below { IfOk result (λ ends. HasBits terms.new ends.below 1) }
    ensures above { IfOk result (λ ends. HasBits terms.new ends.above 1) }
{
    let least = terms.constant(bits, low)?;
    let greatest = terms.constant(bits, high)?;
    let below = terms.slt(of, least)?;
    let above = terms.slt(greatest, of)?;
    Ok(EndTerms {
        least,
        greatest,
        below,
        above,
    })
}

/// The end that a term lies after, or the term itself, cut to so many bits.
fn clamped_term(
    terms: &mut Terms,
    ends: EndTerms,
    wide: u32,
    bits: u32,
    of: TermId,
) -> Result<TermId, NoMemory>
    requires some { 1 ≤ bits }
    requires wider { bits < wide }
    requires of { HasBits terms.old of wide }
    requires least { HasBits terms.old ends.least wide }
    requires greatest { HasBits terms.old ends.greatest wide }
    requires below { HasBits terms.old ends.below 1 }
    requires above { HasBits terms.old ends.above 1 }
    ensures { IfOk result (λ made. built_of terms.new made
        ≡ clamped_term (ends_with terms.old ends) bits of) }
{
    let upper = terms.ite(ends.above, ends.greatest, of)?;
    let both = terms.ite(ends.below, ends.least, upper)?;
    terms.extract(both, bits - 1, 0)
}

/// The word nearest to a wider term.
fn saturated_term(terms: &mut Terms, format: &Format, of: TermId) -> Result<TermId, NoMemory>
    requires value { IsValue terms.old of }
    requires wider { width format.now < width_of terms.old of }
    ensures { IfOk result (λ made. built_of terms.new made
        ≡ saturated_term terms.old (width format.now) of) }
{
    let wide = terms.width(of);
    let low = Word::of_signed(wide, format.lo().into());
    let high = Word::of_signed(wide, format.hi().into());
    let ends = end_terms(terms, wide, low.number, high.number, of)?;
    clamped_term(terms, ends, wide, format.width(), of)
}

/// The word that a wider term becomes by the format's overflow.
fn word_term(terms: &mut Terms, format: &Format, of: TermId) -> Result<TermId, NoMemory>
    requires value { IsValue terms.old of }
    requires wider { width format.now < width_of terms.old of }
    ensures { IfOk result (λ made. built_of terms.new made
        ≡ word_term format.now.overflow terms.old (width format.now) of) }
{
    match format.overflow {
        OverflowMode::Wrap => {
            let limit = terms.width(of);
            let bits = format.width();
            prove!(bits < limit);
            terms.extract(of, bits - 1, 0)
        }
        OverflowMode::Saturate => saturated_term(terms, format, of),
    }
}

/// The term of a value that is fitted, the one that is 1 where a value so far was no word, and the
/// test of the value.
pub(crate) fn fitted_term(
    terms: &mut Terms,
    rule: FitRule,
    format: &Format,
    of: TermId,
    overflowed: TermId,
) -> Result<NodeTerm, NoMemory>
    requires value { IsValue terms.old of }
    requires stands { overflowed.0 < length terms.old.nodes }
    requires bit { width_of terms.old overflowed ≡ 1 }
    ensures built { IfOk result (λ made. node_with terms.new made
        ≡ fitted_term rule format.now terms.old of overflowed) }
    ensures tested { IfOk result
        (λ made. made.tested ≡ tested_term rule format.now terms.old of) }
{
    if terms.width(of) <= format.width() {
        return Ok(NodeTerm {
            id: of,
            overflowed,
            tested: None,
        });
    }
    match rule {
        FitRule::Tested => cut_term(terms, format.width(), of, overflowed),
        FitRule::Faithful => {
            let id = word_term(terms, format, of)?;
            Ok(NodeTerm {
                id,
                overflowed,
                tested: None,
            })
        }
    }
}
