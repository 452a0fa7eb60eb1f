// Bits of a term, extended by their sign: what extracts and sign extensions are. Both are one
// rule, since the bits of an extract, of a sign extension or of two joined terms are bits of a
// term inside: they are looked for there, as far inside as one term has them all, and only what is
// found becomes nodes.
ghost use Rattle.std.specs.Prelude.{◌≡◌, ◌<◌, ◌≤◌, ◌+◌, IfOk};
ghost use Rattle.dsv_term.specs.Limits.{max_width};
ghost use Rattle.dsv_term.specs.Building.{built_of};
ghost use Rattle.dsv_term.specs.Growth.{AreSound};
ghost use Rattle.dsv_rewrite.specs.Constants.{node_at};
ghost use Rattle.dsv_rewrite.specs.Parts.{inner_part, innermost_part, bits_term};
ghost use Rattle.dsv_rewrite.specs.Parts.{extended_bits, part_term};
ghost use Rattle.dsv_rewrite.specs.Ready.{IsPart};
ghost use Rattle.dsv_rewrite.specs.Simple.{IsOpen};

use crate::constants::{constant_at, constant_term};
use dsv_base::NoMemory;
use dsv_term::{TermId, TermNode, Terms};

/// Bits of a term.
#[derive(Clone, Copy, Debug, PartialEq, Eq)]
pub(crate) struct Part {
    pub of: TermId,
    pub high: u32,
    pub low: u32,
}

/// The same bits of a term inside, where there is one.
fn inner_part(terms: &Terms, part: Part) -> Option<Part>
    requires sound { AreSound terms.now }
    requires part { IsPart terms.now part }
    ensures { result ≡ inner_part terms.now (node_at terms.now part.of) part }
{
    match terms.node(part.of) {
        TermNode::Concat(a, b) => {
            let bits = terms.width(b);
            if part.high < bits {
                Some(Part { of: b, ..part })
            } else if bits <= part.low {
                Some(Part {
                    of: a,
                    high: part.high - bits,
                    low: part.low - bits,
                })
            } else {
                None
            }
        }
        TermNode::Sext { of, .. } => {
            let top = terms.width(of) - 1;
            Some(Part {
                of,
                high: part.high.min(top),
                low: part.low.min(top),
            })
        }
        TermNode::Extract { of, low, .. } => Some(Part {
            of,
            high: part.high + low,
            low: part.low + low,
        }),
        _ => None,
    }
}

/// The innermost such bits.
fn innermost_part(terms: &Terms, part: Part) -> Part
    requires sound { AreSound terms.now }
    requires part { IsPart terms.now part }
    ensures inner { result ≡ innermost_part part.of.0 terms.now part }
    ensures part { IsPart terms.now result }
{
    let mut inner = part;
    for step in 0..part.of.0 {
        match inner_part(terms, inner) {
            Some(next) => inner = next,
            None => return inner,
        }
    }
    inner
}

/// The bits themselves, which may be all that the term has.
fn bits_term(terms: &mut Terms, part: Part) -> Result<TermId, NoMemory>
    requires sound { AreSound terms.old }
    requires part { IsPart terms.old part }
    ensures { IfOk result (λ id. built_of terms.new id ≡ bits_term terms.old part) }
{
    if part.low == 0 && part.high + 1 == terms.width(part.of) {
        return Ok(part.of);
    }
    terms.extract(part.of, part.high, part.low)
}

/// The bits, extended to a width if they are fewer.
fn extended_bits(terms: &mut Terms, width: u32, part: Part) -> Result<TermId, NoMemory>
    requires sound { AreSound terms.old }
    requires part { IsPart terms.old part }
    requires is_open { IsOpen terms.old part.of }
    requires wide { part.high + 1 ≤ width + part.low }
    requires narrow { width ≤ max_width }
    ensures { IfOk result (λ id. built_of terms.new id ≡ extended_bits terms.old width part) }
{
    let bits = bits_term(terms, part)?;
    if part.high + 1 - part.low == width {
        return Ok(bits);
    }
    terms.sext(bits, width)
}

/// Bits of a term, extended to a width: taken from inside it, and a constant where that is one.
#[tactic(auto, unfolding(crate::specs::Parts::part_term))]
pub(crate) fn part_term(terms: &mut Terms, width: u32, part: Part) -> Result<TermId, NoMemory>
    requires sound { AreSound terms.old }
    requires part { IsPart terms.old part }
    requires wide { part.high + 1 ≤ width + part.low }
    requires narrow { width ≤ max_width }
    ensures { IfOk result (λ id. built_of terms.new id ≡ part_term terms.old width part) }
{
    let inner = innermost_part(terms, part);
    match constant_at(terms, inner.of) {
        Some(word) => {
            let bits = word.extract(inner.high, inner.low);
            constant_term(terms, bits.sign_extension(width))
        }
        None => extended_bits(terms, width, inner),
    }
}
