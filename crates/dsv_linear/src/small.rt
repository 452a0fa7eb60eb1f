// Small numbers, whose products and sums of products need no test.
//
// Nearly all coefficients and ends of ranges are below 2^55 in size. A product of two such numbers
// is below 2^110, and a sum of fewer than 2^16 of these below 2^126, so that no sum on the way is
// tested. Greater coefficients of 64 bits, as the delta forms have, meet ends below 2^47.
//
// The loops over short and small numbers aren't inlined: within a large function what they step
// wouldn't stay in registers, and factors that are known to be small would be multiplied in 128
// bits.
ghost use Rattle.std.specs.Prelude.{◌≡◌, ◌+ℤ◌, ◌*ℤ◌, IfSome, IsTrue};
ghost use Rattle.dsv_linear.specs.Forms.{least_factor, greatest_factor};
ghost use Rattle.dsv_linear.specs.SmallNumbers.{IsSmall, IsSlight, IsMedium, IsLight};
ghost use Rattle.dsv_linear.specs.SmallNumbers.{IsSmallProduct, HasRoom};

use crate::form::short_number;
use crate::range::Range;
use dsv_algebra::NarrowInteger;

/// The size below which a number is small.
const SMALL_LIMIT: i64 = 1 << 55;

/// The size below which a number is slight.
const SLIGHT_LIMIT: i64 = 1 << 47;

/// The size below which a number of 128 bits is medium.
const MEDIUM_LIMIT: u128 = 1 << 71;

/// The size below which a number is light.
const LIGHT_LIMIT: i64 = 1 << 39;

/// The most products of small numbers that may be added.
pub(crate) const MOST_TERMS: usize = (1 << 16) - 1;

/// Whether a number is small.
pub(crate) fn is_small(v: &i64) -> bool
    ensures { IsTrue result → IsSmall v.now }
{
    -SMALL_LIMIT < *v && *v < SMALL_LIMIT
}

/// Whether a number is slight: its product with any number of 64 bits is small.
fn is_slight(v: &i64) -> bool
    ensures { IsTrue result → IsSlight v.now }
{
    -SLIGHT_LIMIT < *v && *v < SLIGHT_LIMIT
}

/// Whether a number is medium: its product with a light one is small.
pub(crate) fn is_medium(v: NarrowInteger) -> bool
    ensures { IsTrue result → IsMedium v }
{
    v.get().unsigned_abs() < MEDIUM_LIMIT
}

/// Whether a number is light.
fn is_light(v: &i64) -> bool
    ensures { IsTrue result → IsLight v.now }
{
    -LIGHT_LIMIT < *v && *v < LIGHT_LIMIT
}

/// The number, where it is small.
pub(crate) fn small_number(v: NarrowInteger) -> Option<i64>
    ensures { IfSome result (λ small. (small ≡ v) × IsSmall small) }
{
    let short = short_number(v)?;
    if is_small(&short) { Some(short) } else { None }
}

/// A range whose ends are small.
#[derive(Clone, Copy)]
pub(crate) struct SmallRange {
    pub low: i64,
    pub high: i64,
}

/// The range, where its ends are small.
pub(crate) fn small_range(range: &Range) -> Option<SmallRange>
    ensures { IfSome result (λ small. ((small.low ≡ range.now.low) × IsSmall small.low)
        × ((small.high ≡ range.now.high) × IsSmall small.high)) }
{
    Some(SmallRange {
        low: small_number(range.low)?,
        high: small_number(range.high)?,
    })
}

/// What a small coefficient is multiplied by for the least product, and for the greatest, where its
/// symbol's range has small ends.
pub(crate) fn small_factors(c: &i64, range: &Range) -> Option<SmallRange>
    ensures { IfSome result (λ factors.
        ((factors.low ≡ least_factor c.now range.now) × IsSmall factors.low)
        × ((factors.high ≡ greatest_factor c.now range.now) × IsSmall factors.high)) }
{
    let small = small_range(range)?;
    if *c < 0 {
        Some(SmallRange {
            low: small.high,
            high: small.low,
        })
    } else {
        Some(small)
    }
}

/// What a coefficient is multiplied by for the least product, and for the greatest, where its
/// symbol's range has light ends.
pub(crate) fn light_factors(c: NarrowInteger, range: &Range) -> Option<SmallRange>
    ensures { IfSome result (λ factors.
        ((factors.low ≡ least_factor c range.now) × IsLight factors.low)
        × ((factors.high ≡ greatest_factor c range.now) × IsLight factors.high)) }
{
    let small = small_range(range)?;
    if !is_light(&small.low) || !is_light(&small.high) {
        return None;
    }
    if c.get() < 0 {
        Some(SmallRange {
            low: small.high,
            high: small.low,
        })
    } else {
        Some(small)
    }
}

/// Whether the products of a number with both of these are small, as where all are small, or both
/// ends are slight.
pub(crate) fn are_products_small(c: &i64, ends: &SmallRange) -> bool
    requires low { IsSmall ends.now.low }
    requires high { IsSmall ends.now.high }
    ensures { IsTrue result → (IsSmallProduct c.now ends.now.low)
        × (IsSmallProduct c.now ends.now.high) }
{
    let number = *c;
    is_small(&number) || (is_slight(&ends.low) && is_slight(&ends.high))
}

/// The sum with a small product more.
#[tactic(auto, using(crate::proofs::SmallSums::fits))]
pub(crate) fn with_product(sum: NarrowInteger, c: &i64, end: &i64) -> NarrowInteger
    requires room { HasRoom sum }
    requires product { IsSmallProduct c.now end.now }
    ensures { result ≡ sum +ℤ c.now *ℤ end.now }
{
    NarrowInteger::from(sum.get() + i128::from(*c) * i128::from(*end))
}

/// The sum with a product of a medium number and a light one more.
pub(crate) fn with_medium_product(sum: NarrowInteger, c: NarrowInteger, end: &i64) -> NarrowInteger
    requires room { HasRoom sum }
    requires first { IsMedium c }
    requires second { IsLight end.now }
    ensures { result ≡ sum +ℤ c *ℤ end.now }
{
    NarrowInteger::from(sum.get() + c.get() * i128::from(*end))
}
