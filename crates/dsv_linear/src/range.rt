// Ranges of numbers.
ghost use Rattle.std.specs.Prelude.{◌≡◌, ◌<◌};
ghost use Rattle.dsv_linear.specs.Forms.{lower, upper, both, least_factor, greatest_factor};
ghost use Rattle.dsv_linear.specs.Forms.{range, scaled_range, products_range, sums_range};
ghost use Rattle.dsv_linear.specs.Forms.{differences_range, factor};

use crate::RANGE_SCALE;
use dsv_algebra::NarrowInteger;

/// The least and the greatest number of a range.
#[derive(Clone, Copy, Debug, PartialEq, Eq)]
pub struct Range {
    pub low: NarrowInteger,
    pub high: NarrowInteger,
}

/// The quotient by a positive number, rounded down.
pub(crate) fn lower_quotient(v: NarrowInteger, d: u64) -> Option<NarrowInteger>
    requires { 0 < d }
    ensures { result ≡ lower v d }
{
    NarrowInteger::from(v.get().div_euclid(i128::from(d))).narrow_number()
}

/// The quotient by a positive number, rounded up.
pub(crate) fn upper_quotient(v: NarrowInteger, d: u64) -> Option<NarrowInteger>
    requires { 0 < d }
    ensures { result ≡ upper v d }
{
    let sum = v.checked_add(NarrowInteger::from(i128::from(d) - 1))?;
    lower_quotient(sum, d)
}

/// A range of two ends.
fn range_of_ends(low: Option<NarrowInteger>, high: Option<NarrowInteger>) -> Option<Range>
    ensures { result ≡ both low high }
{
    Some(Range {
        low: low?,
        high: high?,
    })
}

/// What a number is multiplied by for the least product.
pub(crate) fn least_factor(c: NarrowInteger, range: &Range) -> NarrowInteger
    ensures { result ≡ least_factor c range.now }
{
    if c.get() < 0 { range.high } else { range.low }
}

/// What a number is multiplied by for the greatest product.
pub(crate) fn greatest_factor(c: NarrowInteger, range: &Range) -> NarrowInteger
    ensures { result ≡ greatest_factor c range.now }
{
    if c.get() < 0 { range.low } else { range.high }
}

/// Which number of its symbol's range a coefficient is multiplied by.
#[derive(Clone, Copy)]
pub enum Factor {
    /// The least number.
    Low,
    /// The greatest number.
    High,
    /// The end that gives the least product.
    Least,
    /// The end that gives the greatest product.
    Greatest,
}

impl Factor {
    /// This number of a range, for a coefficient.
    pub(crate) fn of(self, c: NarrowInteger, range: &Range) -> NarrowInteger
        ensures { result ≡ factor self c range.now }
    {
        match self {
            Factor::Low => range.low,
            Factor::High => range.high,
            Factor::Least => least_factor(c, range),
            Factor::Greatest => greatest_factor(c, range),
        }
    }
}

impl Range {
    /// The range of these ends.
    pub fn between(low: &i128, high: &i128) -> Range
        ensures { result ≡ range low.now high.now }
    {
        Range {
            low: NarrowInteger::from(*low),
            high: NarrowInteger::from(*high),
        }
    }

    /// The range times the range scale.
    #[tactic(auto, using(crate::proofs::Scales::scales))]
    pub(crate) fn scaled_range(&self) -> Option<Range>
        ensures { result ≡ scaled_range self.now }
    {
        let scale = NarrowInteger::from(RANGE_SCALE as i64);
        range_of_ends(scale.checked_mul(self.low), scale.checked_mul(self.high))
    }

    /// The range of products with a number.
    pub(crate) fn times(&self, c: NarrowInteger) -> Option<Range>
        ensures { result ≡ products_range c self.now }
    {
        range_of_ends(
            c.checked_mul(least_factor(c, self)),
            c.checked_mul(greatest_factor(c, self)),
        )
    }

    /// The range of sums.
    pub(crate) fn plus(&self, other: &Range) -> Option<Range>
        ensures { result ≡ sums_range self.now other.now }
    {
        range_of_ends(
            self.low.checked_add(other.low),
            self.high.checked_add(other.high),
        )
    }

    /// The range of differences.
    pub(crate) fn minus(&self, other: &Range) -> Option<Range>
        ensures { result ≡ differences_range self.now other.now }
    {
        range_of_ends(
            self.low.checked_sub(other.high),
            self.high.checked_sub(other.low),
        )
    }
}
