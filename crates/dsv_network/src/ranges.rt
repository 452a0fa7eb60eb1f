// Ranges of what a sample shows.
ghost use Rattle.std.specs.Prelude.{◌≡◌, ◌<◌, ◌≤◌, ◌⊎◌, length, IfOk};
ghost use Rattle.dsv_linear.specs.Forms.{range_at, scaled_range};
ghost use Rattle.dsv_network.specs.Samples.{hull};
ghost use Rattle.dsv_network.specs.Gains.{hulls, hulls_after};

use dsv_algebra::NarrowInteger;
use dsv_base::{Items, NoMemory};
use dsv_linear::{RANGE_SCALE, Range};
use std::alloc::Global;

/// A range for each value that a sample shows, in their order.
pub type Ranges = Items<Range>;

/// The least range that holds both.
pub(crate) fn hull(a: &Range, b: &Range) -> Range
    ensures { result ≡ hull a.now b.now }
{
    Range {
        low: if b.low.get() < a.low.get() {
            b.low
        } else {
            a.low
        },
        high: if a.high.get() < b.high.get() {
            b.high
        } else {
            a.high
        },
    }
}

/// The lesser of two lengths.
pub fn shorter_length(a: &Ranges, b: &Ranges) -> usize
    ensures left { result ≤ length a.now }
    ensures right { result ≤ length b.now }
    ensures one { (result ≡ length a.now) ⊎ (result ≡ length b.now) }
{
    if a.len() < b.len() { a.len() } else { b.len() }
}

/// The range of this number.
pub fn range_at(ranges: &Ranges, i: usize) -> Range
    requires { i < length ranges.now }
    ensures { result ≡ range_at ranges.now i }
{
    ranges.as_slice()[i]
}

/// Range by range, the least that holds both.
pub fn hulls(alloc: Global, a: &Ranges, b: &Ranges) -> Result<Ranges, NoMemory>
    ensures { IfOk result (λ list. list ≡ hulls a.now b.now) }
{
    let mut list = Ranges::new(alloc);
    let count = shorter_length(a, b);
    for i in 0..count {
        list.push(hull(&range_at(a, i), &range_at(b, i)))?;
    }
    Ok(list)
}

/// The ranges of samples before, if there were any, and of one more.
pub fn hulls_after(alloc: Global, before: Option<Ranges>, ends: Ranges) -> Result<Ranges, NoMemory>
    ensures { IfOk result (λ list. list ≡ hulls_after before ends) }
{
    match before {
        None => Ok(ends),
        Some(others) => hulls(alloc, &others, &ends),
    }
}

/// A range times the range scale, where its ends stay narrow.
#[tactic(auto, using(dsv_linear::proofs::Scales::scales))]
pub fn scaled_range(range: &Range) -> Option<Range>
    ensures { result ≡ scaled_range range.now }
{
    let scale = NarrowInteger::from(RANGE_SCALE as i64);
    Some(Range {
        low: scale.checked_mul(range.low)?,
        high: scale.checked_mul(range.high)?,
    })
}
