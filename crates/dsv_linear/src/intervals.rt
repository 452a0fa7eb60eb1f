// Plain intervals of nodes, and the facts that they choose.
//
// Interval arithmetic (Moore 1966), beside the forms: the least and the greatest value of a node
// from those of its operands, cut to the words where a value is fitted. A fact is told only where
// the form shows a word. Where the interval shows it too, the fact is the form's range
// (`Fact::Within`); where the form alone does, it is that the value is a word (`Fact::Inside`).
ghost use Rattle.std.specs.Prelude.{◌≡◌, if◌then◌else◌, int_lt, Some, None};
ghost use Rattle.dsv_linear.specs.Known.{interval_at, rounded_end, rounded_range, cut_range};
ghost use Rattle.dsv_linear.specs.Known.{node_interval, is_word, are_words, fact_of};
ghost use Rattle.dsv_linear.specs.Known.{ends_at, node_fact};
ghost use Rattle.dsv_linear.specs.NodeIntervals.{sum_interval, difference_interval};

use crate::extremes::form_range;
use crate::fact::Fact;
use crate::point::{Estimate, Point, Start, form_at};
use crate::powers::one;
use crate::range::Range;
use dsv_algebra::NarrowInteger;
use dsv_base::Items;
use dsv_netlist::Node;
use dsv_word::Format;

/// The plain interval of the value of this number.
fn interval_at(estimates: &Items<Estimate>, i: u32) -> Option<Range>
    ensures { result ≡ interval_at estimates.now i }
{
    estimates.as_slice().get(i as usize)?.interval
}

/// A number as the format rounds it.
fn rounded_end(format: &Format, v: NarrowInteger) -> Option<NarrowInteger>
    ensures { result ≡ rounded_end format.now v }
{
    let whole = format.round_shift(v.narrow_number()?.get());
    NarrowInteger::from(whole).narrow_number()
}

/// The range of numbers as the format rounds them.
fn rounded_range(format: &Format, range: &Range) -> Option<Range>
    ensures { result ≡ rounded_range format.now range.now }
{
    Some(Range {
        low: rounded_end(format, range.low)?,
        high: rounded_end(format, range.high)?,
    })
}

/// The greater of two numbers.
fn greater_of(a: &i128, b: &i128) -> i128
    ensures { result ≡ (if int_lt a.now b.now then b.now else a.now) }
{
    if *a < *b { *b } else { *a }
}

/// The lesser of two numbers.
fn lesser_of(a: &i128, b: &i128) -> i128
    ensures { result ≡ (if int_lt b.now a.now then b.now else a.now) }
{
    if *b < *a { *b } else { *a }
}

/// The range cut to the words.
fn cut_range(format: &Format, range: &Range) -> Range
    ensures { result ≡ cut_range format.now range.now }
{
    let low = greater_of(&range.low.get(), &i128::from(format.lo()));
    let high = lesser_of(&range.high.get(), &i128::from(format.hi()));
    Range::between(&low, &high)
}

/// The plain interval of the sum of the values of these numbers.
fn sum_interval(estimates: &Items<Estimate>, left: u32, right: u32) -> Option<Range>
    ensures { result ≡ sum_interval estimates.now left right }
{
    interval_at(estimates, left)?.plus(&interval_at(estimates, right)?)
}

/// The plain interval of the difference of the values of these numbers.
fn difference_interval(estimates: &Items<Estimate>, left: u32, right: u32) -> Option<Range>
    ensures { result ≡ difference_interval estimates.now left right }
{
    interval_at(estimates, left)?.minus(&interval_at(estimates, right)?)
}

/// The plain interval of what a node gives.
pub(crate) fn node_interval(start: &Start, point: &Point, node: &Node) -> Option<Range>
    ensures { result ≡ node_interval start.now point.now node.now }
{
    let estimates = &point.estimates;
    match node {
        Node::Input => Some(start.input),
        Node::Reg(register) => interval_at(&start.registers, *register),
        Node::MulConst { coeff, of } => {
            interval_at(estimates, *of)?.times(NarrowInteger::from(*coeff))
        }
        Node::Round(of) => rounded_range(&start.format, &interval_at(estimates, *of)?),
        Node::Add(left, right) => sum_interval(estimates, *left, *right),
        Node::Sub(left, right) => difference_interval(estimates, *left, *right),
        Node::Fit(of) => Some(cut_range(&start.format, &interval_at(estimates, *of)?)),
        Node::Scale(of) => interval_at(estimates, *of)?.times(one(&start.format)),
    }
}

/// The word, where the number is one.
fn word_of(format: &Format, v: NarrowInteger) -> Option<i64>
    ensures { result ≡ (if is_word format.now v then Some v else None) }
{
    let word = i64::try_from(v.get()).ok()?;
    if word < format.lo() || format.hi() < word {
        None
    } else {
        Some(word)
    }
}

/// Whether both ends are words.
pub fn are_words(format: &Format, range: &Range) -> bool
    ensures { result ≡ are_words format.now range.now }
{
    word_of(format, range.low).is_some() && word_of(format, range.high).is_some()
}

/// The fact of a value in a range.
fn ranged_fact(format: &Format, ends: &Range, interval: Option<Range>) -> Fact
    ensures { result ≡ fact_of format.now (Some ends.now) interval }
{
    let (Some(low), Some(high)) = (word_of(format, ends.low), word_of(format, ends.high)) else {
        return Fact::Open;
    };
    match interval {
        Some(plain) if are_words(format, &plain) => Fact::Within { low, high },
        _ => Fact::Inside,
    }
}

/// The range of the form of the value of this number.
pub(crate) fn ends_at(point: &Point, i: u32) -> Option<Range>
    ensures { result ≡ ends_at point.now i }
{
    form_range(point.ranges.as_slice(), form_at(&point.estimates, i)?)
}

/// The fact of the value that a node fits.
pub(crate) fn node_fact(format: &Format, point: &Point, node: &Node) -> Option<Fact>
    ensures { result ≡ node_fact format.now point.now node.now }
{
    let Node::Fit(of) = node else {
        return None;
    };
    let interval = interval_at(&point.estimates, *of);
    Some(match ends_at(point, *of) {
        Some(ends) => ranged_fact(format, &ends, interval),
        None => Fact::Open,
    })
}
