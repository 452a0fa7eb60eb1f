// The intervals of the exact values of a sample.
ghost use Rattle.std.specs.Prelude.{◌≡◌, ◌≤◌, ◌^◌, ◌+◌, ◌*◌, ◌∷◌, [], ◌++◌, not, true, false};
ghost use Rattle.std.specs.Prelude.{length, drop, pos};
ghost use Rattle.std.specs.Prelude.{◌+ℤ◌, ◌-ℤ◌, ◌*ℤ◌, ◌≤ℤ◌, IfOk, OnOk};
ghost use Rattle.std.specs.List.{All};
ghost use Rattle.std.specs.Int.RustNames.{unsigned_abs};
ghost use Rattle.dsv_word.specs.Words.{width, hi};
ghost use Rattle.dsv_meaning.specs.Summands.{IsSmallNumber};
ghost use Rattle.dsv_linear.specs.Known.{are_words};
ghost use Rattle.dsv_ellipsoid.specs.declared.refusal.EllipsoidRefusal.TheVariants as refusal;
ghost use Rattle.dsv_ellipsoid.specs.Intervals.{lesser, greater, between, product_interval};
ghost use Rattle.dsv_ellipsoid.specs.Intervals.{joined_interval, input_interval, output_interval};
ghost use Rattle.dsv_ellipsoid.specs.Intervals.{line_intervals, sample_intervals};
ghost use Rattle.dsv_meaning.specs.Lines.{summands};
ghost use Rattle.dsv_forms.specs.Refusals.{first_of, refusal_of};
ghost use Rattle.dsv_ellipsoid.specs.Refusals.{interval_tests};
ghost use Rattle.dsv_ellipsoid.specs.Walks.{HasSmallEnds, first_walk, walk_with, product_tests};
ghost use Rattle.dsv_ellipsoid.specs.Walks.{products, IsWalked};

use crate::refusal::EllipsoidRefusal;
use dsv_algebra::NarrowInteger;
use dsv_linear::{Range, are_words};
use dsv_quantiser::Quantised;
use dsv_word::Format;

/// The lesser of two numbers.
fn lesser_of(a: NarrowInteger, b: NarrowInteger) -> NarrowInteger
    ensures { result ≡ lesser a b }
{
    if b.get() < a.get() { b } else { a }
}

/// The greater of two numbers.
pub(crate) fn greater_of(a: NarrowInteger, b: NarrowInteger) -> NarrowInteger
    ensures { result ≡ greater a b }
{
    if a.get() < b.get() { b } else { a }
}

/// The interval between two numbers.
pub(crate) fn between(a: NarrowInteger, b: NarrowInteger) -> Range
    ensures { result ≡ between a b }
{
    Range {
        low: lesser_of(a, b),
        high: greater_of(a, b),
    }
}

/// The sum of two numbers that are far from 2^126.
pub(crate) fn plus(a: NarrowInteger, b: NarrowInteger) -> NarrowInteger
    requires first { unsigned_abs a ≤ 2 ^ 120 }
    requires second { unsigned_abs b ≤ 2 ^ 120 }
    ensures { result ≡ a +ℤ b }
{
    NarrowInteger::from(a.get() + b.get())
}

/// The difference of two numbers that are far from 2^126.
pub(crate) fn minus(a: NarrowInteger, b: NarrowInteger) -> NarrowInteger
    requires first { unsigned_abs a ≤ 2 ^ 120 }
    requires second { unsigned_abs b ≤ 2 ^ 120 }
    ensures { result ≡ a -ℤ b }
{
    NarrowInteger::from(a.get() - b.get())
}

/// A coefficient times a number that is no greater than a word.
#[tactic(auto, using(crate::proofs::SizeLemmas::product_size))]
pub(crate) fn times(coeff: &i64, number: NarrowInteger) -> NarrowInteger
    requires coeff { IsSmallNumber coeff.now }
    requires number { IsSmallNumber number }
    ensures value { result ≡ coeff.now *ℤ number }
    ensures small { unsigned_abs result ≤ 2 ^ 96 }
{
    NarrowInteger::from(i128::from(*coeff) * number.get())
}

/// The interval of the rounded products of a coefficient with the numbers of an interval.
fn product_interval(format: &Format, coeff: &i64, numbers: &Range) -> Range
    requires coeff { IsSmallNumber coeff.now }
    requires ends { HasSmallEnds numbers.now }
    ensures { result ≡ product_interval format.now coeff.now numbers.now }
{
    let low = format.round_shift(times(coeff, numbers.low).get());
    let high = format.round_shift(times(coeff, numbers.high).get());
    between(NarrowInteger::from(low), NarrowInteger::from(high))
}

/// The interval of sums, or of differences, of a line's value and a product.
fn joined_interval(away: bool, sum: &Range, product: &Range) -> Range
    requires sum { HasSmallEnds sum.now }
    requires product { HasSmallEnds product.now }
    ensures { result ≡ joined_interval away sum.now product.now }
{
    if away {
        Range {
            low: minus(sum.low, product.high),
            high: minus(sum.high, product.low),
        }
    } else {
        Range {
            low: plus(sum.low, product.low),
            high: plus(sum.high, product.high),
        }
    }
}

/// Checks that the interval of an exact value is within the words.
#[tactic(auto, using(crate::proofs::SizeLemmas::ends_are_small))]
fn check_interval(format: &Format, value: u32, interval: &Range) -> Result<(), EllipsoidRefusal>
    ensures refusal { refusal_of result ≡ first_of ((
      not (are_words format.now interval.now),
      refusal.Interval value interval.now.low interval.now.high,
    ) ∷ []) }
    ensures small { OnOk result (HasSmallEnds interval.now) }
{
    if !are_words(format, interval) {
        return Err(EllipsoidRefusal::Interval {
            value,
            low: interval.low.get(),
            high: interval.high.get(),
        });
    }
    Ok(())
}

/// How far a line has come.
#[derive(Clone, Copy)]
struct Walk {
    /// The number of its next exact value.
    value: u32,
    /// The interval of its value.
    sum: Range,
}

/// A product more in a line.
fn walk_with(
    format: &Format,
    away: bool,
    coeff: &i64,
    numbers: &Range,
    walk: Walk,
) -> Result<Walk, EllipsoidRefusal>
    requires coeff { IsSmallNumber coeff.now }
    requires ends { HasSmallEnds numbers.now }
    requires sum { HasSmallEnds walk.sum }
    requires room { walk.value + 2 ≤ 100 }
    ensures refusal { refusal_of result
        ≡ first_of (product_tests format.now away coeff.now numbers.now walk) }
    ensures next { IfOk result
        (λ next. next ≡ walk_with format.now away coeff.now numbers.now walk) }
    ensures small { IfOk result (λ next. HasSmallEnds next.sum) }
{
    let product = product_interval(format, coeff, numbers);
    check_interval(format, walk.value, &product)?;
    let sum = joined_interval(away, &walk.sum, &product);
    check_interval(format, walk.value + 1, &sum)?;
    Ok(Walk {
        value: walk.value + 2,
        sum,
    })
}

/// Products more in a line, one for each coefficient.
fn walk_products(
    format: &Format,
    away: bool,
    coeffs: &[i64],
    numbers: &Range,
    walk: Walk,
) -> Result<Walk, EllipsoidRefusal>
    requires coeffs { All IsSmallNumber coeffs.now }
    requires ends { HasSmallEnds numbers.now }
    requires sum { HasSmallEnds walk.sum }
    requires room { walk.value + 2 * length coeffs.now ≤ 100 }
    ensures walked { IsWalked format.now (products away coeffs.now numbers.now) walk result }
    ensures small { IfOk result (λ next. HasSmallEnds next.sum) }
    ensures count { IfOk result (λ next. next.value ≡ walk.value + 2 * length coeffs.now) }
{
    let mut now = walk;
    for i in 0..coeffs.len() {
        now = walk_with(format, away, &coeffs[i], numbers, now)?;
    }
    Ok(now)
}

/// The interval of the inputs, with the 0 before them.
pub(crate) fn input_interval(quantised: &Quantised) -> Range
    ensures value { result ≡ input_interval quantised.now }
    ensures small { HasSmallEnds result }
{
    let zero = NarrowInteger::from(0i64);
    Range {
        low: lesser_of(NarrowInteger::from(quantised.xlo()), zero),
        high: greater_of(NarrowInteger::from(quantised.xhi()), zero),
    }
}

/// The interval of outputs up to the bound in size.
#[tactic(auto, using(crate::proofs::SizeLemmas::outputs_are_small))]
fn output_interval(format: &Format, bound: &i64) -> Range
    requires low { pos 0 ≤ℤ bound.now }
    requires high { bound.now ≤ℤ hi (width format.now) }
    ensures value { result ≡ output_interval bound.now }
    ensures small { HasSmallEnds result }
{
    Range {
        low: NarrowInteger::from(-i128::from(*bound)),
        high: NarrowInteger::from(*bound),
    }
}

/// The coefficients after the first.
pub(crate) fn rest_of(coeffs: &[i64]) -> &[i64]
    requires { 1 ≤ length coeffs.now }
    ensures { result.now ≡ drop 1 coeffs.now }
{
    coeffs.split_at(1).1
}

/// The first product of a line.
fn first_walk(format: &Format, coeff: &i64, numbers: &Range) -> Result<Walk, EllipsoidRefusal>
    requires coeff { IsSmallNumber coeff.now }
    requires ends { HasSmallEnds numbers.now }
    ensures refusal { refusal_of result
        ≡ first_of (interval_tests format.now 0
        (product_interval format.now coeff.now numbers.now ∷ [])) }
    ensures next { IfOk result (λ next. next ≡ first_walk format.now coeff.now numbers.now) }
    ensures small { IfOk result (λ next. HasSmallEnds next.sum) }
{
    let sum = product_interval(format, coeff, numbers);
    check_interval(format, 0, &sum)?;
    Ok(Walk { value: 1, sum })
}

/// Checks that the intervals of all exact values of a line are within the words: of products of
/// inputs that are added, and of products of outputs that are taken away.
fn check_line(
    format: &Format,
    forward: &[i64],
    inputs: &Range,
    feedback: &[i64],
    outputs: &Range,
) -> Result<(), EllipsoidRefusal>
    requires forward { All IsSmallNumber forward.now }
    requires inputs { HasSmallEnds inputs.now }
    requires feedback { All IsSmallNumber feedback.now }
    requires outputs { HasSmallEnds outputs.now }
    requires some { 1 ≤ length forward.now }
    requires room { length forward.now + length feedback.now ≤ 20 }
    ensures { refusal_of result ≡ first_of (interval_tests format.now 0 (line_intervals format.now
        (summands false forward.now (λ i. inputs.now) 0
        ++ summands true feedback.now (λ i. outputs.now) 0))) }
{
    let first = first_walk(format, &forward[0], inputs)?;
    let walk = walk_products(format, false, rest_of(forward), inputs, first)?;
    walk_products(format, true, feedback, outputs, walk)?;
    Ok(())
}

/// Checks that the intervals of all exact values of a sample are within the words, where no output
/// so far passes the bound in size.
#[tactic(auto, using(crate::proofs::SizeLemmas::lists_are_small))]
pub(crate) fn check_intervals(quantised: &Quantised, bound: &i64) -> Result<(), EllipsoidRefusal>
    requires low { pos 0 ≤ℤ bound.now }
    requires high { bound.now ≤ℤ hi (width quantised.now.format) }
    ensures { refusal_of result ≡ first_of (interval_tests quantised.now.format 0
        (sample_intervals quantised.now bound.now)) }
{
    let format = quantised.format();
    let inputs = input_interval(quantised);
    let outputs = output_interval(&format, bound);
    let feedback = rest_of(quantised.a());
    check_line(&format, quantised.b(), &inputs, feedback, &outputs)
}
