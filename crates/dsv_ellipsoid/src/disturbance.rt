// What a sample adds to the linear step: the inputs' part and the errors of all rounded products.
#![tactic(auto, using(dsv_algebra::proofs::Casts::casts))]

ghost use Rattle.std.specs.Prelude.{◌≡◌, ◌≤◌, ◌<◌, ◌^◌, ◌-◌, length, pos, ◌*ℤ◌};
ghost use Rattle.std.specs.List.{All};
ghost use Rattle.std.specs.Int.RustNames.{unsigned_abs};
ghost use Rattle.dsv_algebra.specs.Squares.{size};
ghost use Rattle.dsv_quantiser.specs.QuantisedView.{unit};
ghost use Rattle.dsv_meaning.specs.Summands.{IsSmallNumber};
ghost use Rattle.dsv_linear.specs.Known.{error_range};
ghost use Rattle.dsv_ellipsoid.specs.Intervals.{between};
ghost use Rattle.dsv_ellipsoid.specs.Disturbance.{is_rough, roughs, least_sum, greatest_sum};
ghost use Rattle.dsv_ellipsoid.specs.Disturbance.{line_disturbance, greatest_size};
ghost use Rattle.dsv_ellipsoid.specs.Disturbance.{greatest_disturbance};
ghost use Rattle.dsv_ellipsoid.specs.Walks.{HasSmallEnds};

use crate::intervals::{between, greater_of, input_interval, minus, plus, rest_of, times};
use dsv_algebra::NarrowInteger;
use dsv_linear::Range;
use dsv_names::Rounding;
use dsv_quantiser::Quantised;
use dsv_word::Format;

/// The word of the number 1, whether or not it is a word of the format.
#[tactic(auto, using(dsv_word::proofs::Powers::power_small))]
pub(crate) fn one(format: &Format) -> i64
    ensures value { result ≡ unit format.now }
    ensures small { IsSmallNumber result }
{
    1i64 << format.frac_bits
}

/// Half of the word of the number 1, where there are bits after the point.
#[tactic(auto, using(dsv_word::proofs::Powers::power_small))]
fn half(format: &Format) -> i64
    requires { 0 < format.now.frac_bits }
    ensures value { result ≡ pos (2 ^ (format.now.frac_bits - 1)) }
    ensures small { IsSmallNumber result }
{
    1i64 << (format.frac_bits - 1)
}

/// The interval of the errors of a rounded product, times the word of 1.
fn error_range(format: &Format) -> Range
    ensures value { result ≡ error_range format.now.rounding format.now.frac_bits }
    ensures small { HasSmallEnds result }
{
    let zero = NarrowInteger::from(0i64);
    match format.rounding {
        Rounding::Floor => Range {
            low: NarrowInteger::from(1 - one(format)),
            high: zero,
        },
        Rounding::Ceil => Range {
            low: zero,
            high: NarrowInteger::from(one(format) - 1),
        },
        Rounding::Nearest if format.frac_bits == 0 => Range {
            low: zero,
            high: zero,
        },
        Rounding::Nearest => Range {
            low: NarrowInteger::from(1 - half(format)),
            high: NarrowInteger::from(half(format)),
        },
    }
}

/// Whether products with the coefficient may have an error: it isn't a multiple of the word of 1.
fn is_rough(format: &Format, coeff: &i64) -> bool
    ensures { result ≡ is_rough format.now.frac_bits coeff.now }
{
    coeff.rem_euclid(one(format)) != 0
}

/// How many of the coefficients give products that may have an error.
fn rough_count(format: &Format, coeffs: &[i64]) -> u32
    requires { length coeffs.now ≤ 9 }
    ensures value { pos result ≡ roughs format.now.frac_bits coeffs.now }
    ensures few { result ≤ 9 }
{
    let mut count = 0;
    for i in 0..coeffs.len() {
        if is_rough(format, &coeffs[i]) {
            count += 1;
        }
    }
    count
}

/// The interval of the products of a coefficient with the numbers of an interval.
#[tactic(auto, using(crate::proofs::SizeLemmas::lesser_within, crate::proofs::SizeLemmas::greater_within))]
fn exact_products(coeff: &i64, numbers: &Range) -> Range
    requires coeff { IsSmallNumber coeff.now }
    requires ends { HasSmallEnds numbers.now }
    ensures value { result
        ≡ between (coeff.now *ℤ numbers.now.low) (coeff.now *ℤ numbers.now.high) }
    ensures low { unsigned_abs result.low ≤ 2 ^ 96 }
    ensures high { unsigned_abs result.high ≤ 2 ^ 96 }
{
    between(times(coeff, numbers.low), times(coeff, numbers.high))
}

/// The least and the greatest sum of products of the coefficients with numbers of an interval.
fn product_sums(coeffs: &[i64], numbers: &Range) -> Range
    requires few { length coeffs.now ≤ 9 }
    requires coeffs { All IsSmallNumber coeffs.now }
    requires ends { HasSmallEnds numbers.now }
    ensures low { result.low ≡ least_sum coeffs.now numbers.now }
    ensures high { result.high ≡ greatest_sum coeffs.now numbers.now }
    ensures low_small { unsigned_abs result.low ≤ 2 ^ 100 }
    ensures high_small { unsigned_abs result.high ≤ 2 ^ 100 }
{
    let mut low = NarrowInteger::from(0i64);
    let mut high = NarrowInteger::from(0i64);
    for i in 0..coeffs.len() {
        let products = exact_products(&coeffs[i], numbers);
        low = plus(low, products.low);
        high = plus(high, products.high);
    }
    Range { low, high }
}

/// The error of so many products.
#[tactic(auto, using(crate::proofs::SizeLemmas::counted_size))]
fn error_of(count: u32, error: NarrowInteger) -> NarrowInteger
    requires few { count ≤ 9 }
    requires error { IsSmallNumber error }
    ensures value { result ≡ pos count *ℤ error }
    ensures small { unsigned_abs result ≤ 2 ^ 60 }
{
    NarrowInteger::from(i128::from(count) * error.get())
}

/// The interval of the disturbance of a line of products of inputs, which are added, and of
/// outputs, which are taken away.
fn line_disturbance(format: &Format, forward: &[i64], feedback: &[i64], inputs: &Range) -> Range
    requires few { length forward.now ≤ 9 }
    requires many { length feedback.now ≤ 9 }
    requires forward { All IsSmallNumber forward.now }
    requires ends { HasSmallEnds inputs.now }
    ensures value { result ≡ line_disturbance format.now forward.now feedback.now inputs.now }
    ensures low { unsigned_abs result.low ≤ 2 ^ 110 }
    ensures high { unsigned_abs result.high ≤ 2 ^ 110 }
{
    let errors = error_range(format);
    let sums = product_sums(forward, inputs);
    let added = rough_count(format, forward);
    let taken = rough_count(format, feedback);
    let least = minus(error_of(added, errors.low), error_of(taken, errors.high));
    let greatest = minus(error_of(added, errors.high), error_of(taken, errors.low));
    Range {
        low: plus(sums.low, least),
        high: plus(sums.high, greatest),
    }
}

/// The size of a number.
fn size_of(number: NarrowInteger) -> NarrowInteger
    requires { unsigned_abs number ≤ 2 ^ 110 }
    ensures value { result ≡ size number }
    ensures small { unsigned_abs result ≤ 2 ^ 110 }
{
    NarrowInteger::from(number.get().unsigned_abs() as i128)
}

/// The greatest size of a number in the interval.
#[tactic(auto, using(crate::proofs::SizeLemmas::greater_within))]
fn greatest_size(range: &Range) -> NarrowInteger
    requires low { unsigned_abs range.now.low ≤ 2 ^ 110 }
    requires high { unsigned_abs range.now.high ≤ 2 ^ 110 }
    ensures value { result ≡ greatest_size range.now }
    ensures small { unsigned_abs result ≤ 2 ^ 110 }
{
    greater_of(size_of(range.low), size_of(range.high))
}

/// The greatest size of the disturbance.
#[tactic(auto, using(crate::proofs::SizeLemmas::lists_are_small))]
pub(crate) fn greatest_disturbance(quantised: &Quantised) -> NarrowInteger
    ensures value { result ≡ greatest_disturbance quantised.now }
    ensures small { unsigned_abs result ≤ 2 ^ 110 }
{
    let format = quantised.format();
    let inputs = input_interval(quantised);
    let feedback = rest_of(quantised.a());
    let range = line_disturbance(&format, quantised.b(), feedback, &inputs);
    greatest_size(&range)
}
