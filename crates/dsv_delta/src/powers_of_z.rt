// The polynomial in z of a list of coefficients in the delta operator.
//
// The way back, from powers of (z - 1) / delta to powers of z, by Horner's rule: from the highest
// coefficient on the list so far is multiplied by z - 1, and the next coefficient added. With delta
// = o / p in lowest terms all is multiplied by p^N, so that the coefficient number j becomes w_j
// o^j p^(N - j), a whole number.
#![tactic(auto, using(dsv_algebra::proofs::Casts::casts))]

ghost use Rattle.std.specs.Prelude.{◌≡◌, ℕ, ◌-◌, ◌*◌, ◌^◌};
ghost use Rattle.std.specs.Prelude.{◌<◌, ◌≤◌, length, pos};
ghost use Rattle.std.specs.Prelude.{◌≤ℤ◌, ◌*ℤ◌, ◌-ℤ◌, All, IfOk, MatchResult, Ok, Err};
ghost use Rattle.std.specs.Prelude.{slice_index_or};
ghost use Rattle.std.specs.Int.RustNames.{unsigned_abs};
ghost use Rattle.dsv_algebra.specs.Narrow.{narrow_limit};
ghost use Rattle.dsv_fraction.specs.Ratio.{most_coefficients};
ghost use Rattle.dsv_delta.specs.ZCoefficients.{greatest_word, scaled_limit, dyadic};
ghost use Rattle.dsv_delta.specs.ZCoefficients.{expansion, z_coefficients};
ghost use Rattle.dsv_delta.specs.Differences.{bounded, differences};

use crate::refusal::PolyWide;
use arrayvec::ArrayVec;
use dsv_algebra::NarrowInteger;
use dsv_fraction::MOST_COEFFICIENTS;

/// Up to nine coefficients of powers of z, those of the highest power first.
pub type ZCoeffs = ArrayVec<i128, MOST_COEFFICIENTS>;

/// The least size that a scaled coefficient may not have.
const SCALED_LIMIT: u128 = 1 << 110;

/// A fraction whose denominator is a power of two.
#[derive(Clone, Copy)]
struct Dyadic {
    numerator: u64,
    denominator: u64,
}

/// `delta / 2^frac_bits` without common twos.
fn lowest_dyadic(delta: u64, frac_bits: u32) -> Dyadic
    requires positive { 0 < delta }
    requires bits { frac_bits < 64 }
    ensures positive { 0 < result.numerator }
    ensures whole { 0 < result.denominator }
    ensures numerator { result.numerator ≡ (dyadic delta frac_bits).numerator }
    ensures denominator { result.denominator ≡ (dyadic delta frac_bits).denominator }
{
    let mut numerator = delta;
    for taken in 0..frac_bits {
        if numerator % 2 != 0 {
            return Dyadic {
                numerator,
                denominator: 1 << (frac_bits - taken),
            };
        }
        numerator /= 2;
    }
    Dyadic {
        numerator,
        denominator: 1,
    }
}

/// The number, where it doesn't pass 2^110.
fn bounded_number(number: NarrowInteger) -> Option<NarrowInteger>
    ensures { result ≡ bounded number }
{
    if number.get().unsigned_abs() < SCALED_LIMIT {
        Some(number)
    } else {
        None
    }
}

/// The product with a factor, where it doesn't pass 2^110.
fn bounded_product(number: NarrowInteger, factor: u64) -> Option<NarrowInteger>
    ensures { result ≡ bounded (number *ℤ pos factor) }
{
    let factor = NarrowInteger::from(i128::from(factor));
    bounded_number(number.checked_mul(factor)?)
}

/// The product with a power, where it doesn't pass 2^110.
fn product_with_power(number: NarrowInteger, base: u64, exponent: usize) -> Option<NarrowInteger>
    requires small { unsigned_abs number < scaled_limit }
    requires positive { 0 < base }
    ensures { result ≡ bounded (number *ℤ pos (base ^ exponent)) }
{
    let mut product = number;
    for turn in 0..exponent {
        product = bounded_product(product, base)?;
    }
    Some(product)
}

/// The number itself.
fn number_of(word: &i64) -> NarrowInteger
    ensures { result ≡ word.now }
{
    NarrowInteger::from(*word)
}

/// The coefficient number j of a list of this order times the power j of delta's numerator and the
/// power `order - j` of its denominator, where it doesn't pass 2^110.
fn scaled_coefficient(word: &i64, scale: Dyadic, j: usize, order: usize) -> Option<NarrowInteger>
    requires small { unsigned_abs word.now ≤ greatest_word }
    requires numerator { 0 < scale.numerator }
    requires denominator { 0 < scale.denominator }
    requires place { j ≤ order }
    ensures { result ≡ bounded (word.now
        *ℤ pos (scale.numerator ^ j * scale.denominator ^ (order - j))) }
{
    let product = product_with_power(number_of(word), scale.numerator, j)?;
    product_with_power(product, scale.denominator, order - j)
}

/// The difference of two numbers.
fn difference(a: &i128, b: &i128) -> i128
    requires first { unsigned_abs a.now < narrow_limit }
    requires second { unsigned_abs b.now < narrow_limit }
    ensures { result ≡ a.now -ℤ b.now }
{
    *a - *b
}

/// The coefficients of (z - 1) q + e, where these are q's.
fn times_z_less_one(q: &[i128], e: &i128) -> ZCoeffs
    requires few { length q.now < most_coefficients }
    requires small { (i : ℕ) → unsigned_abs (slice_index_or q.now i (pos 0)) < narrow_limit }
    requires constant { unsigned_abs e.now < narrow_limit }
    ensures { result.items ≡ differences (pos 0) q.now e.now }
{
    let mut list = ZCoeffs::new();
    let mut before = 0;
    for x in q {
        list.push(difference(x, &before));
        before = *x;
    }
    list.push(difference(e, &before));
    list
}

/// The sum of e_j (z - 1)^(N - j), where the e_j are the coefficients times powers of delta's
/// parts; or the least index at which one is too wide.
fn coefficients_in_z(coeffs: &[i64], scale: Dyadic) -> Result<ZCoeffs, PolyWide>
    requires some { 1 ≤ length coeffs.now }
    requires few { length coeffs.now ≤ most_coefficients }
    requires small { All (λ w. unsigned_abs w ≤ greatest_word) coeffs.now }
    requires numerator { 0 < scale.numerator }
    requires denominator { 0 < scale.denominator }
    ensures exact { let meant = expansion
        (record { numerator = scale.numerator; denominator = scale.denominator }) coeffs.now in
        MatchResult result (λ found. meant ≡ Ok found.items) (λ refusal. meant ≡ Err refusal) }
    ensures places { IfOk result (λ found. length found.items ≡ length coeffs.now) }
{
    let order = coeffs.len() - 1;
    let mut list = ZCoeffs::new();
    for word in coeffs {
        let index = list.len();
        let Some(e) = scaled_coefficient(word, scale, index, order) else {
            return Err(PolyWide {
                index: index as u32,
            });
        };
        list = times_z_less_one(list.as_slice(), &e.get());
    }
    Ok(list)
}

/// The polynomial in z of 1 to 9 coefficients in the delta operator, those of the highest power
/// first, none over 2^47 in size: with `delta / 2^frac_bits` = o / p in lowest terms, p a power of
/// two, the sum of e_j (z - 1)^(N - j) where e_j = w_j o^j p^(N - j); or the least index at which
/// an e_j passes 2^110. It takes no memory.
pub fn z_poly(coeffs: &[i64], delta: i64, frac_bits: u32) -> Result<ZCoeffs, PolyWide>
    requires some { 1 ≤ length coeffs.now }
    requires few { length coeffs.now ≤ most_coefficients }
    requires small { All (λ w. unsigned_abs w ≤ greatest_word) coeffs.now }
    requires delta { pos 1 ≤ℤ delta }
    requires bits { frac_bits < 64 }
    ensures exact { let meant = z_coefficients coeffs.now (unsigned_abs delta) frac_bits in
        MatchResult result (λ found. meant ≡ Ok found.items) (λ refusal. meant ≡ Err refusal) }
    ensures places { IfOk result (λ found. length found.items ≡ length coeffs.now) }
{
    coefficients_in_z(coeffs, lowest_dyadic(delta.unsigned_abs(), frac_bits))
}
