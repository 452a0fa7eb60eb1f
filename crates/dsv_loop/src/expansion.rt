// The polynomial in z of a list of words in the delta operator.
//
// The way back, from powers of (z - 1) / delta to powers of z, by Horner's rule: from the highest
// coefficient on the list so far is multiplied by z - 1, and the next coefficient added. With delta
// = o / p in lowest terms all is multiplied by p^N, so that the coefficient number j becomes w_j
// o^j p^(N - j), a whole number.
#![tactic(auto)]

ghost use Rattle.std.specs.Prelude.{◌≡◌, ◌-◌, ◌*◌, ◌^◌, ◌<◌, ◌≤◌, ◌*ℤ◌, ◌≤ℤ◌, length, pos, IfOk};
ghost use Rattle.std.specs.Int.RustNames.{unsigned_abs};
ghost use Rattle.dsv_delta.specs.ZCoefficients.{dyadic};
ghost use Rattle.dsv_delta.specs.Differences.{differences};
ghost use Rattle.dsv_loop.specs.Loops.{expanded};

use dsv_base::{Items, NoMemory};
use dsv_integer::Integer;
use std::alloc::Global;

/// A fraction whose denominator is a power of two.
#[derive(Clone, Copy)]
struct Dyadic {
    numerator: u64,
    denominator: u64,
}

/// `delta / 2^frac_bits` without common twos.
fn lowest_dyadic(delta: u64, frac_bits: u32) -> Dyadic
    requires positive { 0 < delta }
    requires bits { frac_bits < 64 }
    ensures numerator { result.numerator ≡ (dyadic delta frac_bits).numerator }
    ensures denominator { result.denominator ≡ (dyadic delta frac_bits).denominator }
{
    let mut numerator = delta;
    for taken in 0..frac_bits {
        if numerator % 2 != 0 {
            return Dyadic {
                numerator,
                denominator: 1 << (frac_bits - taken),
            };
        }
        numerator /= 2;
    }
    Dyadic {
        numerator,
        denominator: 1,
    }
}

/// The number that a machine number is.
pub(crate) fn number_of(word: &i64, alloc: Global) -> Result<Integer, NoMemory>
    ensures { IfOk result (λ x. x ≡ word.now) }
{
    Integer::from_i128(&i128::from(*word), alloc)
}

/// The product with a factor.
fn product_with(number: &Integer, factor: u64, alloc: Global) -> Result<Integer, NoMemory>
    ensures { IfOk result (λ x. x ≡ number.now *ℤ pos factor) }
{
    number.times(&Integer::from_i128(&i128::from(factor), alloc)?, alloc)
}

/// The product with a power.
fn product_with_power(
    number: Integer,
    base: u64,
    exponent: usize,
    alloc: Global,
) -> Result<Integer, NoMemory>
    ensures { IfOk result (λ x. x ≡ number *ℤ pos (base ^ exponent)) }
{
    let mut product = number;
    for turn in 0..exponent {
        product = product_with(&product, base, alloc)?;
    }
    Ok(product)
}

/// The coefficient number j of a list of this order times the power j of delta's numerator and the
/// power `order - j` of its denominator.
fn scaled_coefficient(
    word: &i64,
    scale: Dyadic,
    j: usize,
    order: usize,
    alloc: Global,
) -> Result<Integer, NoMemory>
    requires { j ≤ order }
    ensures { IfOk result (λ x. x ≡ word.now
        *ℤ pos (scale.numerator ^ j * scale.denominator ^ (order - j))) }
{
    let product = product_with_power(number_of(word, alloc)?, scale.numerator, j, alloc)?;
    product_with_power(product, scale.denominator, order - j, alloc)
}

/// The coefficients of (z - 1) q + e, where these are q's.
fn times_z_less_one(q: &[Integer], e: &Integer, alloc: Global) -> Result<Items<Integer>, NoMemory>
    ensures { IfOk result (λ found. found ≡ differences (pos 0) q.now e.now) }
{
    let mut list = Items::new(alloc);
    let mut before = Integer::from_i128(&0, alloc)?;
    for x in q {
        list.push(x.minus(&before, alloc)?)?;
        before = x.copy(alloc)?;
    }
    list.push(e.minus(&before, alloc)?)?;
    Ok(list)
}

/// The sum of e_j (z - 1)^(N - j), where the e_j are the words times powers of delta's parts.
fn expansion(words: &[i64], scale: Dyadic, alloc: Global) -> Result<Items<Integer>, NoMemory>
    requires { 1 ≤ length words.now }
    ensures { IfOk result (λ found. found ≡ expanded
        (record { numerator = scale.numerator; denominator = scale.denominator }) words.now) }
{
    let order = words.len() - 1;
    let mut list = Items::new(alloc);
    for word in words {
        let e = scaled_coefficient(word, scale, list.len(), order, alloc)?;
        list = times_z_less_one(list.as_slice(), &e, alloc)?;
    }
    Ok(list)
}

/// The polynomial in z of words in the delta operator, those of the highest power first: with
/// `delta / 2^frac_bits` = o / p in lowest terms, p a power of two, the sum of e_j (z - 1)^(N - j)
/// where e_j = w_j o^j p^(N - j).
pub(crate) fn delta_expansion(
    words: &[i64],
    delta: i64,
    frac_bits: u32,
    alloc: Global,
) -> Result<Items<Integer>, NoMemory>
    requires some { 1 ≤ length words.now }
    requires delta { pos 1 ≤ℤ delta }
    requires bits { frac_bits < 64 }
    ensures { IfOk result (λ found. found
        ≡ expanded (dyadic (unsigned_abs delta) frac_bits) words.now) }
{
    expansion(words, lowest_dyadic(delta.unsigned_abs(), frac_bits), alloc)
}
