// Sums that are given up where a number on the way passes 2^126.
#![tactic(auto, using(dsv_algebra::proofs::Casts::casts))]

ghost use Rattle.std.specs.Prelude.{◌≡◌, neg_ℤ};
ghost use Rattle.dsv_forms.specs.Sums.{sum_with, product, or_too_wide};

use dsv_algebra::NarrowInteger;

/// A number that is too wide, in place of one that can't be had.
const TOO_WIDE: i128 = 1 << 126;

/// The number itself.
pub fn number_of(number: &i64) -> NarrowInteger
    ensures { result ≡ number.now }
{
    NarrowInteger::from(*number)
}

/// The number with the other sign.
pub fn negation(number: &i64) -> NarrowInteger
    ensures { result ≡ neg_ℤ number.now }
{
    NarrowInteger::from(-i128::from(*number))
}

/// The sum, or 2^126, which is too wide, where there is none.
pub(crate) fn or_too_wide(sum: Option<NarrowInteger>) -> i128
    ensures { result ≡ or_too_wide sum }
{
    match sum {
        Some(found) => found.get(),
        None => TOO_WIDE,
    }
}

/// The sum with the product of three numbers more: `None` where the product of the first two, that
/// of all three or the sum passes 2^126.
pub fn sum_with_product(
    sum: NarrowInteger,
    a: NarrowInteger,
    b: NarrowInteger,
    c: NarrowInteger,
) -> Option<NarrowInteger>
    ensures { result ≡ sum_with sum (product a b c) }
{
    let first = a.checked_mul(b)?;
    let product = first.checked_mul(c)?;
    sum.checked_add(product)
}
