// Whole numbers of 128 bits, refused where they pass 2^127.
#![tactic(auto, using(dsv_algebra::proofs::Casts::casts))]

ghost use Rattle.std.specs.Prelude.{◌≡◌, ◌*ℤ◌, ◌+ℤ◌, ◌*◌, ◌<◌, ◌^◌, IfOk};
ghost use Rattle.std.specs.Int.RustNames.{unsigned_abs};
ghost use Rattle.dsv_fraction.specs.Ratio.{part_limit};
ghost use Rattle.dsv_fraction.specs.Arithmetic.{bounded_whole, bounded_size};

use crate::fraction::{PART_LIMIT, TooWide};

/// The number itself, unless it is the one of size 2^127.
fn number_in_bounds(number: i128) -> Result<i128, TooWide>
    ensures value { result ≡ bounded_whole number }
    ensures narrow { IfOk result (λ z. unsigned_abs z < part_limit) }
{
    if number.unsigned_abs() < PART_LIMIT {
        Ok(number)
    } else {
        Err(TooWide)
    }
}

/// The product, or TooWide where its size is 2^127 or more.
pub(crate) fn product(a: i128, b: i128) -> Result<i128, TooWide>
    ensures value { result ≡ bounded_whole (a *ℤ b) }
    ensures narrow { IfOk result (λ z. unsigned_abs z < part_limit) }
{
    match a.checked_mul(b) {
        Some(number) => number_in_bounds(number),
        None => Err(TooWide),
    }
}

/// The sum, or TooWide where its size is 2^127 or more.
pub(crate) fn sum(a: i128, b: i128) -> Result<i128, TooWide>
    ensures value { result ≡ bounded_whole (a +ℤ b) }
    ensures narrow { IfOk result (λ z. unsigned_abs z < part_limit) }
{
    match a.checked_add(b) {
        Some(number) => number_in_bounds(number),
        None => Err(TooWide),
    }
}

/// The product of two sizes, or TooWide where it is 2^127 or more; it is positive where both are.
#[tactic(auto, using(crate::proofs::Gcds::positive_product))]
pub(crate) fn size_product(a: u128, b: u128) -> Result<u128, TooWide>
    ensures value { result ≡ bounded_size (a * b) }
    ensures narrow { IfOk result (λ n. n < part_limit) }
    ensures positive { 0 < a → 0 < b → IfOk result (λ n. 0 < n) }
{
    match a.checked_mul(b) {
        Some(size) if size < PART_LIMIT => Ok(size),
        _ => Err(TooWide),
    }
}
