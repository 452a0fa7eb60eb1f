// Steps on lists of coefficients.
#![tactic(auto, using(dsv_algebra::proofs::Casts::casts))]

ghost use Rattle.std.specs.Prelude.{◌≡◌, ◌<◌, ◌≤◌, length, All, MatchResult};
ghost use Rattle.std.specs.Prelude.{if◌then◌else◌, Some, None, IfOk, map};
ghost use Rattle.std.specs.Prelude.{pos, neg_ℤ, nat_lt, int_lt};
ghost use Rattle.std.specs.Ordering.{int_eq};
ghost use Rattle.std.specs.Int.RustNames.{unsigned_abs};
ghost use Rattle.dsv_forms.specs.Poly.{most_coefficients, greatest_coefficient};
ghost use Rattle.dsv_tested.specs.Lead.{lead_size};
ghost use Rattle.dsv_tested.specs.Tested.{without_leading_zeros, with_positive_lead, first_over};

use arrayvec::ArrayVec;
use dsv_delta::PolyWide;
use dsv_forms::{GREATEST_COEFFICIENT, MOST_COEFFICIENTS};

/// Up to nine coefficients of a polynomial.
pub(crate) type Coeffs = ArrayVec<i64, MOST_COEFFICIENTS>;

/// Whether the number is 0.
fn is_zero(c: &i128) -> bool
    ensures { result ≡ int_eq c.now (pos 0) }
{
    *c == 0
}

/// The list from its first number that isn't 0 on.
pub(crate) fn without_leading_zeros(list: &[i128]) -> &[i128]
    ensures rest { result.now ≡ without_leading_zeros list.now }
    ensures lead { 0 < length result.now → 0 < lead_size result.now }
    ensures length { length result.now ≤ length list.now }
{
    for i in 0..list.len() {
        if !is_zero(&list[i]) {
            return &list[i..];
        }
    }
    &list[list.len()..]
}

/// The number, where it isn't over 2^44 in size.
fn coefficient(c: &i128) -> Option<i64>
    ensures { result ≡
        (if nat_lt greatest_coefficient (unsigned_abs c.now) then None else Some c.now) }
{
    if c.unsigned_abs() > u128::from(GREATEST_COEFFICIENT) {
        None
    } else {
        Some(*c as i64)
    }
}

/// The same numbers, where none is over 2^44 in size; or the least index of one that is.
pub(crate) fn coefficients(list: &[i128]) -> Result<Coeffs, PolyWide>
    requires few { length list.now ≤ most_coefficients }
    ensures exact { MatchResult result
        (λ found. (first_over 0 list.now ≡ None) × (found.items ≡ list.now))
        (λ refusal. first_over 0 list.now ≡ Some refusal.index) }
    ensures small { IfOk result
        (λ found. All (λ c. unsigned_abs c ≤ greatest_coefficient) found.items) }
{
    let mut found = Coeffs::new();
    for c in list {
        let Some(word) = coefficient(c) else {
            return Err(PolyWide {
                index: found.len() as u32,
            });
        };
        found.push(word);
    }
    Ok(found)
}

/// Whether the number is negative.
fn is_negative(c: &i64) -> bool
    ensures { result ≡ int_lt c.now (pos 0) }
{
    *c < 0
}

/// The number with its sign changed.
fn negation(c: &i64) -> i64
    requires { unsigned_abs c.now ≤ greatest_coefficient }
    ensures { result ≡ neg_ℤ c.now }
{
    -*c
}

/// All the numbers with their signs changed.
fn negations(list: &[i64]) -> Coeffs
    requires few { length list.now ≤ most_coefficients }
    requires small { All (λ c. unsigned_abs c ≤ greatest_coefficient) list.now }
    ensures { result.items ≡ map neg_ℤ list.now }
{
    let mut changed = Coeffs::new();
    for c in list {
        changed.push(negation(c));
    }
    changed
}

/// The list with all signs changed where its first number is negative.
pub(crate) fn with_positive_lead(list: Coeffs) -> Coeffs
    requires small { All (λ c. unsigned_abs c ≤ greatest_coefficient) list.items }
    ensures { result.items ≡ with_positive_lead list.items }
{
    match list.first() {
        Some(lead) if is_negative(lead) => negations(list.as_slice()),
        _ => list,
    }
}
