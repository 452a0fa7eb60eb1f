// The power of two that is common to the numbers of a list.
#![tactic(auto, using(dsv_algebra::proofs::Casts::casts))]

ghost use Rattle.std.specs.Prelude.{◌≡◌, ◌<◌, ◌≤◌, ◌%◌, ◌==◌, length, map, pos};
ghost use Rattle.std.specs.Int.{int_div_euclid};
ghost use Rattle.std.specs.Int.RustNames.{unsigned_abs};
ghost use Rattle.dsv_forms.specs.Poly.{most_coefficients};
ghost use Rattle.dsv_tested.specs.Lead.{lead_size};
ghost use Rattle.dsv_tested.specs.Tested.{are_even, without_common_twos};

use dsv_delta::ZCoeffs;

/// Whether the number is even.
fn is_even(c: &i128) -> bool
    ensures { result ≡ (unsigned_abs c.now % 2 == 0) }
{
    c.unsigned_abs() % 2 == 0
}

/// Whether all the numbers are even.
fn are_even(list: &[i128]) -> bool
    ensures { result ≡ are_even list.now }
{
    for c in list {
        if !is_even(c) {
            return false;
        }
    }
    true
}

/// Half of the number, rounded down.
fn half(c: &i128) -> i128
    ensures { result ≡ int_div_euclid c.now (pos 2) }
{
    c.div_euclid(2)
}

/// The halves of the numbers, rounded down.
fn halves(list: &[i128]) -> ZCoeffs
    requires few { length list.now ≤ most_coefficients }
    ensures { result.items ≡ map (λ c. int_div_euclid c (pos 2)) list.now }
{
    let mut halves = ZCoeffs::new();
    for c in list {
        halves.push(half(c));
    }
    halves
}

/// The same numbers.
fn copy_of(list: &[i128]) -> ZCoeffs
    requires few { length list.now ≤ most_coefficients }
    ensures { result.items ≡ list.now }
{
    let mut copied = ZCoeffs::new();
    for c in list {
        copied.push(*c);
    }
    copied
}

/// The numbers, of which the first isn't 0, with the greatest power of two that divides all of
/// them taken out.
pub(crate) fn without_common_twos(list: &[i128]) -> ZCoeffs
    requires few { length list.now ≤ most_coefficients }
    requires lead { 0 < lead_size list.now }
    ensures reduced { result.items ≡ without_common_twos list.now }
    ensures lead { 0 < lead_size result.items }
{
    let mut reduced = copy_of(list);
    'halving: while are_even(reduced.as_slice()) {
        reduced = halves(reduced.as_slice());
    }
    reduced
}
