// Sizes with their sign, and without a common factor.
ghost use Rattle.std.specs.Prelude.{◌≡◌, ◌<◌, ◌≤◌, ◌/◌};
ghost use Rattle.dsv_fraction.specs.Ratio.{part_limit};
ghost use Rattle.dsv_algebra.specs.Gcd.{gcd};
ghost use Rattle.dsv_fraction.specs.Arithmetic.{with_sign};
ghost use Rattle.dsv_fraction.specs.Parts.{Cancels};

use dsv_algebra::common_divisor;

/// The number of that size, negative or not.
pub(crate) fn with_sign(negative: bool, size: u128) -> i128
    requires { size < part_limit }
    ensures { result ≡ with_sign negative size }
{
    if negative {
        -(size as i128)
    } else {
        size as i128
    }
}

/// Two sizes without a common factor.
#[derive(Clone, Copy)]
pub(crate) struct Cancelled {
    pub(crate) num: u128,
    pub(crate) den: u128,
}

/// Divides both by what they have in common.
#[tactic(auto, using(crate::proofs::Gcds::positive_gcd, crate::proofs::Gcds::quotient_smaller))]
pub(crate) fn cancel(num: u128, den: u128) -> Cancelled
    requires { 0 < den }
    ensures parts { Cancels num den result.num result.den }
    ensures num { result.num ≡ num / gcd num den }
    ensures den { result.den ≡ den / gcd num den }
    ensures smaller_num { result.num ≤ num }
    ensures smaller_den { result.den ≤ den }
{
    let common = common_divisor(num, den);
    Cancelled {
        num: num / common,
        den: den / common,
    }
}
