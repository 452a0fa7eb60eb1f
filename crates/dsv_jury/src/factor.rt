// The greatest common factor.
#![tactic(auto, using(dsv_algebra::proofs::Casts::casts))]

ghost use Rattle.std.specs.Prelude.{◌≡◌};
ghost use Rattle.dsv_jury.specs.CommonFactor.{common_factor};

use dsv_algebra::common_divisor;

/// The greatest number that divides all, and 0 where all are 0.
pub(crate) fn common_factor(numbers: &[i128]) -> u128
    ensures { result ≡ common_factor numbers.now }
{
    let mut factor = 0;
    for number in numbers {
        factor = common_divisor(factor, number.unsigned_abs());
    }
    factor
}
