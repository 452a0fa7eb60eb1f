// Fractions made whole.
#![tactic(auto, using(dsv_algebra::proofs::Casts::casts))]

ghost use Rattle.std.specs.Prelude.{◌≡◌, ◌≤◌, ◌<◌, ◌*◌};
ghost use Rattle.std.specs.Prelude.{◌^◌, pos, ◌+ℤ◌, ◌*ℤ◌};
ghost use Rattle.dsv_algebra.specs.Floor.{floor_of};
ghost use Rattle.dsv_algebra.specs.Narrow.{narrow_limit};
ghost use Rattle.dsv_word.specs.Quotients.{ceiling_of, whole_shift};
ghost use Rattle.std.specs.Int.RustNames.{unsigned_abs};
ghost use Rattle.dsv_word.specs.Width.{widest_word};

use crate::word::power;
use dsv_fraction::Frac;
use dsv_names::Rounding;

/// `v / 2^bits` made whole.
pub(crate) fn shift(v: i128, bits: u32, rounding: Rounding) -> i128
    requires size { unsigned_abs v < narrow_limit }
    requires bits { bits ≤ widest_word }
    ensures { result ≡ whole_shift rounding bits v }
{
    let size = i128::from(power(bits));
    match rounding {
        Rounding::Floor => v.div_euclid(size),
        Rounding::Ceil => -((-v).div_euclid(size)),
        Rounding::Nearest => {
            if bits == 0 {
                v
            } else {
                (v + i128::from(power(bits - 1))).div_euclid(size)
            }
        }
    }
}

/// The greatest whole number that isn't above the fraction.
pub(crate) fn floor_of(q: &Frac) -> i128
    ensures { result ≡ floor_of q.now.num q.now.den }
{
    let (num, den) = q.to_parts();
    num.div_euclid(den)
}

/// The least whole number that isn't below the fraction.
pub(crate) fn ceiling_of(q: &Frac) -> i128
    ensures { result ≡ ceiling_of q.now.num q.now.den }
{
    let (num, den) = q.to_parts();
    -((-num).div_euclid(den))
}

/// The whole number nearest to the fraction, the upper one of two that are as near.
pub(crate) fn nearest_to(q: &Frac) -> i128
    ensures { result ≡ floor_of (pos 2 *ℤ q.now.num +ℤ pos q.now.den) (2 * q.now.den) }
{
    let (num, den) = q.to_parts();
    let floor = num.div_euclid(den);
    let rest = num.rem_euclid(den).unsigned_abs();
    if rest < den.unsigned_abs() - rest {
        floor
    } else {
        floor + 1
    }
}
