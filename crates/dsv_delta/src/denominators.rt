// Fractions over one denominator.
#![tactic(auto, using(dsv_algebra::proofs::Casts::casts))]

ghost use Rattle.std.specs.Prelude.{◌≡◌, ℕ, ◌<◌, ◌≤◌, ◌*ℤ◌, ◌/◌};
ghost use Rattle.std.specs.Prelude.{length, pos, ◌≤ℤ◌, MatchOption};
ghost use Rattle.std.specs.Int.RustNames.{unsigned_abs};
ghost use Rattle.dsv_algebra.specs.Narrow.{narrow_limit, narrow_of};
ghost use Rattle.dsv_fraction.specs.Ratio.{most_coefficients};
ghost use Rattle.dsv_delta.specs.Binomials.{weight};
ghost use Rattle.dsv_delta.specs.Deltas.{lcm, common, numerators};

use arrayvec::ArrayVec;
use dsv_algebra::NarrowInteger;
use dsv_fraction::{Frac, MOST_COEFFICIENTS};

/// Up to `MOST_COEFFICIENTS` numerators.
pub(crate) type Numerators = ArrayVec<i128, MOST_COEFFICIENTS>;

/// The least weight that is too great.
const WEIGHT_LIMIT: u128 = 1 << 126;

/// The least common multiple of the number and the fraction's denominator, where neither passes
/// 2^126.
fn multiple(common: Option<NarrowInteger>, fraction: &Frac) -> Option<NarrowInteger>
    ensures positive { 0 < fraction.now.den }
    ensures value { (n : ℕ) → 0 < n → common ≡ narrow_of (pos n)
        → result ≡ narrow_of (pos (lcm n fraction.now.den)) }
{
    let (_, den) = fraction.to_parts();
    let common = common?;
    let Ok(reduced) = Frac::new(common.get(), den) else {
        return None;
    };
    common.checked_mul(NarrowInteger::from(reduced.den()))
}

/// The least common multiple of the denominators, where it doesn't pass 2^126.
pub fn common_denominator(fractions: &[Frac]) -> Option<NarrowInteger>
    ensures value { result ≡ narrow_of (pos (common fractions.now)) }
    ensures positive { 0 < common fractions.now }
{
    let mut common = Some(NarrowInteger::from(1i64));
    for fraction in fractions {
        common = multiple(common, fraction);
    }
    common
}

/// The fraction's numerator over a multiple of its denominator, where it doesn't pass 2^126.
pub fn numerator(common: NarrowInteger, fraction: &Frac) -> Option<NarrowInteger>
    requires { pos 0 ≤ℤ common }
    ensures { result ≡ narrow_of
        (fraction.now.num *ℤ pos (unsigned_abs common / fraction.now.den)) }
{
    let (num, den) = fraction.to_parts();
    let factor = common.get().div_euclid(den);
    NarrowInteger::from(num).checked_mul(NarrowInteger::from(factor))
}

/// The numerators over a common denominator, where their weight doesn't pass 2^126.
pub(crate) fn numerators(common: NarrowInteger, fractions: &[Frac]) -> Option<Numerators>
    requires positive { pos 0 ≤ℤ common }
    requires few { length fractions.now ≤ most_coefficients }
    ensures { let meant = numerators (unsigned_abs common) fractions.now in
        MatchOption result (narrow_limit ≤ weight meant) (λ found. (found.items ≡ meant)
        × (weight meant < narrow_limit)) }
{
    let mut out = Numerators::new();
    let mut weight: u128 = 0;
    for fraction in fractions {
        let number = numerator(common, fraction)?;
        weight = weight * 2 + number.get().unsigned_abs();
        if weight >= WEIGHT_LIMIT {
            return None;
        }
        out.push(number.get());
    }
    Some(out)
}
