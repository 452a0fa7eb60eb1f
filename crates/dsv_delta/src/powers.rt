// Fractions over powers of delta.
#![tactic(auto, using(dsv_algebra::proofs::Casts::casts))]

ghost use Rattle.std.specs.Prelude.{◌≡◌, ◌≤◌, length, [], pos, ◌<ℤ◌};
ghost use Rattle.std.specs.Prelude.{MatchResult, Ok, Err, IfOk};
ghost use Rattle.std.specs.Int.RustNames.{unsigned_abs};
ghost use Rattle.dsv_algebra.specs.Vectors.{vector_of};
ghost use Rattle.dsv_fraction.specs.Ratio.{most_coefficients};
ghost use Rattle.dsv_delta.specs.Deltas.{bounded_over_power, coefficients_from};

use crate::refusal::DeltaWide;
use dsv_algebra::NarrowInteger;
use dsv_fraction::{Frac, FracList, TooWide};
use dsv_names::ListName;

/// `sum / common` over that power of delta, or TooWide where a part of it, or with a lower power,
/// is too wide.
fn bounded_over_power(
    sum: NarrowInteger,
    common: NarrowInteger,
    delta: &Frac,
    power: usize,
) -> Result<Frac, TooWide>
    requires common { pos 0 <ℤ common }
    requires delta { pos 0 <ℤ delta.now.num }
    ensures { result ≡ bounded_over_power delta.now sum (unsigned_abs common) power }
{
    let mut quotient = Frac::new(sum.get(), common.get())?;
    'dividing: for _ in 0..power {
        quotient = quotient.div(delta)?;
    }
    Ok(quotient)
}

/// The coefficients whose numerators over `common` are the sums, each over its power of delta.
pub(crate) fn coefficients(
    list: ListName,
    sums: &[i128],
    common: NarrowInteger,
    delta: &Frac,
) -> Result<FracList, DeltaWide>
    requires few { length sums.now ≤ most_coefficients }
    requires common { pos 0 <ℤ common }
    requires delta { pos 0 <ℤ delta.now.num }
    ensures places { IfOk result (λ found. length found.items ≡ length sums.now) }
    ensures value { let meant =
        coefficients_from list delta.now (unsigned_abs common) (vector_of sums.now)
        (length sums.now) [] in
        MatchResult result (λ found. meant ≡ Ok found.items) (λ refusal. meant ≡ Err refusal) }
{
    let mut out = FracList::new();
    for sum in sums {
        let index = out.len();
        match bounded_over_power(NarrowInteger::from(*sum), common, delta, index) {
            Ok(coefficient) => out.push(coefficient),
            Err(_) => return Err(DeltaWide {
                list,
                index: index as u32,
            }),
        }
    }
    Ok(out)
}
