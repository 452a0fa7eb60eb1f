// Transfer functions in the delta operator.
//
// The delta operator (z - 1) / delta in place of the shift z (Middleton and Goodwin 1986): for fast
// sampling the poles of a filter crowd near 1, and the coefficients in powers of (z - 1) / delta
// keep their digits where those in powers of z lose them. A list is brought to one denominator,
// expanded in powers of z - 1 in whole numbers, and number j then divided by delta^j.
ghost use Rattle.std.specs.Prelude.{◌≡◌, ◌≤◌, length, pos, ◌<ℤ◌};
ghost use Rattle.std.specs.Prelude.{slice_index_or, MatchResult, Ok, Err, IfOk};
ghost use Rattle.dsv_fraction.specs.Ratio.{zero, one, most_coefficients};
ghost use Rattle.dsv_delta.specs.Deltas.{delta_list, delta_lists};

use crate::denominators::{common_denominator, numerators};
use crate::powers::coefficients;
use crate::refusal::DeltaWide;
use crate::synthetic::expand;
use dsv_fraction::{Frac, FracList};
use dsv_names::ListName;

/// The coefficients of a transfer function in the delta operator, those of the highest power first.
#[derive(Drop)]
pub struct DeltaPair {
    pub b: FracList,
    pub a: FracList,
}

/// The list's coefficients in the delta operator.
fn delta_list(list: ListName, fractions: &[Frac], delta: &Frac) -> Result<FracList, DeltaWide>
    requires few { length fractions.now ≤ most_coefficients }
    requires delta { pos 0 <ℤ delta.now.num }
    ensures places { IfOk result (λ found. length found.items ≡ length fractions.now) }
    ensures value { let meant = delta_list list delta.now fractions.now in
        MatchResult result (λ found. meant ≡ Ok found.items) (λ refusal. meant ≡ Err refusal) }
{
    let Some(common) = common_denominator(fractions) else {
        return Err(DeltaWide { list, index: 0 });
    };
    let Some(mut sums) = numerators(common, fractions) else {
        return Err(DeltaWide { list, index: 0 });
    };
    expand(sums.as_mut_slice());
    coefficients(list, sums.as_slice(), common, delta)
}

/// The coefficients of the transfer function (b_0 + b_1 z^-1 + ..) / (a_0 + a_1 z^-1 + ..) of order
/// N in the operator (z - 1) / delta: number j is the sum of a_i C(N - i, N - j) over i up to j,
/// divided by delta^j; or the first list and the least index at which one is too wide. Takes no
/// memory.
pub fn to_delta(b: &[Frac], a: &[Frac], delta: &Frac) -> Result<DeltaPair, DeltaWide>
    requires one_length { length b.now ≡ length a.now }
    requires some { 1 ≤ length a.now }
    requires few { length a.now ≤ most_coefficients }
    requires leading { slice_index_or a.now 0 zero ≡ one }
    requires delta { pos 0 <ℤ delta.now.num }
    ensures places { IfOk result (λ pair. (length pair.b.items ≡ length b.now)
        × (length pair.a.items ≡ length a.now)) }
    ensures exact { let meant = delta_lists b.now a.now delta.now in
        MatchResult result (λ pair. meant ≡ Ok (record { b = pair.b.items; a = pair.a.items }))
        (λ refusal. meant ≡ Err refusal) }
{
    let b = delta_list(ListName::B, b, delta)?;
    let a = delta_list(ListName::A, a, delta)?;
    Ok(DeltaPair { b, a })
}
