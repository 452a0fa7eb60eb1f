// Quotients that are rounded down.
#![tactic(auto, using(dsv_algebra::proofs::Casts::casts))]

ghost use Rattle.std.specs.Prelude.{◌≡◌, ◌≤◌, ◌^◌, pos, ◌<ℤ◌, ◌≤ℤ◌};
ghost use Rattle.std.specs.Int.{int_div_euclid};
ghost use Rattle.std.specs.Int.RustNames.{unsigned_abs};

use dsv_algebra::NarrowInteger;

/// The number divided by a positive one, rounded down.
pub(crate) fn rounded_quotient(number: NarrowInteger, divisor: NarrowInteger) -> NarrowInteger
    requires { pos 0 <ℤ divisor }
    ensures same { result ≡ int_div_euclid number divisor }
    ensures small { pos (2 ^ 16) ≤ℤ divisor → unsigned_abs result ≤ 2 ^ 111 }
{
    NarrowInteger::from(number.get().div_euclid(divisor.get()))
}
