// Words of a given number of bits.
#![tactic(auto, using(dsv_algebra::proofs::Casts::casts))]

ghost use Rattle.std.specs.Prelude.{◌≡◌, ◌≤◌, ◌^◌, ◌≤ℤ◌};
ghost use Rattle.std.specs.Prelude.{if◌then◌else◌, int_lt, pos};
ghost use Rattle.dsv_word.specs.Width.{widest_word};
ghost use Rattle.dsv_word.specs.Words.{wrapped_word};

/// Two to that power.
#[tactic(auto, using(crate::proofs::Powers::power_small))]
pub(crate) fn power(bits: u32) -> i64
    requires { bits ≤ widest_word }
    ensures value { result ≡ pos (2 ^ bits) }
    ensures small { result ≤ℤ pos (2 ^ widest_word) }
{
    1i64 << bits
}

/// The word of that many bits that differs from `v` by a multiple of two to their number.
pub(crate) fn wrap(v: i128, bits: u32) -> i64
    requires least { 1 ≤ bits }
    requires greatest { bits ≤ widest_word }
    ensures { result ≡ wrapped_word bits v }
{
    let size = power(bits);
    let rest = v.rem_euclid(i128::from(size)) as i64;
    if rest < power(bits - 1) {
        rest
    } else {
        rest - size
    }
}

/// The number, or the end that it lies after.
pub(crate) fn saturate(v: i128, low: i64, high: i64) -> i64
    ensures { result ≡ (if int_lt v low then low else if int_lt high v then high else v) }
{
    if v < i128::from(low) {
        low
    } else if v > i128::from(high) {
        high
    } else {
        v as i64
    }
}
