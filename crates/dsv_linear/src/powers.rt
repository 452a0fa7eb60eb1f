// Powers of two.
ghost use Rattle.std.specs.Prelude.{◌≡◌, ◌<◌, ◌≤◌, ◌^◌, pos};
ghost use Rattle.dsv_word.specs.Width.{widest_word};

use dsv_algebra::NarrowInteger;
use dsv_word::Format;

/// Two to that power.
#[tactic(auto, using(crate::proofs::Scales::powers))]
pub fn power(bits: u32) -> u64
    requires { bits ≤ widest_word }
    ensures value { result ≡ 2 ^ bits }
    ensures positive { 0 < result }
    ensures small { result ≤ 2 ^ widest_word }
{
    1u64 << bits
}

/// The word that stands for 1.
pub fn one(format: &Format) -> NarrowInteger
    ensures { result ≡ pos (2 ^ format.now.frac_bits) }
{
    NarrowInteger::from(i128::from(power(format.frac_bits)))
}
