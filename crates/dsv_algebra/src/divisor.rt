// The greatest common divisor.
ghost use Rattle.std.specs.Prelude.{◌≡◌};
ghost use Rattle.std.specs.Int.{IsGcd};
ghost use Rattle.dsv_algebra.specs.Gcd.{gcd};

/// The greatest number that divides both, and 0 for two zeros.
pub fn common_divisor(a: u128, b: u128) -> u128
    ensures value { result ≡ gcd a b }
    ensures divides { IsGcd a b result }
{
    let mut x = a;
    let mut y = b;
    while y != 0 {
        let rest = x % y;
        x = y;
        y = rest;
    }
    x
}
