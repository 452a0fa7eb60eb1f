// Ratios in order.
ghost use Rattle.std.specs.Prelude.{◌≡◌, ◌<◌, ◌*◌};
ghost use Rattle.std.specs.Ordering.{nat_cmp};

use std::cmp::Ordering;

/// How `a / b` stands to `c / d`, by continued division: where the whole quotients are equal, the
/// rests are compared the other way up.
pub(crate) fn compare_ratios(a: u128, b: u128, c: u128, d: u128) -> Ordering
    requires first { 0 < b }
    requires second { 0 < d }
    ensures { result ≡ nat_cmp (a * d) (c * b) }
{
    let whole = a / b;
    let other = c / d;
    if whole != other {
        return whole.cmp(&other);
    }
    let rest = a % b;
    let left = c % d;
    if rest == 0 || left == 0 {
        return rest.cmp(&left);
    }
    compare_ratios(d, left, b, rest)
}
