// Why an ellipsoid isn't accepted.

ghost use Rattle.std.specs.Prelude.{◌≡◌, ◌∷◌, []};
ghost use Rattle.dsv_forms.specs.Refusals.{first_of, refusal_of};

use dsv_forms::FormRefusal;

/// What is wrong with an offer, by the first test that refuses; the variants stand in the order of
/// the tests, and so do the places of one. G is the greatest size of the disturbance.
#[derive(Clone, Copy, Debug, PartialEq, Eq)]
pub enum EllipsoidRefusal {
    /// The controller isn't in direct form I with a narrow accumulator and an order of 1 to 7, or
    /// the form hasn't as many places as the order, or isn't symmetric.
    Shape,
    /// The level is negative (place 0), lambda (1) or mu (2) is, kappa is less than 1 (3), nu is
    /// negative (4), or the bound isn't from 0 to the greatest word (5).
    Sign { place: u32 },
    /// G is 2^63 or more (place 0), or one of these passes 2^126: G^2 or mu G^2 (1), lambda times
    /// the level (2), the sum of both (3), 2^(2 `frac_bits`) times the level (4), nu times the
    /// level (5), the square of the bound and 1 or kappa times it (6), a number on the way to an
    /// entry of the step form or of the first form (7).
    Wide { place: u32 },
    /// lambda times the level and mu G^2 are together more than 2^(2 `frac_bits`) times the level.
    Level,
    /// The squares don't show that the step form is nowhere negative; the part is `Fall`.
    Step(FormRefusal),
    /// The squares don't show that the first form is nowhere negative; the part is `Fall`.
    First(FormRefusal),
    /// kappa times the square of the bound and 1 isn't more than nu times the level.
    Bound,
    /// The interval of an exact value of a sample isn't within the words. The values of a sample
    /// count from 0.
    Interval { value: u32, low: i128, high: i128 },
}

/// The refusal, where the test says so.
pub(crate) fn refuse_where(bad: bool, refusal: EllipsoidRefusal) -> Result<(), EllipsoidRefusal>
    ensures { refusal_of result ≡ first_of ((bad, refusal) ∷ []) }
{
    if bad { Err(refusal) } else { Ok(()) }
}
