// The numbers that the level and the bound of an offer are tested by.
#![tactic(auto, using(dsv_algebra::proofs::Casts::casts, crate::proofs::FirstTests::single_tests))]

ghost use Rattle.std.specs.Prelude.{◌≡◌, ◌∷◌, [], not, int_lt, pos, IfOk};
ghost use Rattle.std.specs.Prelude.{◌+ℤ◌, ◌*ℤ◌};
ghost use Rattle.dsv_quantiser.specs.QuantisedView.{unit};
ghost use Rattle.dsv_ellipsoid.specs.declared.refusal.EllipsoidRefusal.TheVariants as refusal;
ghost use Rattle.dsv_ellipsoid.specs.Disturbance.{greatest_disturbance};
ghost use Rattle.dsv_forms.specs.Refusals.{first_of, refusal_of};
ghost use Rattle.dsv_ellipsoid.specs.Refusals.{wide_test, noise, level_after};
ghost use Rattle.dsv_ellipsoid.specs.Refusals.{level_before, square_past, size_tests};
ghost use Rattle.dsv_ellipsoid.specs.Refusals.{disturbance_limit};
ghost use Rattle.dsv_ellipsoid.specs.Sizes.{noise_tests, after_tests, limit_tests, sizes_of};

use crate::disturbance::{greatest_disturbance, one};
use crate::refusal::{EllipsoidRefusal, refuse_where};
use dsv_algebra::NarrowInteger;
use dsv_certfile::Ellipsoid;
use dsv_quantiser::Quantised;
use dsv_word::Format;

/// The greatest size of the disturbance is to be less.
const DISTURBANCE_LIMIT: i128 = 1 << 63;

/// The number itself.
pub(crate) fn wide_number(number: &i128) -> NarrowInteger
    ensures { result ≡ number.now }
{
    NarrowInteger::from(*number)
}

/// The product, where it doesn't pass 2^126.
fn narrow_product(
    a: NarrowInteger,
    b: NarrowInteger,
    place: u32,
) -> Result<NarrowInteger, EllipsoidRefusal>
    ensures refusal { refusal_of result ≡ first_of (wide_test (a *ℤ b) place ∷ []) }
    ensures value { IfOk result (λ product. product ≡ a *ℤ b) }
{
    match a.checked_mul(b) {
        Some(product) => Ok(product),
        None => Err(EllipsoidRefusal::Wide { place }),
    }
}

/// The sum, where it doesn't pass 2^126.
fn narrow_sum(
    a: NarrowInteger,
    b: NarrowInteger,
    place: u32,
) -> Result<NarrowInteger, EllipsoidRefusal>
    ensures refusal { refusal_of result ≡ first_of (wide_test (a +ℤ b) place ∷ []) }
    ensures value { IfOk result (λ sum. sum ≡ a +ℤ b) }
{
    match a.checked_add(b) {
        Some(sum) => Ok(sum),
        None => Err(EllipsoidRefusal::Wide { place }),
    }
}

/// Whether the size is 2^63 or more.
fn is_great(size: NarrowInteger) -> bool
    ensures { result ≡ not (int_lt size (pos disturbance_limit)) }
{
    size.get() >= DISTURBANCE_LIMIT
}

/// mu times the square of the disturbance's greatest size.
fn noise(quantised: &Quantised, offer: &Ellipsoid) -> Result<NarrowInteger, EllipsoidRefusal>
    ensures refusal { refusal_of result ≡ first_of (noise_tests quantised.now offer.now) }
    ensures value { IfOk result (λ found. found ≡ noise quantised.now offer.now) }
{
    let greatest = greatest_disturbance(quantised);
    refuse_where(is_great(greatest), EllipsoidRefusal::Wide { place: 0 })?;
    let square = narrow_product(greatest, greatest, 1)?;
    narrow_product(wide_number(&offer.mu), square, 1)
}

/// The greatest level after a step, times the square of the word of 1.
fn level_after(quantised: &Quantised, offer: &Ellipsoid) -> Result<NarrowInteger, EllipsoidRefusal>
    ensures refusal { refusal_of result ≡ first_of (after_tests quantised.now offer.now) }
    ensures value { IfOk result (λ found. found ≡ level_after quantised.now offer.now) }
{
    let noise = noise(quantised, offer)?;
    let decay = narrow_product(wide_number(&offer.lambda), wide_number(&offer.level), 2)?;
    narrow_sum(decay, noise, 3)
}

/// The square of the word of 1.
fn square_of_one(format: &Format) -> NarrowInteger
    ensures { result ≡ unit format.now *ℤ unit format.now }
{
    let one = i128::from(one(format));
    NarrowInteger::from(one * one)
}

/// The level times the square of the word of 1.
fn level_before(quantised: &Quantised, offer: &Ellipsoid) -> Result<NarrowInteger, EllipsoidRefusal>
    ensures refusal { refusal_of result
        ≡ first_of (wide_test (level_before quantised.now offer.now) 4 ∷ []) }
    ensures value { IfOk result (λ found. found ≡ level_before quantised.now offer.now) }
{
    let format = quantised.format();
    narrow_product(square_of_one(&format), wide_number(&offer.level), 4)
}

/// The least size over the bound.
fn past_bound(bound: &i64) -> NarrowInteger
    ensures { result ≡ bound.now +ℤ pos 1 }
{
    NarrowInteger::from(i128::from(*bound) + 1)
}

/// kappa times the square of the least size over the bound.
fn limit(offer: &Ellipsoid) -> Result<NarrowInteger, EllipsoidRefusal>
    ensures refusal { refusal_of result ≡ first_of (limit_tests offer.now) }
    ensures value { IfOk result (λ found. found ≡ offer.now.kappa *ℤ square_past offer.now) }
{
    let past = past_bound(&offer.bound);
    let square = narrow_product(past, past, 6)?;
    narrow_product(wide_number(&offer.kappa), square, 6)
}

/// The numbers that the level and the bound are tested by.
#[derive(Clone, Copy)]
pub(crate) struct Sizes {
    /// The level times the square of the word of 1.
    pub(crate) before: NarrowInteger,
    /// The greatest level after a step, times the square of the word of 1.
    pub(crate) after: NarrowInteger,
    /// nu times the level.
    pub(crate) reach: NarrowInteger,
    /// kappa times the square of the least size over the bound.
    pub(crate) limit: NarrowInteger,
}

/// The numbers that the level and the bound are tested by, where none of them is too wide.
pub(crate) fn sizes_of(quantised: &Quantised, offer: &Ellipsoid) -> Result<Sizes, EllipsoidRefusal>
    ensures refusal { refusal_of result ≡ first_of (size_tests quantised.now offer.now) }
    ensures value { IfOk result (λ found. found ≡ sizes_of quantised.now offer.now) }
{
    let after = level_after(quantised, offer)?;
    let before = level_before(quantised, offer)?;
    let reach = narrow_product(wide_number(&offer.nu), wide_number(&offer.level), 5)?;
    let limit = limit(offer)?;
    Ok(Sizes {
        before,
        after,
        reach,
        limit,
    })
}
