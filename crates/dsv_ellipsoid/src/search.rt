// The search for an ellipsoid that its check accepts. It needs no trust: what it offers has passed
// the check.
//
// For a contraction alpha the form is the inverse of a weighted Gramian, in which a step takes V to
// at most alpha V + w^2; lambda gets a share of what is missing to 1 more than alpha, so that the
// step form is positive although the numbers are made whole. The level is the least that a step
// keeps, and the bound the least that it gives. Contractions are tried from the least on that has
// such a form, which halving finds, until the bounds grow again: as functions of the contraction
// they fall and then rise.
ghost use Rattle.std.specs.Prelude.{◌≡◌, ◌≤◌, length, None, IfSome};
ghost use Rattle.dsv_ellipsoid.specs.Good.{IsGood, NeverBreaks};
ghost use Rattle.dsv_ellipsoid.specs.Refusals.{ellipsoid_refusal};

use crate::check::{MOST_STATES, check_ellipsoid, is_direct};
use crate::disturbance::{greatest_disturbance, one};
use crate::elimination::{spare_of, squares_of};
use crate::entries::{FormKind, tested_form};
use crate::gramian::{Contraction, inverse_gramian};
use crate::refusal::EllipsoidRefusal;
use dsv_certfile::Ellipsoid;
use dsv_forms::{Form, GREATEST_ORDER, Squares};
use dsv_quantiser::Quantised;

/// The greatest level before a step, times the square of the word of 1.
const GREATEST_LEVEL: i128 = 1 << 125;

/// The greatest scale of a form.
const GREATEST_SCALE: i128 = 1 << 40;

/// The share of mu by which it is more than the form's scale.
const MU_SHARE: i128 = 1 << 10;

/// The greatest value that the form and nu are to have together.
const GREATEST_REACH: i128 = 1 << 122;

/// The greatest nu.
const GREATEST_NU: i128 = 1 << 30;

/// How many contractions there are.
const CONTRACTIONS: u32 = 83;

/// In so many steps of halving the least contraction is found.
const HALVINGS: u32 = 7;

/// So many contractions from the least on are tried at most.
const MOST_TRIED: u32 = 20;

/// After so many contractions whose bounds aren't less the search ends.
const PATIENCE: u32 = 3;

/// The shares of what is missing to 1 by which lambda is more than the contraction.
const SHARES: [i128; 4] = [64, 16, 4, 2];

/// The scales that are tried, over 16.
const SCALES: [i128; 2] = [16, 11];

/// What an ellipsoid is made by.
#[derive(Clone, Copy)]
struct Trial {
    /// The contraction of a step.
    contraction: Contraction,
    /// The share of what is missing to 1 by which lambda is more than the contraction.
    share: i128,
    /// The form's scale, over 16.
    scale: i128,
}

/// What a step loses and gets.
#[derive(Clone, Copy)]
struct Balance {
    /// The square of the word of 1.
    before: i128,
    /// By how much lambda is less.
    fall: i128,
    /// The square of the greatest disturbance.
    noise: i128,
}

/// The balance of a controller.
fn balance_of(quantised: &Quantised, trial: &Trial) -> Option<Balance> {
    let unit = i128::from(one(&quantised.format()));
    let before = unit.checked_mul(unit)?;
    let missing = trial
        .contraction
        .whole
        .saturating_sub(trial.contraction.part);
    let kept = before
        .checked_mul(missing)?
        .checked_mul(trial.share.saturating_sub(1))?;
    let fall = kept
        .checked_div_euclid(trial.contraction.whole)?
        .checked_div_euclid(trial.share)?;
    let greatest = greatest_disturbance(quantised);
    let noise = greatest.checked_mul(greatest)?.get();
    Some(Balance {
        before,
        fall,
        noise,
    })
}

/// The form's scale, where it is positive: such that the level isn't too wide.
fn scale_of(balance: &Balance, scale: i128) -> Option<i128> {
    let room = GREATEST_LEVEL
        .checked_div_euclid(balance.before)?
        .checked_mul(balance.fall)?
        .checked_div_euclid(balance.noise.max(1))?;
    let scale = room.min(GREATEST_SCALE).saturating_mul(scale) / 16;
    if 0 < scale { Some(scale) } else { None }
}

/// The quotient, rounded up.
fn quotient_above(number: i128, divisor: i128) -> Option<i128> {
    number
        .checked_add(divisor.checked_sub(1)?)?
        .checked_div_euclid(divisor)
}

/// Squares that show nothing.
fn no_squares() -> Squares {
    Squares {
        m: 1,
        count: 0,
        weights: [0; GREATEST_ORDER],
        rows: [[0; GREATEST_ORDER]; GREATEST_ORDER],
        rest: [[0; GREATEST_ORDER]; GREATEST_ORDER],
    }
}

/// The ellipsoid of a form and its scale, without squares and without a bound.
fn ellipsoid_of(form: &Form, balance: &Balance, scale: i128) -> Option<Ellipsoid> {
    let mu = scale.saturating_add(scale / MU_SHARE).saturating_add(1);
    let level = quotient_above(mu.checked_mul(balance.noise)?, balance.fall)?;
    let reach = GREATEST_REACH.checked_div_euclid(level.max(1))?;
    Some(Ellipsoid {
        form: *form,
        level,
        lambda: balance.before.saturating_sub(balance.fall),
        mu,
        step: no_squares(),
        kappa: 0,
        nu: reach.min(GREATEST_NU),
        bound: 0,
        first: no_squares(),
    })
}

/// The ellipsoid with squares for its step form.
fn with_step(c: &[i64], offer: &Ellipsoid) -> Option<Ellipsoid>
    requires some { 2 ≤ length c.now }
    requires few { length c.now ≤ 8 }
{
    let form = tested_form(FormKind::Step, c, offer)?;
    let step = squares_of(&form)?;
    Some(Ellipsoid { step, ..*offer })
}

/// The ellipsoid with kappa and squares for its first form.
fn with_first(c: &[i64], offer: &Ellipsoid) -> Option<Ellipsoid>
    requires some { 2 ≤ length c.now }
    requires few { length c.now ≤ 8 }
{
    let form = tested_form(FormKind::First, c, offer)?;
    let mut first = squares_of(&form)?;
    let kappa = spare_of(&first, c.len() - 1)?;
    let taken = first.m.checked_mul(kappa)?;
    first.rest[0][0] = first.rest[0][0].checked_sub(taken)?;
    Some(Ellipsoid {
        kappa,
        first,
        ..*offer
    })
}

/// Whether the square of a number is at most another number.
fn is_root_below(root: i128, number: i128) -> bool {
    match root.checked_mul(root) {
        Some(square) => square <= number,
        None => false,
    }
}

/// The square root, rounded down, where the number isn't negative and the root below 2^62.
fn root_of(number: i128) -> i64 {
    let mut root = 0i64;
    let mut bit = 1i64 << 61;
    for _ in 0..62 {
        let next = root.saturating_add(bit);
        if is_root_below(i128::from(next), number) {
            root = next;
        }
        bit /= 2;
    }
    root
}

/// The ellipsoid with its bound.
fn with_bound(offer: &Ellipsoid) -> Option<Ellipsoid> {
    let reach = offer.nu.checked_mul(offer.level)?;
    let bound = root_of(reach.checked_div_euclid(offer.kappa)?);
    Some(Ellipsoid { bound, ..*offer })
}

/// The ellipsoid that is made so.
fn ellipsoid_at(quantised: &Quantised, c: &[i64], trial: &Trial) -> Option<Ellipsoid>
    requires some { 2 ≤ length c.now }
    requires few { length c.now ≤ 8 }
{
    let balance = balance_of(quantised, trial)?;
    let scale = scale_of(&balance, trial.scale)?;
    let form = inverse_gramian(c, trial.contraction, scale)?;
    let offer = ellipsoid_of(&form, &balance, scale)?;
    let offer = with_step(c, &offer)?;
    let offer = with_first(c, &offer)?;
    with_bound(&offer)
}

/// Whether nothing refuses the ellipsoid but its bound, by which words are left.
fn is_sound(quantised: &Quantised, offer: &Ellipsoid) -> bool {
    if quantised.format().hi() < offer.bound {
        return true;
    }
    match check_ellipsoid(quantised, offer) {
        Ok(()) => true,
        Err(EllipsoidRefusal::Interval { .. }) => true,
        Err(_) => false,
    }
}

/// The ellipsoid that is made so, where nothing refuses it but its bound.
fn sound_ellipsoid(quantised: &Quantised, c: &[i64], trial: &Trial) -> Option<Ellipsoid>
    requires some { 2 ≤ length c.now }
    requires few { length c.now ≤ 8 }
{
    let offer = ellipsoid_at(quantised, c, trial)?;
    if is_sound(quantised, &offer) {
        Some(offer)
    } else {
        None
    }
}

/// The first ellipsoid of a contraction that nothing refuses but its bound.
fn ellipsoid_with(quantised: &Quantised, c: &[i64], contraction: Contraction) -> Option<Ellipsoid>
    requires some { 2 ≤ length c.now }
    requires few { length c.now ≤ 8 }
{
    for share in SHARES {
        for scale in SCALES {
            let trial = Trial {
                contraction,
                share,
                scale,
            };
            if let Some(offer) = sound_ellipsoid(quantised, c, &trial) {
                return Some(offer);
            }
        }
    }
    None
}

/// The contraction of a number: 1/64, 1/32, 1/16, and then 1 - g / 2^s, s from 3 on and g from 7
/// down to 4.
fn contraction_at(number: u32) -> Contraction {
    let number = number.min(CONTRACTIONS);
    if number < 3 {
        return Contraction {
            part: 1,
            whole: 64 >> number,
        };
    }
    let whole = 8i128 << ((number - 3) / 4);
    let missing = 7 - i128::from((number - 3) % 4);
    Contraction {
        part: whole - missing,
        whole,
    }
}

/// Whether squares show that the form is positive.
fn is_positive(form: &Form) -> bool
    requires { form.now.d ≤ 8 }
{
    let d = form.d as usize;
    match squares_of(form) {
        Some(squares) => match spare_of(&squares, d) {
            Some(spare) => 0 < spare,
            None => false,
        },
        None => false,
    }
}

/// Whether there is a positive form for the contraction.
fn has_form(c: &[i64], contraction: Contraction) -> bool
    requires some { 2 ≤ length c.now }
    requires few { length c.now ≤ 8 }
{
    match inverse_gramian(c, contraction, GREATEST_SCALE) {
        Some(form) => is_positive(&form),
        None => false,
    }
}

/// The number of the least contraction with a positive form, or of none.
fn least_contraction(c: &[i64]) -> u32
    requires some { 2 ≤ length c.now }
    requires few { length c.now ≤ 8 }
{
    let mut low = 0u32;
    let mut high = CONTRACTIONS;
    for _ in 0..HALVINGS {
        let middle = low.saturating_add(high) / 2;
        if middle < high {
            if has_form(c, contraction_at(middle)) {
                high = middle;
            } else {
                low = middle.saturating_add(1);
            }
        }
    }
    high
}

/// Whether an ellipsoid has a lesser bound than the best one so far.
fn is_better(offer: &Option<Ellipsoid>, best: &Option<Ellipsoid>) -> bool {
    match (offer, best) {
        (Some(next), Some(found)) => next.bound < found.bound,
        (Some(_), None) => true,
        (None, _) => false,
    }
}

/// The ellipsoid with the least bound, of those that are tried.
fn best_ellipsoid(quantised: &Quantised, c: &[i64]) -> Option<Ellipsoid>
    requires some { 2 ≤ length c.now }
    requires few { length c.now ≤ 8 }
{
    let mut best = None;
    let mut later = 0u32;
    let least = least_contraction(c);
    for number in least..least.saturating_add(MOST_TRIED).min(CONTRACTIONS) {
        let offer = ellipsoid_with(quantised, c, contraction_at(number));
        if is_better(&offer, &best) {
            best = offer;
            later = 0;
        } else if best.is_some() {
            later = later.saturating_add(1);
        }
        if PATIENCE <= later {
            return best;
        }
    }
    best
}

/// The ellipsoid with the least bound, where the controller is one whose ellipsoids are checked.
fn candidate_of(quantised: &Quantised) -> Option<Ellipsoid> {
    let c = quantised.a();
    if c.len() < 2 || MOST_STATES + 1 < c.len() {
        return None;
    }
    if !is_direct(quantised.realisation()) || quantised.is_wide() {
        return None;
    }
    best_ellipsoid(quantised, c)
}

/// An ellipsoid that the check accepts for the controller, where one is found; of those that are
/// found the one with the least bound. All entries outside of its places are 0. It takes no memory,
/// and its time is bounded: mostly a dozen of ellipsoids are made and checked, and at most 160.
pub fn ellipsoid_offer(quantised: &Quantised) -> Option<Ellipsoid>
    ensures accepted { IfSome result (λ o. ellipsoid_refusal quantised.now o ≡ None) }
    ensures good { IfSome result (λ o. IsGood quantised.now o) }
    // No list of inputs in range, of any length, breaks the written equations.
    ensures never { IfSome result (λ o. NeverBreaks quantised.now) }
{
    let offer = candidate_of(quantised)?;
    match check_ellipsoid(quantised, &offer) {
        Ok(()) => Some(offer),
        Err(_) => None,
    }
}
