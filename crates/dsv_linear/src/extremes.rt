// The least and the greatest values of forms, as sums of the worst cases of their terms.
ghost use Rattle.std.specs.Prelude.{◌≡◌, ◌<◌, ◌≤◌, ◌-◌, ◌*◌, length, drop, IfSome, Some};
ghost use Rattle.dsv_algebra.specs.Narrow.{narrow_of};
ghost use Rattle.dsv_linear.specs.Forms.{least, greatest, factor_term, factor_sum};
ghost use Rattle.dsv_linear.specs.Forms.{both, upper, lower, scale, range_scale, form_range};
ghost use Rattle.dsv_linear.specs.Divisions.{extremes};
ghost use Rattle.dsv_linear.specs.SmallNumbers.{most_terms};
ghost use Rattle.dsv_linear.specs.SmallSums.{AreSums};

use crate::form::Form;
use crate::range::{Factor, Range, lower_quotient, upper_quotient};
use crate::small::{
    MOST_TERMS, are_products_small, is_medium, light_factors, small_factors, with_medium_product,
    with_product,
};
use crate::{RANGE_SCALE, SCALE};
use dsv_algebra::NarrowInteger;

/// A form's coefficient times a number in its symbol's range.
fn factor_term(factor: Factor, ranges: &[Range], form: &Form, j: usize) -> Option<NarrowInteger>
    requires { j < length ranges.now }
    ensures { result ≡ narrow_of (factor_term factor ranges.now form.now j) }
{
    let c = form.coefficient(j);
    c.checked_mul(factor.of(c, &ranges[j]))
}

/// The sum of a form's coefficients from one place on, each times a number in its symbol's range.
pub fn factor_sum(
    factor: Factor,
    ranges: &[Range],
    form: &Form,
    from: usize,
) -> Option<NarrowInteger>
    ensures { result ≡ factor_sum factor (drop from ranges.now) (drop from form.now) }
{
    let mut sum = NarrowInteger::from(0i64);
    for j in from..ranges.len() {
        let term = factor_term(factor, ranges, form, j)?;
        sum = sum.checked_add(term)?;
    }
    Some(sum)
}

/// The sums of the terms from one place to another, where their products are small.
#[inline(never)]
fn small_sums(ranges: &[Range], list: &[i64], from: usize, to: usize) -> Option<Range>
    requires order { from ≤ to }
    requires list { to ≤ length list.now }
    requires ranges { to ≤ length ranges.now }
    requires few { to ≤ most_terms }
    ensures { IfSome result (AreSums ranges.now list.now from (to - from)) }
{
    let mut low = NarrowInteger::from(0i64);
    let mut high = NarrowInteger::from(0i64);
    for j in from..to {
        if list[j] == 0 {
            continue;
        }
        let factors = small_factors(&list[j], &ranges[j])?;
        if !are_products_small(&list[j], &factors) {
            return None;
        }
        low = with_product(low, &list[j], &factors.low);
        high = with_product(high, &list[j], &factors.high);
    }
    Some(Range { low, high })
}

/// The same of coefficients that may have more than 64 bits.
#[inline(never)]
fn medium_sums(ranges: &[Range], list: &[NarrowInteger], from: usize, to: usize) -> Option<Range>
    requires order { from ≤ to }
    requires list { to ≤ length list.now }
    requires ranges { to ≤ length ranges.now }
    requires few { to ≤ most_terms }
    ensures { IfSome result (AreSums ranges.now list.now from (to - from)) }
{
    let mut low = NarrowInteger::from(0i64);
    let mut high = NarrowInteger::from(0i64);
    for j in from..to {
        let c = list[j];
        let factors = light_factors(c, &ranges[j])?;
        if !is_medium(c) {
            return None;
        }
        low = with_medium_product(low, c, &factors.low);
        high = with_medium_product(high, c, &factors.high);
    }
    Some(Range { low, high })
}

/// The sums of the terms from one place to another, where their products are small.
fn sums_between(ranges: &[Range], form: &Form, from: usize, to: usize) -> Option<Range>
    requires order { from ≤ to }
    requires form { to ≤ length form.now }
    requires ranges { to ≤ length ranges.now }
    requires few { to ≤ most_terms }
    ensures { IfSome result (AreSums ranges.now form.now from (to - from)) }
{
    match (form.as_short(), form.as_wide()) {
        (Some(list), _) => small_sums(ranges, list, from, to),
        (None, Some(list)) => medium_sums(ranges, list, from, to),
        (None, None) => None,
    }
}

/// Both sums, where the products are small.
fn small_extremes(ranges: &[Range], form: &Form) -> Option<Range>
    ensures { IfSome result (λ sums. extremes ranges.now form.now ≡ Some sums) }
{
    let long = form.len();
    if MOST_TERMS < long || ranges.len() < long {
        return None;
    }
    sums_between(ranges, form, 0, long)
}

/// Both sums, of the terms from one place on.
fn wide_extremes(ranges: &[Range], form: &Form, from: usize) -> Option<Range>
    ensures { result ≡ extremes (drop from ranges.now) (drop from form.now) }
{
    Some(Range {
        low: factor_sum(Factor::Least, ranges, form, from)?,
        high: factor_sum(Factor::Greatest, ranges, form, from)?,
    })
}

/// The least and the greatest sum of a form's coefficients, each times a number in its symbol's
/// range.
pub fn extreme_sums(ranges: &[Range], form: &Form) -> Option<Range>
    ensures { result ≡ both (least ranges.now form.now) (greatest ranges.now form.now) }
{
    if let Some(sums) = small_extremes(ranges, form) {
        return Some(sums);
    }
    wide_extremes(ranges, form, 0)
}

/// The range of a form's value, which is whole, by its extreme sums.
#[tactic(auto, using(crate::proofs::Scales::scales))]
pub fn whole_range(sums: &Range) -> Option<Range>
    ensures { result ≡ both (upper sums.now.low (scale * range_scale))
        (lower sums.now.high (scale * range_scale)) }
{
    Some(Range {
        low: upper_quotient(sums.low, SCALE * RANGE_SCALE)?,
        high: lower_quotient(sums.high, SCALE * RANGE_SCALE)?,
    })
}

/// The range of a number by its extreme sums, both times the scales, rounded outward.
#[tactic(auto, using(crate::proofs::Scales::scales))]
pub fn outer_range(sums: &Range) -> Option<Range>
    ensures { result ≡ both (lower sums.now.low (scale * range_scale))
        (upper sums.now.high (scale * range_scale)) }
{
    Some(Range {
        low: lower_quotient(sums.low, SCALE * RANGE_SCALE)?,
        high: upper_quotient(sums.high, SCALE * RANGE_SCALE)?,
    })
}

/// The range of a form's value, which is whole.
pub(crate) fn form_range(ranges: &[Range], form: &Form) -> Option<Range>
    ensures { result ≡ form_range ranges.now form.now }
{
    whole_range(&extreme_sums(ranges, form)?)
}
