// What the coefficients of values come to over all samples so far.
ghost use Rattle.std.specs.Prelude.{◌≡◌, ◌<◌, drop, IfOk};
ghost use Rattle.dsv_network.specs.Samples.{part_of, kept, added, no_weights, shown_weights};
ghost use Rattle.dsv_network.specs.Samples.{left_over};
ghost use Rattle.dsv_network.specs.Samples.{least_sum, greatest_sum, weight_sums};
ghost use Rattle.dsv_network.specs.Samples.{after_first, value_range};

use crate::pass::Pass;
use dsv_algebra::NarrowInteger;
use dsv_base::{Items, NoMemory};
use dsv_linear::{Factor, Form, Range, factor_sum, outer_range, whole_range};
use std::alloc::Global;

/// What the coefficients of a value come to over all samples so far, for each symbol: the sums of
/// their positive and of their negative parts, or of what a rounding leaves of them. The start's
/// symbols count in the newest form alone.
#[derive(Drop)]
pub struct Weights {
    pub positive: Form,
    pub negative: Form,
}

/// The part of a coefficient that is added up.
#[derive(Clone, Copy)]
pub(crate) enum Part {
    Positive,
    Negative,
    /// What is left of it when it is divided.
    Rest,
}

impl Part {
    /// This part of a coefficient, where a quotient divides by `d`.
    fn of(self, d: u64, v: NarrowInteger) -> NarrowInteger
        requires { 0 < d }
        ensures { result ≡ part_of self d v }
    {
        let zero = NarrowInteger::from(0i64);
        match self {
            Part::Positive => { if v.get() < 0 { zero } else { v } }
            Part::Negative => { if v.get() < 0 { v } else { zero } }
            Part::Rest => NarrowInteger::from(v.get().rem_euclid(i128::from(d))),
        }
    }
}

/// What stays of the samples before of the weight of a symbol.
fn kept_coefficient(count: usize, old: &Form, j: usize) -> NarrowInteger
    ensures { result ≡ kept count old.now j }
{
    if j < count {
        NarrowInteger::from(0i64)
    } else {
        old.coefficient(j)
    }
}

impl Part {
    /// The sums with this part of a form's coefficients, where they are narrow.
    fn part_sums(
        self,
        alloc: Global,
        pass: &Pass,
        d: u64,
        old: &Form,
        form: &Form,
    ) -> Result<Option<Form>, NoMemory>
        requires { 0 < d }
        ensures { IfOk result (λ list. list ≡ added pass.now self d old.now form.now) }
    {
        let mut list = Items::new(alloc);
        for j in 0..pass.ranges.len() {
            let more = self.of(d, form.coefficient(j));
            let Some(sum) = kept_coefficient(pass.count, old, j).checked_add(more) else {
                return Ok(None);
            };
            list.push(sum)?;
        }
        Ok(Some(Form::from_wide(alloc, list)))
    }
}

impl Weights {
    /// Of no coefficient.
    pub(crate) fn none(alloc: Global) -> Self
        ensures { result ≡ no_weights }
    {
        Weights {
            positive: Form::new(alloc),
            negative: Form::new(alloc),
        }
    }

    /// With those of a value that is shown.
    pub(crate) fn shown_weights(
        &self,
        alloc: Global,
        pass: &Pass,
        form: &Form,
    ) -> Result<Option<Weights>, NoMemory>
        ensures { IfOk result
            (λ weights. weights ≡ shown_weights pass.now self.now form.now) }
    {
        let Some(positive) = Part::Positive.part_sums(alloc, pass, 1, &self.positive, form)? else {
            return Ok(None);
        };
        let Some(negative) = Part::Negative.part_sums(alloc, pass, 1, &self.negative, form)? else {
            return Ok(None);
        };
        Ok(Some(Weights { positive, negative }))
    }

    /// With what is left of those of a value that is divided.
    pub(crate) fn left_over(
        &self,
        alloc: Global,
        pass: &Pass,
        d: u64,
        form: &Form,
    ) -> Result<Option<Weights>, NoMemory>
        requires { 0 < d }
        ensures { IfOk result
            (λ weights. weights ≡ left_over pass.now d self.now form.now) }
    {
        let Some(positive) = Part::Rest.part_sums(alloc, pass, d, &self.positive, form)? else {
            return Ok(None);
        };
        Ok(Some(Weights {
            positive,
            negative: Form::new(alloc),
        }))
    }

    /// The least sum of those from a place on, each times a number in its symbol's range.
    fn least_sum(&self, ranges: &[Range], from: usize) -> Option<NarrowInteger>
        ensures { result ≡ least_sum (drop from ranges.now) (after_first from self.now) }
    {
        let positive = factor_sum(Factor::Low, ranges, &self.positive, from)?;
        let negative = factor_sum(Factor::High, ranges, &self.negative, from)?;
        positive.checked_add(negative)
    }

    /// The greatest of these sums.
    fn greatest_sum(&self, ranges: &[Range], from: usize) -> Option<NarrowInteger>
        ensures { result ≡ greatest_sum (drop from ranges.now) (after_first from self.now) }
    {
        let positive = factor_sum(Factor::High, ranges, &self.positive, from)?;
        let negative = factor_sum(Factor::Low, ranges, &self.negative, from)?;
        positive.checked_add(negative)
    }

    /// The least and the greatest of these sums.
    pub(crate) fn sums_from(&self, ranges: &[Range], from: usize) -> Option<Range>
        ensures { result ≡ weight_sums (drop from ranges.now) (after_first from self.now) }
    {
        Some(Range {
            low: self.least_sum(ranges, from)?,
            high: self.greatest_sum(ranges, from)?,
        })
    }

    /// The range of a value with these weights, where the first so many symbols are 0: of a whole
    /// one it is rounded inward.
    pub(crate) fn value_range(&self, whole: bool, ranges: &[Range], count: usize) -> Option<Range>
        ensures { result ≡ value_range whole count ranges.now self.now }
    {
        let sums = self.sums_from(ranges, count)?;
        if whole {
            whole_range(&sums)
        } else {
            outer_range(&sums)
        }
    }
}
