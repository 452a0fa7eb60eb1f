// Between which numbers the size of a polynomial's greatest root is, by tables of the polynomial
// with its roots divided by these numbers.

ghost use Rattle.std.specs.Prelude.{◌≡◌, ◌-◌, ◌<◌, ◌<ℤ◌, ◌*ℤ◌, length, IfOk, pos};
ghost use Rattle.dsv_algebra.specs.Vectors.{vector_of};
ghost use Rattle.dsv_table.specs.Rates.{scaled};
ghost use Rattle.dsv_table.specs.RootSize.{parts, is_inside_at, IsRootSize};
ghost use Rattle.dsv_table.specs.Search.{ArePowers, AreScaled, AreSteps, IsBracket, raised_least};

use crate::table::verdict_of;
use dsv_base::NoMemory;
use dsv_integer::Integer;
use std::alloc::Global;
use std::marker::Model;

/// How many parts 1 has, in which the size of a root is counted.
const PARTS: i128 = 100_000;

/// Between which numbers the size of the greatest root is: from `least` on and below `greatest`,
/// each a count of hundred-thousandths.
#[derive(Debug, Drop)]
pub struct RootSize {
    least: Integer,
    greatest: Integer,
}

impl Model for RootSize {
    ghost use Rattle.dsv_table.specs.RootSize.{RootSizeView};

    ghost Value = { RootSizeView };

    ghost view = { λ x. record { least = x.least; greatest = x.greatest } };
}

impl RootSize {
    ghost use Rattle.std.specs.Prelude.{◌≡◌};

    /// The number from which on the size is.
    pub fn least_size(&self) -> &Integer
        ensures { result.now ≡ self.now.least }
    {
        &self.least
    }

    /// The number below which the size is.
    pub fn greatest_size(&self) -> &Integer
        ensures { result.now ≡ self.now.greatest }
    {
        &self.greatest
    }
}

/// How many parts 1 has.
#[tactic(auto, unfolding(crate::specs::RootSize::parts))]
fn part_count(alloc: Global) -> Result<Integer, NoMemory>
    ensures { IfOk result (λ x. x ≡ parts) }
{
    Integer::from_i128(&PARTS, alloc)
}

/// So many powers of a number, from 1 on.
fn powers(base: &Integer, count: usize, alloc: Global) -> Result<Vec<Integer>, NoMemory>
    ensures { IfOk result (λ list. ArePowers base.now count list.items) }
{
    let mut list = Vec::with_capacity(alloc, count)?;
    let mut power = Integer::from_i128(&1, alloc)?;
    for _place in 0..count {
        let next = base.times(&power, alloc)?;
        list.push(power)?;
        power = next;
    }
    Ok(list)
}

/// A coefficient times powers, of which the first list falls as the second one rises.
fn scaled_coefficient(
    coefficients: &[Integer],
    up: &[Integer],
    down: &[Integer],
    k: usize,
    alloc: Global,
) -> Result<Integer, NoMemory>
    requires place { k < length coefficients.now }
    requires up { length up.now ≡ length coefficients.now }
    requires down { length down.now ≡ length coefficients.now }
    ensures { IfOk result (λ x. x ≡ vector_of coefficients.now k
        *ℤ vector_of up.now (length coefficients.now - 1 - k) *ℤ vector_of down.now k) }
{
    let number = coefficients[k].times(&up[coefficients.len() - 1 - k], alloc)?;
    number.times(&down[k], alloc)
}

/// The coefficients of the polynomial with its roots divided by so many parts.
fn scaled_list(
    coefficients: &[Integer],
    p: &Integer,
    alloc: Global,
) -> Result<Vec<Integer>, NoMemory>
    requires { 0 < length coefficients.now }
    ensures { IfOk result (λ list. AreScaled coefficients.now p.now list.items) }
{
    let count = coefficients.len();
    let up = powers(p, count, alloc)?;
    let down = powers(&part_count(alloc)?, count, alloc)?;
    let mut list = Vec::with_capacity(alloc, count)?;
    for k in 0..count {
        list.push(scaled_coefficient(coefficients, up.as_slice(), down.as_slice(), k, alloc)?)?;
    }
    Ok(list)
}

/// Whether all roots are less in size than so many parts.
fn is_inside_at(p: &Integer, coefficients: &[Integer], alloc: Global) -> Result<bool, NoMemory>
    requires { 0 < length coefficients.now }
    ensures { IfOk result (λ b. b ≡ is_inside_at p.now coefficients.now) }
{
    let list = scaled_list(coefficients, p, alloc)?;
    Ok(verdict_of(list.as_slice(), alloc)?.is_inside())
}

/// The powers of two below one that all roots are less than in size. A bound of the roots, which is
/// never computed, shows that there is one.
fn steps_of(coefficients: &[Integer], alloc: Global) -> Result<Vec<Integer>, NoMemory>
    requires order { 1 < length coefficients.now }
    requires lead { pos 0 <ℤ vector_of coefficients.now 0 }
    ensures { IfOk result (λ steps. AreSteps coefficients.now steps.items) }
{
    let mut steps = Vec::new(alloc);
    let mut top = Integer::from_i128(&1, alloc)?;
    while !is_inside_at(&top, coefficients, alloc)? {
        let next = top.plus(&top, alloc)?;
        steps.push(top)?;
        top = next;
    }
    Ok(steps)
}

/// The number and a step, unless all roots are less than that in size.
fn raised_least(
    least: Integer,
    step: &Integer,
    coefficients: &[Integer],
    alloc: Global,
) -> Result<Integer, NoMemory>
    requires { 0 < length coefficients.now }
    ensures { IfOk result (λ x. x ≡ raised_least least step.now coefficients.now) }
{
    let middle = least.plus(step, alloc)?;
    if is_inside_at(&middle, coefficients, alloc)? {
        return Ok(least);
    }
    Ok(middle)
}

/// The greatest number that the greatest root's size isn't below, by the steps of a bisection.
fn least_of(
    steps: Vec<Integer>,
    coefficients: &[Integer],
    alloc: Global,
) -> Result<Integer, NoMemory>
    requires some { 0 < length coefficients.now }
    requires steps { AreSteps coefficients.now steps.items }
    ensures { IfOk result (λ least. IsBracket coefficients.now least 0) }
{
    let mut left = steps;
    let mut least = Integer::from_i128(&0, alloc)?;
    while let Some(step) = left.pop() {
        least = raised_least(least, &step, coefficients, alloc)?;
    }
    Ok(least)
}

/// Between which numbers the size of the greatest root of the polynomial with these coefficients
/// is. It fails only for want of memory.
pub fn root_size(coefficients: &[Integer], alloc: Global) -> Result<RootSize, NoMemory>
    requires order { 1 < length coefficients.now }
    requires lead { pos 0 <ℤ vector_of coefficients.now 0 }
    ensures { IfOk result (IsRootSize coefficients.now) }
{
    let steps = steps_of(coefficients, alloc)?;
    let least = least_of(steps, coefficients, alloc)?;
    let greatest = least.plus(&Integer::from_i128(&1, alloc)?, alloc)?;
    Ok(RootSize { least, greatest })
}
