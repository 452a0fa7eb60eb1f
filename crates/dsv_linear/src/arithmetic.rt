// Sums, differences and products of forms, given up where their numbers aren't narrow.
//
// Where all coefficients have 64 bits, a sum or a difference is tried in 64 bits first.
ghost use Rattle.std.specs.Prelude.{◌≡◌, ◌<◌, ◌*ℤ◌, length, IfOk, IfSome, Some};
ghost use Rattle.std.specs.Int.RustNames.{unsigned_abs};
ghost use Rattle.dsv_algebra.specs.Narrow.{narrow_limit};
ghost use Rattle.dsv_netlist.specs.Nodes.{at};
ghost use Rattle.dsv_linear.specs.Forms.{sums, differences, products, unit, longer};
ghost use Rattle.dsv_linear.specs.SmallNumbers.{IsSmall};

use crate::SCALE;
use crate::form::{Form, room_for};
use crate::small::small_number;
use dsv_algebra::NarrowInteger;
use dsv_base::{Items, NoMemory};
use std::alloc::Global;

/// The greater of two lengths.
fn greater_length(left: usize, right: usize) -> usize
    ensures { result ≡ longer left right }
{
    if left < right { right } else { left }
}

/// How many coefficients the longer of two forms has.
fn longer_length(left: &Form, right: &Form) -> usize
    ensures { result ≡ longer (length left.now) (length right.now) }
{
    greater_length(left.len(), right.len())
}

/// The number at this place, 0 after the list's end.
fn number_at(list: &[i64], j: usize) -> i64
    ensures { result ≡ at list.now j }
{
    if j < list.len() { list[j] } else { 0 }
}

/// The sum, where all its coefficients have 64 bits.
#[inline(never)]
fn short_sum(alloc: Global, left: &[i64], right: &[i64]) -> Result<Option<Items<i64>>, NoMemory>
    ensures { IfOk result (λ found. IfSome found (λ list. sums left.now right.now ≡ Some list)) }
{
    let count = greater_length(left.len(), right.len());
    let mut list = room_for(alloc, count)?;
    for j in 0..count {
        let Some(entry) = number_at(left, j).checked_add(number_at(right, j)) else {
            return Ok(None);
        };
        list.push(entry)?;
    }
    Ok(Some(list))
}

/// The sum, where its numbers are narrow.
fn wide_sum(alloc: Global, left: &Form, right: &Form) -> Result<Option<Form>, NoMemory>
    ensures { IfOk result (λ form. form ≡ sums left.now right.now) }
{
    let count = longer_length(left, right);
    let mut list = room_for(alloc, count)?;
    for j in 0..count {
        let Some(entry) = left.coefficient(j).checked_add(right.coefficient(j)) else {
            return Ok(None);
        };
        list.push(entry)?;
    }
    Ok(Some(Form::from_wide(alloc, list)))
}

/// The form of a sum, where its numbers are narrow.
pub fn sum(alloc: Global, left: &Form, right: &Form) -> Result<Option<Form>, NoMemory>
    ensures { IfOk result (λ form. form ≡ sums left.now right.now) }
{
    if let (Some(first), Some(second)) = (left.as_short(), right.as_short()) {
        if let Some(list) = short_sum(alloc, first, second)? {
            return Ok(Some(Form::from_short(alloc, list)));
        }
    }
    wide_sum(alloc, left, right)
}

/// The difference, where all its coefficients have 64 bits.
#[inline(never)]
fn short_difference(
    alloc: Global,
    left: &[i64],
    right: &[i64],
) -> Result<Option<Items<i64>>, NoMemory>
    ensures { IfOk result (λ found. IfSome found
        (λ list. differences left.now right.now ≡ Some list)) }
{
    let count = greater_length(left.len(), right.len());
    let mut list = room_for(alloc, count)?;
    for j in 0..count {
        let Some(entry) = number_at(left, j).checked_sub(number_at(right, j)) else {
            return Ok(None);
        };
        list.push(entry)?;
    }
    Ok(Some(list))
}

/// The difference, where its numbers are narrow.
fn wide_difference(alloc: Global, left: &Form, right: &Form) -> Result<Option<Form>, NoMemory>
    ensures { IfOk result (λ form. form ≡ differences left.now right.now) }
{
    let count = longer_length(left, right);
    let mut list = room_for(alloc, count)?;
    for j in 0..count {
        let Some(entry) = left.coefficient(j).checked_sub(right.coefficient(j)) else {
            return Ok(None);
        };
        list.push(entry)?;
    }
    Ok(Some(Form::from_wide(alloc, list)))
}

/// The form of a difference, where its numbers are narrow.
pub fn difference(alloc: Global, left: &Form, right: &Form) -> Result<Option<Form>, NoMemory>
    ensures { IfOk result (λ form. form ≡ differences left.now right.now) }
{
    if let (Some(first), Some(second)) = (left.as_short(), right.as_short()) {
        if let Some(list) = short_difference(alloc, first, second)? {
            return Ok(Some(Form::from_short(alloc, list)));
        }
    }
    wide_difference(alloc, left, right)
}

/// The product of a small number with one of 64 bits, which is narrow.
#[tactic(auto, using(crate::proofs::SmallSums::short_product_fits))]
fn small_times(a: &i64, b: &i64) -> NarrowInteger
    requires { IsSmall a.now }
    ensures value { result ≡ a.now *ℤ b.now }
    ensures narrow { unsigned_abs result < narrow_limit }
{
    NarrowInteger::from(i128::from(*a) * i128::from(*b))
}

/// The product of coefficients of 64 bits with a small number.
#[inline(never)]
fn short_product(alloc: Global, c: &i64, of: &[i64]) -> Result<Form, NoMemory>
    requires { IsSmall c.now }
    ensures { IfOk result (λ form. products c.now of.now ≡ Some form) }
{
    let mut list = room_for(alloc, of.len())?;
    for j in 0..of.len() {
        list.push(small_times(c, &of[j]))?;
    }
    Ok(Form::from_wide(alloc, list))
}

/// The product of coefficients of any size.
fn wide_product(alloc: Global, c: NarrowInteger, of: &Form) -> Result<Option<Form>, NoMemory>
    ensures { IfOk result (λ form. form ≡ products c of.now) }
{
    let mut list = room_for(alloc, of.len())?;
    for j in 0..of.len() {
        let Some(entry) = c.checked_mul(of.coefficient(j)) else {
            return Ok(None);
        };
        list.push(entry)?;
    }
    Ok(Some(Form::from_wide(alloc, list)))
}

/// The form of a product with a number, where its numbers are narrow.
pub fn product(alloc: Global, c: NarrowInteger, of: &Form) -> Result<Option<Form>, NoMemory>
    ensures { IfOk result (λ form. form ≡ products c of.now) }
{
    match (small_number(c), of.as_short()) {
        (Some(factor), Some(list)) => Ok(Some(short_product(alloc, &factor, list)?)),
        _ => wide_product(alloc, c, of),
    }
}

/// The form of a new symbol, after `count` others.
#[tactic(auto, using(crate::proofs::Entries::zeros_more, crate::proofs::Scales::scales))]
pub fn unit(alloc: Global, count: usize) -> Result<Form, NoMemory>
    ensures { IfOk result (λ form. form ≡ unit count) }
{
    let mut list = Items::new(alloc);
    for _ in 0..count {
        list.push(0i64)?;
    }
    list.push(SCALE as i64)?;
    Ok(Form::from_short(alloc, list))
}
