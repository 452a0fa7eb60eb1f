// The coefficients of a form, divided by a power of two.
ghost use Rattle.std.specs.Prelude.{◌≡◌, ◌<◌, ◌≤◌, ◌^◌, pos, IfOk, IfSome, Some};
ghost use Rattle.std.specs.Int.{int_rem_euclid};
ghost use Rattle.dsv_algebra.specs.Floor.{floor_of};
ghost use Rattle.dsv_algebra.specs.Narrow.{narrow_of};
ghost use Rattle.dsv_word.specs.Width.{widest_word};
ghost use Rattle.dsv_netlist.specs.Nodes.{at};
ghost use Rattle.dsv_linear.specs.Forms.{quotients, rests};
ghost use Rattle.dsv_linear.specs.Divisions.{division};
ghost use Rattle.dsv_linear.specs.SmallNumbers.{IsSmall};

use crate::extremes::extreme_sums;
use crate::form::{Form, room_for, short_number};
use crate::powers::power;
use crate::range::{Range, lower_quotient};
use crate::small::{MOST_TERMS, small_range, with_product};
use dsv_algebra::NarrowInteger;
use dsv_base::{Items, NoMemory};
use std::alloc::Global;

/// What a form's coefficients become that are divided, one for each symbol.
#[derive(Drop)]
pub(crate) struct Division {
    /// The quotients, rounded down.
    pub quotients: Form,
    /// The least and the greatest sum of what is left of the coefficients, each times a number in
    /// its symbol's range.
    pub rests: Range,
}

/// What is left of a number that is divided by a positive one.
fn remainder(v: NarrowInteger, d: u64) -> Option<NarrowInteger>
    requires { 0 < d }
    ensures { result ≡ narrow_of (int_rem_euclid v (pos d)) }
{
    NarrowInteger::from(v.get().rem_euclid(i128::from(d))).narrow_number()
}

/// The quotients of a form's first coefficients, rounded down, where they are narrow.
fn quotients(alloc: Global, count: usize, d: u64, form: &Form) -> Result<Option<Form>, NoMemory>
    requires { 0 < d }
    ensures { IfOk result (λ list. list ≡ quotients count d form.now) }
{
    let mut list = Items::new(alloc);
    for j in 0..count {
        let Some(quotient) = lower_quotient(form.coefficient(j), d) else {
            return Ok(None);
        };
        list.push(quotient)?;
    }
    Ok(Some(Form::from_wide(alloc, list)))
}

/// What is left of a form's first coefficients that are divided, where that is narrow.
fn rests(alloc: Global, count: usize, d: u64, form: &Form) -> Result<Option<Form>, NoMemory>
    requires { 0 < d }
    ensures { IfOk result (λ list. list ≡ rests count d form.now) }
{
    let mut list = Items::new(alloc);
    for j in 0..count {
        let Some(rest) = remainder(form.coefficient(j), d) else {
            return Ok(None);
        };
        list.push(rest)?;
    }
    Ok(Some(Form::from_wide(alloc, list)))
}

/// The parts of a number that is divided by a power of two, where the quotient has 64 bits.
#[derive(Clone, Copy)]
struct Parts {
    /// The quotient, rounded down.
    quotient: i64,
    /// What is left.
    rest: i64,
}

/// The quotient by a power of two, rounded down.
#[tactic(auto, using(crate::proofs::Shifts::shifts))]
fn lower_number(v: NarrowInteger, bits: u32) -> NarrowInteger
    requires { bits ≤ widest_word }
    ensures { result ≡ floor_of v (2 ^ bits) }
{
    NarrowInteger::from(v.get() >> bits)
}

/// What is left of a number that is divided by a power of two, which is small, where this is its
/// quotient. A product and a difference take a fraction of the time of a division.
fn rest_of(v: NarrowInteger, quotient: &i64, bits: u32) -> i64
    requires bits { bits ≤ widest_word }
    requires quotient { quotient.now ≡ floor_of v (2 ^ bits) }
    ensures value { result ≡ int_rem_euclid v (pos (2 ^ bits)) }
    ensures small { IsSmall result }
{
    (v.get() - i128::from(*quotient) * i128::from(power(bits))) as i64
}

/// The parts of a number.
fn parts_of(v: NarrowInteger, bits: u32) -> Option<Parts>
    requires { bits ≤ widest_word }
    ensures { IfSome result (λ parts. (parts.quotient ≡ floor_of v (2 ^ bits))
        × ((parts.rest ≡ int_rem_euclid v (pos (2 ^ bits))) × IsSmall parts.rest)) }
{
    let quotient = short_number(lower_number(v, bits))?;
    let rest = rest_of(v, &quotient, bits);
    Some(Parts { quotient, rest })
}

/// The number at this place, 0 after the list's end.
fn number_at(list: &[NarrowInteger], j: usize) -> NarrowInteger
    ensures { result ≡ at list.now j }
{
    if j < list.len() {
        list[j]
    } else {
        NarrowInteger::from(0i64)
    }
}

/// The division by this power of two, where all quotients have 64 bits and the ends of all ranges
/// are small.
#[inline(never)]
fn small_division(
    alloc: Global,
    bits: u32,
    ranges: &[Range],
    list: &[NarrowInteger],
) -> Result<Option<Division>, NoMemory>
    requires { bits ≤ widest_word }
    ensures { IfOk result (λ found. IfSome found
        (λ it. division ranges.now (2 ^ bits) list.now ≡ Some it)) }
{
    if MOST_TERMS < ranges.len() {
        return Ok(None);
    }
    let mut quotients = room_for(alloc, ranges.len() + 1)?;
    let mut low = NarrowInteger::from(0i64);
    let mut high = NarrowInteger::from(0i64);
    for j in 0..ranges.len() {
        let v = number_at(list, j);
        if v.get() == 0 {
            quotients.push(0)?;
            continue;
        }
        let (Some(parts), Some(range)) = (parts_of(v, bits), small_range(&ranges[j])) else {
            return Ok(None);
        };
        low = with_product(low, &parts.rest, &range.low);
        high = with_product(high, &parts.rest, &range.high);
        quotients.push(parts.quotient)?;
    }
    Ok(Some(Division {
        quotients: Form::from_short(alloc, quotients),
        rests: Range { low, high },
    }))
}

/// The division by a positive number, where its numbers are narrow.
fn wide_division(
    alloc: Global,
    d: u64,
    ranges: &[Range],
    form: &Form,
) -> Result<Option<Division>, NoMemory>
    requires { 0 < d }
    ensures { IfOk result (λ found. found ≡ division ranges.now d form.now) }
{
    let Some(quotients) = quotients(alloc, ranges.len(), d, form)? else {
        return Ok(None);
    };
    let Some(rests) = rests(alloc, ranges.len(), d, form)? else {
        return Ok(None);
    };
    let Some(rests) = extreme_sums(ranges, &rests) else {
        return Ok(None);
    };
    Ok(Some(Division { quotients, rests }))
}

/// The division by this power of two, where its numbers are narrow.
pub(crate) fn division_of(
    alloc: Global,
    bits: u32,
    ranges: &[Range],
    form: &Form,
) -> Result<Option<Division>, NoMemory>
    requires { bits ≤ widest_word }
    ensures { IfOk result (λ found. found ≡ division ranges.now (2 ^ bits) form.now) }
{
    if let Some(list) = form.as_wide() {
        if let Some(division) = small_division(alloc, bits, ranges, list)? {
            return Ok(Some(division));
        }
    }
    wide_division(alloc, power(bits), ranges, form)
}
