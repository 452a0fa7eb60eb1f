// Lines of written equations, summed in words or in a wide accumulator.
//
// A line is a list of summands; the two ways of summing go over the same list. In words each
// product is rounded and fitted, and so is each sum; in a wide accumulator the products stay exact
// and their total is rounded and fitted once, as signal processors do it.
#![tactic(auto, using(dsv_algebra::proofs::Casts::casts))]

ghost use Rattle.std.specs.Prelude.{◌≡◌, ◌+◌, ◌*◌, ◌^◌, ◌<◌, ◌≤◌, length, pos, ◌+ℤ◌, ◌-ℤ◌, ◌*ℤ◌};
ghost use Rattle.std.specs.Int.RustNames.{unsigned_abs};
ghost use Rattle.std.specs.List.{All};
ghost use Rattle.dsv_meaning.specs.Lines.{fitted_value, product, first_summand, next_summand};
ghost use Rattle.dsv_meaning.specs.Lines.{next_summands, narrow_line, exact_summand, total};
ghost use Rattle.dsv_meaning.specs.Lines.{has_product, first_word, wide_line};
ghost use Rattle.dsv_meaning.specs.Summands.{IsSmall, IsSmallNumber};
ghost use Rattle.dsv_meaning.specs.Equations.{line_of};
ghost use Rattle.dsv_meaning.specs.declared.summands.TheConstants.{MOST_SUMMANDS};
ghost use Rattle.dsv_system.specs.declared.exact_list.TheConstants.{MOST_EXACT};

use crate::summands::{Summand, Summands, rest_of};
use dsv_quantiser::Quantised;
use dsv_system::ExactList;
use dsv_word::Format;

/// The word that the exact value of an operation becomes.
fn fitted_value(format: &Format, value: &i128, exact: &mut ExactList) -> i64
    requires { length exact.old.items < MOST_EXACT }
    ensures value { record { value = result; exact = exact.new.items }
        ≡ fitted_value format.now exact.old.items value.now }
    ensures count { length exact.new.items ≡ length exact.old.items + 1 }
{
    exact.push(*value);
    format.fit(*value)
}

/// A number that is no greater than a word, times a word.
fn times(coeff: &i64, word: &i64) -> i128
    requires { IsSmallNumber coeff.now }
    ensures value { result ≡ coeff.now *ℤ word.now }
    ensures small { unsigned_abs result ≤ 2 ^ 111 }
{
    let coeff: i128 = (*coeff).into();
    let word: i128 = (*word).into();
    coeff * word
}

/// The word of 1: two to the number of bits after the point.
#[tactic(auto, using(dsv_word::proofs::Powers::power_small))]
fn one(format: &Format) -> i64
    ensures value { result ≡ pos (2 ^ format.now.frac_bits) }
    ensures small { IsSmallNumber result }
{
    1i64 << format.frac_bits
}

/// A coefficient times a word.
fn product(format: &Format, coeff: &i64, word: &i64, exact: &mut ExactList) -> i64
    requires coeff { IsSmallNumber coeff.now }
    requires room { length exact.old.items < MOST_EXACT }
    ensures value { record { value = result; exact = exact.new.items }
        ≡ product format.now exact.old.items coeff.now word.now }
    ensures count { length exact.new.items ≡ length exact.old.items + 1 }
{
    let value = format.round_shift(times(coeff, word));
    fitted_value(format, &value, exact)
}

/// A word added to a line.
fn plus(format: &Format, sum: &i64, word: &i64, exact: &mut ExactList) -> i64
    requires { length exact.old.items < MOST_EXACT }
    ensures value { record { value = result; exact = exact.new.items }
        ≡ fitted_value format.now exact.old.items (sum.now +ℤ word.now) }
    ensures count { length exact.new.items ≡ length exact.old.items + 1 }
{
    let value = i128::from(*sum) + i128::from(*word);
    fitted_value(format, &value, exact)
}

/// A word taken away from a line.
fn minus(format: &Format, sum: &i64, word: &i64, exact: &mut ExactList) -> i64
    requires { length exact.old.items < MOST_EXACT }
    ensures value { record { value = result; exact = exact.new.items }
        ≡ fitted_value format.now exact.old.items (sum.now -ℤ word.now) }
    ensures count { length exact.new.items ≡ length exact.old.items + 1 }
{
    let value = i128::from(*sum) - i128::from(*word);
    fitted_value(format, &value, exact)
}

/// A line's first summand.
fn first_summand(format: &Format, summand: &Summand<i64>, exact: &mut ExactList) -> i64
    requires small { IsSmall summand.now }
    requires room { length exact.old.items < MOST_EXACT }
    ensures value { record { value = result; exact = exact.new.items }
        ≡ first_summand format.now exact.old.items summand.now }
    ensures count { length exact.new.items ≤ length exact.old.items + 1 }
{
    match summand {
        Summand::Times {
            away: _,
            coeff,
            word,
        } => product(format, coeff, word, exact),
        Summand::Alone { word } => *word,
    }
}

/// A summand more in a line.
fn next_summand(format: &Format, sum: &i64, summand: &Summand<i64>, exact: &mut ExactList) -> i64
    requires small { IsSmall summand.now }
    requires room { length exact.old.items + 2 ≤ MOST_EXACT }
    ensures value { record { value = result; exact = exact.new.items } ≡
        next_summand format.now (record { value = sum.now; exact = exact.old.items })
        summand.now }
    ensures count { length exact.new.items ≤ length exact.old.items + 2 }
{
    match summand {
        Summand::Times { away, coeff, word } => {
            let term = product(format, coeff, word, exact);
            if *away {
                minus(format, sum, &term, exact)
            } else {
                plus(format, sum, &term, exact)
            }
        }
        Summand::Alone { word } => plus(format, sum, word, exact),
    }
}

/// Summands more in a line, one after another.
fn next_summands(format: &Format, sum: i64, summands: &[Summand<i64>], exact: &mut ExactList) -> i64
    requires small { All IsSmall summands.now }
    requires room { length exact.old.items + 2 * length summands.now ≤ MOST_EXACT }
    ensures value { record { value = result; exact = exact.new.items } ≡
        next_summands format.now (record { value = sum; exact = exact.old.items })
        summands.now }
    ensures count { length exact.new.items ≤ length exact.old.items + 2 * length summands.now }
{
    let mut value = sum;
    for summand in summands {
        value = next_summand(format, &value, summand, exact);
    }
    value
}

/// The value of a line that is summed in words.
fn narrow_line(format: &Format, summands: &[Summand<i64>], exact: &mut ExactList) -> i64
    requires small { All IsSmall summands.now }
    requires room { length exact.old.items + 2 * length summands.now ≤ MOST_EXACT }
    ensures value { record { value = result; exact = exact.new.items } ≡
        narrow_line format.now exact.old.items summands.now }
    ensures count { length exact.new.items ≤ length exact.old.items + 2 * length summands.now }
{
    match summands.first() {
        Some(first) => {
            let sum = first_summand(format, first, exact);
            next_summands(format, sum, rest_of(summands), exact)
        }
        None => 0,
    }
}

/// What a summand adds to the total.
fn exact_summand(format: &Format, summand: &Summand<i64>) -> i128
    requires small { IsSmall summand.now }
    ensures value { result ≡ exact_summand format.now summand.now }
    ensures small { unsigned_abs result ≤ 2 ^ 111 }
{
    match summand {
        Summand::Times { away, coeff, word } => {
            let exact = times(coeff, word);
            if *away { 0 - exact } else { exact }
        }
        Summand::Alone { word } => times(&one(format), word),
    }
}

/// The exact total of a line.
fn total(format: &Format, summands: &[Summand<i64>]) -> i128
    requires small { All IsSmall summands.now }
    requires few { length summands.now ≤ MOST_SUMMANDS }
    ensures value { result ≡ total format.now summands.now }
    ensures small { unsigned_abs result < 2 ^ 126 }
{
    let mut total = 0i128;
    for summand in summands {
        total += exact_summand(format, summand);
    }
    total
}

/// Whether one of the summands is a product.
fn has_product(summands: &[Summand<i64>]) -> bool
    ensures { result ≡ has_product summands.now }
{
    for summand in summands {
        if let Summand::Times { .. } = summand {
            return true;
        }
    }
    false
}

/// The word that stands first.
fn first_word(summands: &[Summand<i64>]) -> i64
    ensures { result ≡ first_word summands.now }
{
    match summands.first() {
        Some(Summand::Alone { word }) => *word,
        _ => 0,
    }
}

/// The value of a line that is summed in a wide accumulator.
fn wide_line(format: &Format, summands: &[Summand<i64>], exact: &mut ExactList) -> i64
    requires small { All IsSmall summands.now }
    requires few { length summands.now ≤ MOST_SUMMANDS }
    requires room { length exact.old.items < MOST_EXACT }
    ensures value { record { value = result; exact = exact.new.items } ≡
        wide_line format.now exact.old.items summands.now }
    ensures count { length exact.new.items ≤ length exact.old.items + 1 }
{
    if has_product(summands) {
        let value = format.round_shift(total(format, summands));
        fitted_value(format, &value, exact)
    } else {
        first_word(summands)
    }
}

/// The value of a line, which adds its exact values to those before.
pub(crate) fn line(quantised: &Quantised, summands: &Summands, exact: &mut ExactList) -> i64
    requires small { All IsSmall summands.now.items }
    requires some { 1 ≤ length summands.now.items }
    requires room { length exact.old.items + 2 * length summands.now.items ≤ MOST_EXACT }
    ensures value { record { value = result; exact = exact.new.items } ≡
        line_of quantised.now exact.old.items summands.now.items }
    ensures count { length exact.new.items
        ≤ length exact.old.items + 2 * length summands.now.items }
{
    let format = quantised.format();
    if quantised.is_wide() {
        wide_line(&format, summands.as_slice(), exact)
    } else {
        narrow_line(&format, summands.as_slice(), exact)
    }
}
