// Forms of quotients that are made whole.
//
// A rounded product brings a symbol, as in affine arithmetic: v divided by d = 2^frac_bits and made
// whole is v / d and an error, whose range the mode of rounding gives. The coefficients of v are
// divided by d too and rounded down; what that loses is a sum over the old symbols, and its range
// is added to the new symbol's. So a form stays exact: no error stands outside the symbols.
ghost use Rattle.std.specs.Prelude.{◌≡◌, ◌<◌, ◌≤◌, ◌/◌, pos, IfOk};
ghost use Rattle.dsv_linear.specs.Forms.{scale, both, lower, upper};
ghost use Rattle.dsv_linear.specs.Divisions.{symbol_by};
ghost use Rattle.dsv_linear.specs.Known.{error_range, rounded_in};

use crate::SCALE;
use crate::division::division_of;
use crate::form::Form;
use crate::point::Entry;
use crate::powers::power;
use crate::range::{Range, lower_quotient, upper_quotient};
use dsv_base::NoMemory;
use dsv_names::Rounding;
use dsv_word::Format;
use std::alloc::Global;

/// The range of the errors d w - v, where w is v divided by d = 2^frac_bits and made whole.
#[tactic(auto, using(crate::proofs::Scales::powers))]
pub fn error_range(format: &Format) -> Range
    ensures { result ≡ error_range format.now.rounding format.now.frac_bits }
{
    let d = i128::from(power(format.frac_bits));
    match format.rounding {
        Rounding::Floor => Range::between(&(1 - d), &0),
        Rounding::Ceil => Range::between(&0, &(d - 1)),
        Rounding::Nearest => {
            if format.frac_bits == 0 {
                Range::between(&0, &0)
            } else {
                let half = i128::from(power(format.frac_bits - 1));
                Range::between(&(1 - half), &half)
            }
        }
    }
}

/// The range of what the coefficients lose, by the extreme sums of what is left of them.
#[tactic(auto, using(crate::proofs::Scales::scales))]
fn loss_range(rests: &Range) -> Option<Range>
    ensures { result ≡ both (lower rests.now.low scale) (upper rests.now.high scale) }
{
    Some(Range {
        low: lower_quotient(rests.low, SCALE)?,
        high: upper_quotient(rests.high, SCALE)?,
    })
}

/// The range of a rounding's symbol: its error, which is one of these, and what the coefficients
/// lose, by the extreme sums of what is left of them.
pub fn symbol_range(errors: &Range, rests: &Range) -> Option<Range>
    ensures { result ≡ symbol_by errors.now rests.now }
{
    let loss = loss_range(rests)?;
    let error = errors.scaled_range()?;
    error.plus(&loss)
}

/// The scale divided by a power of two.
#[tactic(auto, using(crate::proofs::Scales::scales))]
pub fn step(d: u64) -> i64
    requires { 0 < d }
    ensures { result ≡ pos (scale / d) }
{
    (SCALE / d) as i64
}

/// The form of a value as the format rounds it, and the range of its symbol.
pub(crate) fn rounded_entry(
    alloc: Global,
    format: &Format,
    ranges: &[Range],
    form: &Form,
) -> Result<Option<Entry>, NoMemory>
    ensures { IfOk result (λ entry. entry ≡ rounded_in format.now ranges.now form.now) }
{
    let Some(mut division) = division_of(alloc, format.frac_bits, ranges, form)? else {
        return Ok(None);
    };
    let Some(symbol) = symbol_range(&error_range(format), &division.rests) else {
        return Ok(None);
    };
    division.quotients.push(step(power(format.frac_bits)))?;
    Ok(Some(Entry {
        form: division.quotients,
        symbol: Some(symbol),
    }))
}
