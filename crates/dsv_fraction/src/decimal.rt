// Decimal numbers.
#![tactic(auto, using(dsv_algebra::proofs::Casts::casts))]

ghost use Rattle.std.specs.Prelude.{◌≡◌, ◌^◌, ◌<◌, ◌≤◌, ◌++◌, nat_lt};
ghost use Rattle.std.specs.Prelude.{if◌then◌else◌, Some, None, IfSome, length, pos, ◌-ℤ◌};
ghost use Rattle.std.specs.Int.RustNames.{unsigned_abs};
ghost use Rattle.dsv_fraction.specs.Arithmetic.{times, bounded_ratio};
ghost use Rattle.dsv_text.specs.Digits.{digits_value, leading_digits};
ghost use Rattle.dsv_fraction.specs.Ratio.{part_limit};
ghost use Rattle.dsv_fraction.specs.Decimal.{most_digits, greatest_exponent};
ghost use Rattle.dsv_fraction.specs.Decimal.{digits_after_point, exponent_of, ten_to};
ghost use Rattle.dsv_fraction.specs.Decimal.{tenth_to, power_of_ten, decimal_value, IsWhole};

use crate::fraction::{Frac, TooWide};
use crate::number::{exponent_len, is_number, prefix_len, rest, sign_len, whole_len};
use dsv_text::{digits_len, digits_value, has_byte, leading_digits, value_at_most};
use thiserror::Error;

/// The most digits that a decimal has before its exponent.
const MOST_DIGITS: usize = 18;

/// The greatest size of a decimal's exponent.
const GREATEST_EXPONENT: u64 = 30;

/// Why a text isn't read as a decimal; the first that applies.
#[derive(Clone, Copy, Debug, PartialEq, Eq, Error)]
pub enum DecimalRefusal {
    /// At this offset, in bytes, the text stops being a prefix of a number; the length where it
    /// ends too early.
    #[error("no decimal number at {at}")]
    NotDecimal { at: u64 },
    /// More than 18 digits stand before the exponent.
    #[error("over 18 digits before the exponent")]
    Digits,
    /// The exponent isn't -30 to 30.
    #[error("an exponent outside -30 to 30")]
    Exponent,
    /// A part of the reduced value has a size of 2^127 or more.
    #[error("a part of the value has a size of 2^127 or more")]
    TooWide,
}

impl From<TooWide> for DecimalRefusal {
    ghost use Rattle.std.specs.Prelude.{◌≡◌};
    ghost use Rattle.dsv_fraction.specs.declared.decimal.DecimalRefusal.TheVariants as refusal;

    ghost from_gives = { λ _ e. e ≡ refusal.TooWide };

    fn from(_: TooWide) -> Self {
        DecimalRefusal::TooWide
    }
}

/// The digits after the point.
fn digits_after_point(body: &[u8]) -> &[u8]
    ensures { result.now ≡ digits_after_point body.now }
{
    let tail = rest(body, digits_len(body));
    if has_byte(b'.', tail) {
        leading_digits(rest(tail, 1))
    } else {
        rest(tail, tail.len())
    }
}

/// The exponent that the text begins with, 0 where there is none.
fn exponent_of(tail: &[u8]) -> Option<i32>
    ensures small { IfSome result (λ e. unsigned_abs e ≤ greatest_exponent) }
    ensures value { let e = exponent_of tail.now in
        result ≡ (if nat_lt greatest_exponent (unsigned_abs e) then None else Some e) }
{
    if exponent_len(tail) == 0 {
        return Some(0);
    }
    let signed = rest(tail, 1);
    let size = value_at_most(
        GREATEST_EXPONENT,
        leading_digits(rest(signed, sign_len(signed))),
    )? as i32;
    Some(if has_byte(b'-', signed) { -size } else { size })
}

/// A whole number times `10^count`.
fn times_ten_to(number: &Frac, count: u32) -> Result<Frac, TooWide>
    requires { IsWhole number.now }
    ensures { result ≡ bounded_ratio (times number.now (ten_to count)) }
{
    if count == 0 {
        return Ok(*number);
    }
    times_ten_to(number, count - 1)?.mul(&Frac::whole_number(false, 10))
}

/// A whole number over `10^count`, in lowest terms.
fn over_ten_to(number: &Frac, count: u32) -> Result<Frac, TooWide>
    requires { IsWhole number.now }
    ensures { result ≡ bounded_ratio (times number.now (tenth_to count)) }
{
    if count == 0 {
        return Ok(*number);
    }
    over_ten_to(number, count - 1)?.mul(&Frac::tenth())
}

/// The power of ten by which the digits are multiplied.
fn shift_of(exponent: i32, places: usize) -> i32
    requires exponent { unsigned_abs exponent ≤ greatest_exponent }
    requires places { places ≤ most_digits }
    ensures { result ≡ exponent -ℤ pos places }
{
    exponent - places as i32
}

/// A whole number times `10^shift`, in lowest terms.
fn times_power_of_ten(number: &Frac, shift: i32) -> Result<Frac, TooWide>
    requires { IsWhole number.now }
    ensures { result ≡ bounded_ratio (times number.now (power_of_ten shift)) }
{
    let count = shift.unsigned_abs();
    if shift < 0 {
        over_ten_to(number, count)
    } else {
        times_ten_to(number, count)
    }
}

/// The number that the digits before and after the point spell.
fn digits_of(body: &[u8]) -> u64
    requires { length (leading_digits body.now ++ digits_after_point body.now) ≤ most_digits }
    ensures value { result ≡ digits_value 0
        (leading_digits body.now ++ digits_after_point body.now) }
    ensures narrow { result < part_limit }
{
    digits_value(
        digits_value(0, leading_digits(body)),
        digits_after_point(body),
    )
}

/// The value of a decimal whose digits and point stand at the front of `body`.
fn value_of(negative: bool, body: &[u8], exponent: i32) -> Result<Frac, TooWide>
    requires digits { length (leading_digits body.now ++ digits_after_point body.now)
        ≤ most_digits }
    requires exponent { unsigned_abs exponent ≤ greatest_exponent }
    ensures { let digits = digits_value 0
        (leading_digits body.now ++ digits_after_point body.now) in
        let places = length (digits_after_point body.now) in
        result ≡ bounded_ratio (decimal_value negative digits (exponent -ℤ pos places)) }
{
    let number = Frac::whole_number(negative, u128::from(digits_of(body)));
    let places = digits_after_point(body).len();
    times_power_of_ten(&number, shift_of(exponent, places))
}

impl Frac {
    ghost use Rattle.std.specs.Prelude.{◌≡◌};
    ghost use Rattle.dsv_fraction.specs.Decimal.{decimal_of};

    /// The decimal number that the text spells. Digits alone with a leading 0 are a decimal too,
    /// and a suffix has no effect on the value.
    pub fn of_decimal(text: &[u8]) -> Result<Frac, DecimalRefusal>
        ensures { result ≡ decimal_of text.now }
    {
        if !is_number(text) {
            return Err(DecimalRefusal::NotDecimal {
                at: prefix_len(text) as u64,
            });
        }
        let body = rest(text, sign_len(text));
        if leading_digits(body).len() + digits_after_point(body).len() > MOST_DIGITS {
            return Err(DecimalRefusal::Digits);
        }
        let Some(exponent) = exponent_of(rest(body, whole_len(body))) else {
            return Err(DecimalRefusal::Exponent);
        };
        Ok(value_of(has_byte(b'-', text), body, exponent)?)
    }
}
