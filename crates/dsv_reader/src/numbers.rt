// The numbers of a file.
ghost use Rattle.std.specs.Prelude.{◌≡◌, ◌≤◌, [], length, IfOk};
ghost use Rattle.dsv_token.specs.declared.refusal.FileRefusal.TheVariants.{Number};
ghost use Rattle.std.specs.Bool.{OnTrue};
ghost use Rattle.dsv_reader.specs.Controllers.{IsTime};
ghost use Rattle.dsv_reader.specs.Limits.{most_coefficients};
ghost use Rattle.dsv_reader.specs.Numbers.{text_at, is_octal, no_number, whole_number_at};
ghost use Rattle.dsv_reader.specs.Numbers.{bounded_at, by_decimal, decimal_at, is_time};
ghost use Rattle.dsv_reader.specs.Numbers.{by_time, time_at, only_of, coefficients_from};
ghost use Rattle.dsv_reader.specs.Numbers.{coefficients_of, passed_over};

use crate::lists::{Coefficients, MOST_COEFFICIENTS};
use dsv_fraction::number::sign_len;
use dsv_fraction::{DecimalRefusal, Frac};
use dsv_text::{has_byte, is_digits, short_number};
use dsv_token::{FileRefusal, Token};

/// The most digits of a whole number.
const MOST_DIGITS: usize = 18;

/// Both parts of a sample time are below this.
const TIME_LIMIT: i128 = 1 << 62;

/// A whole number of a file, and the offset where it stands.
#[derive(Clone, Copy, Debug, PartialEq, Eq)]
pub(crate) struct SpelledNumber {
    pub(crate) value: u64,
    pub(crate) at: usize,
}

/// A decimal of a file, and the offset where it stands.
#[derive(Clone, Copy, Debug, PartialEq, Eq)]
pub(crate) struct Coefficient {
    pub(crate) value: Frac,
    pub(crate) at: usize,
}

impl Default for Coefficient {
    fn default() -> Self {
        Coefficient {
            value: Frac::default(),
            at: 0,
        }
    }
}

/// The refusal of a number that breaks the rule of its field.
fn no_number(token: Token) -> FileRefusal
    ensures { result ≡ Number token.at }
{
    FileRefusal::Number {
        at: token.at as u64,
    }
}

/// The token's bytes.
fn text_at(bytes: &[u8], token: Token) -> &[u8]
    ensures { result.now ≡ text_at bytes.now token }
{
    let rest = bytes.get(token.at..).unwrap_or_default();
    rest.get(..token.len).unwrap_or(rest)
}

/// Whether C reads the number as octal.
fn is_octal(text: &[u8]) -> bool
    ensures { result ≡ is_octal text.now }
{
    let body = &text[sign_len(text)..];
    is_digits(body) && body.len() > 1 && has_byte(b'0', body)
}

/// The whole number that the token spells: 1 to 18 digits alone, without a leading 0.
pub(crate) fn whole_number_at(bytes: &[u8], token: Token) -> Result<SpelledNumber, FileRefusal>
    ensures { result ≡ whole_number_at bytes.now token }
{
    let text = text_at(bytes, token);
    if is_octal(text) {
        return Err(no_number(token));
    }
    match short_number(MOST_DIGITS, text) {
        Some(value) => Ok(SpelledNumber {
            value,
            at: token.at,
        }),
        None => Err(no_number(token)),
    }
}

/// A whole number from `least` to `greatest`.
pub(crate) fn bounded_at(
    least: u64,
    greatest: u64,
    bytes: &[u8],
    token: Token,
) -> Result<u64, FileRefusal>
    ensures value { result ≡ bounded_at least greatest bytes.now token }
    ensures least { IfOk result (λ n. least ≤ n) }
    ensures greatest { IfOk result (λ n. n ≤ greatest) }
{
    let SpelledNumber { value, at: _ } = whole_number_at(bytes, token)?;
    if value < least || value > greatest {
        return Err(no_number(token));
    }
    Ok(value)
}

/// The coefficient of a decimal, or the refusal of what is none.
fn by_decimal(
    token: Token,
    spelled: Result<Frac, DecimalRefusal>,
) -> Result<Coefficient, FileRefusal>
    ensures { result ≡ by_decimal token spelled }
{
    match spelled {
        Ok(value) => Ok(Coefficient {
            value,
            at: token.at,
        }),
        Err(DecimalRefusal::TooWide) => Err(FileRefusal::FractionWide {
            at: token.at as u64,
        }),
        Err(_) => Err(no_number(token)),
    }
}

/// The decimal that the token spells, where C doesn't read it as octal.
pub(crate) fn decimal_at(bytes: &[u8], token: Token) -> Result<Coefficient, FileRefusal>
    ensures { result ≡ decimal_at bytes.now token }
{
    let text = text_at(bytes, token);
    if is_octal(text) {
        return Err(no_number(token));
    }
    by_decimal(token, Frac::of_decimal(text))
}

/// Whether the number is positive, with both parts below 2^62.
fn is_time(value: &Frac) -> bool
    ensures value { result ≡ is_time value.now }
    ensures time { OnTrue result (IsTime value.now) }
{
    let (num, den) = value.to_parts();
    0 < num && num < TIME_LIMIT && den < TIME_LIMIT
}

/// The sample time of a decimal, or the refusal of what is none.
fn by_time(token: Token, spelled: Result<Frac, DecimalRefusal>) -> Result<Frac, FileRefusal>
    ensures value { result ≡ by_time token spelled }
    ensures time { IfOk result IsTime }
{
    match spelled {
        Ok(value) if is_time(&value) => Ok(value),
        _ => Err(no_number(token)),
    }
}

/// The sample time that the token spells. A number that is too wide breaks its rule like any other
/// that is too large.
pub(crate) fn time_at(bytes: &[u8], token: Token) -> Result<Frac, FileRefusal>
    ensures value { result ≡ time_at bytes.now token }
    ensures time { IfOk result IsTime }
{
    let text = text_at(bytes, token);
    if is_octal(text) {
        return Err(no_number(token));
    }
    by_time(token, Frac::of_decimal(text))
}

/// The one number of a field that wants one.
pub(crate) fn only_of(place: usize, numbers: &[Token]) -> Result<Token, FileRefusal>
    ensures { result ≡ only_of place numbers.now }
{
    match numbers {
        [token, ..] => Ok(*token),
        [] => Err(FileRefusal::Number { at: place as u64 }),
    }
}

fn read_coefficients(bytes: &[u8], numbers: &[Token]) -> Result<Coefficients, FileRefusal>
    requires { length numbers.now ≤ most_coefficients }
    ensures { result ≡ coefficients_from bytes.now numbers.now [] }
{
    let mut list = Coefficients::new();
    for token in numbers {
        match decimal_at(bytes, *token) {
            Ok(coefficient) => list.push(coefficient),
            Err(refusal) => return Err(refusal),
        }
    }
    Ok(list)
}

/// The numbers of a list, which has one to nine.
pub(crate) fn coefficients_of(
    bytes: &[u8],
    place: usize,
    numbers: &[Token],
) -> Result<Coefficients, FileRefusal>
    ensures { result ≡ coefficients_of bytes.now place numbers.now }
{
    if numbers.is_empty() || numbers.len() > MOST_COEFFICIENTS {
        return Err(FileRefusal::Length { at: place as u64 });
    }
    read_coefficients(bytes, numbers)
}

/// Tests the numbers of a field that is passed over.
pub(crate) fn passed_over(bytes: &[u8], numbers: &[Token]) -> Result<(), FileRefusal>
    ensures { result ≡ passed_over bytes.now numbers.now }
{
    for token in numbers {
        if is_octal(text_at(bytes, *token)) {
            return Err(no_number(*token));
        }
    }
    Ok(())
}
