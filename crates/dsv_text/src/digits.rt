// Digits and the numbers that they spell.
ghost use Rattle.std.specs.Prelude.{◌≡◌, ◌<◌, ◌≤◌, ◌^◌, length};
ghost use Rattle.dsv_text.specs.Digits.{digits_len, leading_digits, is_digits};
ghost use Rattle.dsv_text.specs.Digits.{digits_value, short_number, value_at_most};

use crate::bytes::is_digit;

/// The number of digits at the front of the text.
pub fn digits_len(text: &[u8]) -> usize
    ensures value { result ≡ digits_len text.now }
    ensures within { result ≤ length text.now }
{
    let mut count = 0;
    for byte in text {
        if !is_digit(*byte) {
            return count;
        }
        count += 1;
    }
    count
}

/// The digits at the front of the text.
pub fn leading_digits(text: &[u8]) -> &[u8]
    ensures { result.now ≡ leading_digits text.now }
{
    &text[..digits_len(text)]
}

/// Whether the text is digits alone, one at least.
pub fn is_digits(text: &[u8]) -> bool
    ensures { result ≡ is_digits text.now }
{
    !text.is_empty() && digits_len(text) == text.len()
}

/// The number that digits spell after `start`.
#[tactic(auto, using(crate::proofs::DigitLemmas::value_grows))]
pub fn digits_value(start: u64, digits: &[u8]) -> u64
    requires { digits_value start digits.now < 2 ^ 64 }
    ensures { result ≡ digits_value start digits.now }
{
    let mut value = start;
    for byte in digits {
        value = value * 10 + u64::from(byte.saturating_sub(b'0'));
    }
    value
}

/// The number of a text that is 1 to `most` digits alone; `None` for any other text.
#[tactic(auto, using(crate::proofs::DigitLemmas::short_below))]
pub fn short_number(most: usize, text: &[u8]) -> Option<u64>
    requires { most ≤ 19 }
    ensures { result ≡ short_number most text.now }
{
    if is_digits(text) && text.len() <= most {
        Some(digits_value(0, text))
    } else {
        None
    }
}

/// The number that digits spell, where it is at most `limit`.
#[tactic(auto, using(crate::proofs::DigitLemmas::value_grows))]
pub fn value_at_most(limit: u64, digits: &[u8]) -> Option<u64>
    requires { limit < 2 ^ 60 }
    ensures { result ≡ value_at_most limit digits.now }
{
    let mut value = 0;
    for byte in digits {
        value = value * 10 + u64::from(byte.saturating_sub(b'0'));
        if value > limit {
            return None;
        }
    }
    Some(value)
}
