// The numbers that pieces are: decimal, with no leading zeros; 0 has no sign.
ghost use Rattle.std.specs.Prelude.{◌≡◌, ◌≤◌, ◌<◌, ◌^◌, IfSome};
ghost use Rattle.dsv_lines.specs.Numerals.{is_numeral, numeral_of, positive_of, integer_of};
ghost use Rattle.dsv_text.specs.Digits.{value_at_most};

use dsv_text::{has_byte, is_digits};

/// Whether the text is digits alone, with no 0 in front of others.
pub fn is_numeral(text: &[u8]) -> bool
    ensures { result ≡ is_numeral text.now }
{
    is_digits(text) && (text.len() == 1 || !has_byte(b'0', text))
}

/// The number that digits spell, where it is at most the limit.
fn value_within(limit: u128, digits: &[u8]) -> Option<u128>
    ensures { result ≡ value_at_most limit digits.now }
{
    let mut value: u128 = 0;
    for byte in digits {
        let more = u128::from(byte.saturating_sub(b'0'));
        value = value.checked_mul(10)?.checked_add(more)?;
        if value > limit {
            return None;
        }
    }
    Some(value)
}

/// The number of a numeral, where it is at most the limit.
pub fn numeral_of(limit: u128, text: &[u8]) -> Option<u128>
    ensures value { result ≡ numeral_of limit text.now }
    ensures small { IfSome result (λ n. n ≤ limit) }
{
    if is_numeral(text) {
        value_within(limit, text)
    } else {
        None
    }
}

/// The number of a numeral other than 0, where it is at most the limit.
pub fn positive_of(limit: u128, text: &[u8]) -> Option<u128>
    ensures value { result ≡ positive_of limit text.now }
    ensures some { IfSome result (λ n. 1 ≤ n) }
    ensures small { IfSome result (λ n. n ≤ limit) }
{
    let number = numeral_of(limit, text)?;
    if number == 0 { None } else { Some(number) }
}

/// The number of a numeral, or of `-` and one that isn't 0, where its size is at most the limit,
/// which is below 2^127.
pub fn integer_of(limit: u128, text: &[u8]) -> Option<i128>
    requires { limit < 2 ^ 127 }
    ensures { result ≡ integer_of limit text.now }
{
    if has_byte(b'-', text) {
        Some(-(positive_of(limit, &text[1..])? as i128))
    } else {
        Some(numeral_of(limit, text)? as i128)
    }
}
