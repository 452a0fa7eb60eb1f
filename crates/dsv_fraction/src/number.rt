//! The lengths of the parts of a number's text, each in bytes from the front of a text. Each part
//! is taken as long as it goes, and its length is 0 where the text doesn't begin with it.
ghost use Rattle.std.specs.Prelude.{◌≡◌, ◌≤◌, length, drop};
ghost use Rattle.dsv_text.specs.Bytes.{has_byte};
ghost use Rattle.dsv_text.specs.Digits.{digits_len};
ghost use Rattle.dsv_fraction.specs.Number.{sign_len, point_len, suffix_len, whole_len, has_mark};
ghost use Rattle.dsv_fraction.specs.Number.{exponent_len, number_len, is_number, prefix_len};

use dsv_text::{digits_len, has_byte};

/// The length of a sign, `+` or `-`.
pub fn sign_len(text: &[u8]) -> usize
    ensures value { result ≡ sign_len text.now }
    ensures within { result ≤ length text.now }
{
    if has_byte(b'+', text) || has_byte(b'-', text) {
        1
    } else {
        0
    }
}

/// The length of a point.
pub fn point_len(text: &[u8]) -> usize
    ensures value { result ≡ point_len text.now }
    ensures within { result ≤ length text.now }
{
    if has_byte(b'.', text) { 1 } else { 0 }
}

/// The length of a suffix, one of `f F l L`.
pub fn suffix_len(text: &[u8]) -> usize
    ensures value { result ≡ suffix_len text.now }
    ensures within { result ≤ length text.now }
{
    if has_byte(b'f', text)
        || has_byte(b'F', text)
        || has_byte(b'l', text)
        || has_byte(b'L', text)
    {
        1
    } else {
        0
    }
}

/// The length of digits with an optional point and digits after it, or of a point and at least one
/// digit.
pub fn whole_len(text: &[u8]) -> usize
    ensures value { result ≡ whole_len text.now }
    ensures within { result ≤ length text.now }
{
    let before = digits_len(text);
    let point = point_len(&text[before..]);
    let after = if point == 0 {
        0
    } else {
        digits_len(&text[before + point..])
    };
    if before + after == 0 {
        0
    } else {
        before + point + after
    }
}

/// Whether the text begins with an exponent's mark, `e` or `E`.
pub fn has_mark(text: &[u8]) -> bool
    ensures { result ≡ has_mark text.now }
{
    has_byte(b'e', text) || has_byte(b'E', text)
}

/// The length of an exponent: its mark, an optional sign and at least one digit.
pub fn exponent_len(text: &[u8]) -> usize
    ensures value { result ≡ exponent_len text.now }
    ensures within { result ≤ length text.now }
{
    if !has_mark(text) {
        return 0;
    }
    let sign = sign_len(&text[1..]);
    let digits = digits_len(&text[1 + sign..]);
    if digits == 0 { 0 } else { 1 + sign + digits }
}

/// The length of the longest number.
pub fn number_len(text: &[u8]) -> usize
    ensures value { result ≡ number_len text.now }
    ensures within { result ≤ length text.now }
{
    let sign = sign_len(text);
    let whole = whole_len(&text[sign..]);
    if whole == 0 {
        return 0;
    }
    let exponent = exponent_len(&text[sign + whole..]);
    let suffix = suffix_len(&text[sign + whole + exponent..]);
    sign + whole + exponent + suffix
}

/// Whether the whole text is a number.
pub fn is_number(text: &[u8]) -> bool
    ensures { result ≡ is_number text.now }
{
    !text.is_empty() && number_len(text) == text.len()
}

/// The length of the longest prefix of the text that some number begins with.
pub fn prefix_len(text: &[u8]) -> usize
    ensures value { result ≡ prefix_len text.now }
    ensures within { result ≤ length text.now }
{
    let sign = sign_len(text);
    let whole = whole_len(&text[sign..]);
    if whole == 0 {
        return sign + point_len(&text[sign..]);
    }
    let tail = &text[sign + whole..];
    let exponent = exponent_len(tail);
    if exponent == 0 && has_mark(tail) {
        return sign + whole + 1 + sign_len(&tail[1..]);
    }
    sign + whole + exponent + suffix_len(&tail[exponent..])
}

/// The text after its first `count` bytes.
pub fn rest(text: &[u8], count: usize) -> &[u8]
    requires { count ≤ length text.now }
    ensures { result.now ≡ drop count text.now }
{
    &text[count..]
}
