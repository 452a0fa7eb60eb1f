// The pieces that a text is made of.
ghost use Rattle.std.specs.Prelude.{◌≡◌, ◌≤◌, ◌+◌, false, length, IfSome};
ghost use Rattle.dsv_text.specs.Bytes.{is_blank, is_letter};
ghost use Rattle.dsv_token.specs.Lexing.{is_name_byte, mark_of, line_len, name_len};
ghost use Rattle.dsv_token.specs.Lexing.{close_len, comment_of, is_joined};
ghost use Rattle.dsv_token.specs.Lexing.{number_of, piece_of, LexemeFits};

use crate::token::TokenKind;
use crate::words::word_of;
use dsv_fraction::number::number_len;
use dsv_text::{has_byte, is_blank, is_digit, is_letter};

/// One piece at the beginning of a text.
#[derive(Clone, Copy)]
pub enum Lexeme {
    /// Blanks, a comment or a `#` line. After it the line is fresh where nothing but blanks stood
    /// on it.
    Gap { len: usize, fresh: bool },
    /// A token.
    Found { kind: TokenKind, len: usize },
    /// No token.
    Bad,
}

fn is_name_byte(byte: u8) -> bool
    ensures { result ≡ is_name_byte byte }
{
    is_letter(byte) || is_digit(byte)
}

/// The token that a mark is.
fn mark_of(byte: u8) -> Option<TokenKind>
    ensures { result ≡ mark_of byte }
{
    match byte {
        b'{' => Some(TokenKind::Open),
        b'}' => Some(TokenKind::Close),
        b'=' => Some(TokenKind::Equals),
        b',' => Some(TokenKind::Comma),
        b';' => Some(TokenKind::Semicolon),
        _ => None,
    }
}

/// The length of a line without its line feed.
fn line_len(text: &[u8]) -> usize
    ensures value { result ≡ line_len text.now }
    ensures within { result ≤ length text.now }
{
    let mut count = 0;
    for byte in text {
        if *byte == b'\n' {
            return count;
        }
        count += 1;
    }
    count
}

/// The length of a name.
fn name_len(text: &[u8]) -> usize
    ensures value { result ≡ name_len text.now }
    ensures within { result ≤ length text.now }
{
    let mut count = 0;
    for byte in text {
        if !is_name_byte(*byte) {
            return count;
        }
        count += 1;
    }
    count
}

/// The length of a comment, from what stands after its `/*`.
fn close_len(text: &[u8]) -> Option<usize>
    ensures value { result ≡ close_len 2 false text.now }
    ensures within { IfSome result (λ n. (1 ≤ n) × (n ≤ length text.now + 2)) }
{
    let mut count = 2;
    let mut star = false;
    for byte in text {
        if star && *byte == b'/' {
            return Some(count + 1);
        }
        star = *byte == b'*';
        count += 1;
    }
    None
}

/// The comment whose first `/` stands before the text.
fn comment_of(text: &[u8]) -> Lexeme
    ensures value { result ≡ comment_of text.now }
    ensures within { LexemeFits (length text.now + 1) result }
{
    if has_byte(b'/', text) {
        return Lexeme::Gap {
            len: 1 + line_len(text),
            fresh: false,
        };
    }
    if !has_byte(b'*', text) {
        return Lexeme::Bad;
    }
    match close_len(&text[1..]) {
        Some(len) => Lexeme::Gap { len, fresh: false },
        None => Lexeme::Bad,
    }
}

/// Whether no number may end before the text.
fn is_joined(text: &[u8]) -> bool
    ensures { result ≡ is_joined text.now }
{
    match text {
        [first, ..] => is_name_byte(*first) || *first == b'.',
        [] => false,
    }
}

/// A number, or the dot of a field.
fn number_of(text: &[u8]) -> Lexeme
    ensures value { result ≡ number_of text.now }
    ensures within { LexemeFits (length text.now) result }
{
    let len = number_len(text);
    if len == 0 {
        return if has_byte(b'.', text) {
            Lexeme::Found {
                kind: TokenKind::Dot,
                len: 1,
            }
        } else {
            Lexeme::Bad
        };
    }
    if is_joined(&text[len..]) {
        Lexeme::Bad
    } else {
        Lexeme::Found {
            kind: TokenKind::Number,
            len,
        }
    }
}

/// What stands at the beginning of a text. `fresh` says that nothing but blanks stands before it on
/// its line.
pub fn piece_of(fresh: bool, text: &[u8]) -> Lexeme
    ensures value { result ≡ piece_of fresh text.now }
    ensures within { LexemeFits (length text.now) result }
{
    let [first, ..] = text else {
        return Lexeme::Bad;
    };
    let first = *first;
    if is_blank(first) {
        return Lexeme::Gap {
            len: 1,
            fresh: fresh || first == b'\n',
        };
    }
    if first == b'#' {
        return if fresh {
            Lexeme::Gap {
                len: line_len(text),
                fresh: true,
            }
        } else {
            Lexeme::Bad
        };
    }
    if first == b'/' {
        return comment_of(&text[1..]);
    }
    if is_letter(first) {
        let len = name_len(text);
        return Lexeme::Found {
            kind: TokenKind::Name(word_of(&text[..len])),
            len,
        };
    }
    match mark_of(first) {
        Some(kind) => Lexeme::Found { kind, len: 1 },
        None => number_of(text),
    }
}
