// What names in C may begin with.
ghost use Rattle.std.specs.Prelude.{◌≡◌, ◌||◌};
ghost use Rattle.dsv_text.specs.Bytes.{is_digit, is_letter};
ghost use Rattle.dsv_command.specs.CodeNames.{code_name_of, ends_so, ends_as_stdint};
ghost use Rattle.dsv_command.specs.CodeNames.{are_name_bytes, is_code_name, is_reserved};
ghost use Rattle.dsv_command.specs.CodeNames.{keywords, starts_name};
ghost use Rattle.dsv_command.specs.CodeNames.{unit_names};
ghost use Rattle.dsv_command.specs.Views.{names_view, text_view};

use crate::finding::is_among;
use dsv_text::{is_digit, is_letter};

/// What names in C begin with if nothing is given.
pub(crate) const DEFAULT_CODE_NAME: &str = "controller";

/// The most letters of it.
const MOST_LETTERS: usize = 31;

/// The keywords of C99 that don't begin with `_`.
fn keywords() -> &'static [&'static str]
    ensures { names_view result.now ≡ keywords }
{
    &[
        "auto", "break", "case", "char", "const", "continue", "default", "do", "double", "else",
        "enum", "extern", "float", "for", "goto", "if", "inline", "int", "long", "register",
        "restrict", "return", "short", "signed", "sizeof", "static", "struct", "switch", "typedef",
        "union", "unsigned", "void", "volatile", "while",
    ]
}

/// Names that units have.
fn unit_names() -> &'static [&'static str]
    ensures { names_view result.now ≡ unit_names }
{
    &[
        "x",
        "s",
        "v",
        "t",
        "k",
        "none",
        "rounded16",
        "word16",
        "rounded32",
        "word32",
        "rounded64",
        "word64",
        "main",
        "inputs",
        "outputs",
        "printf",
    ]
}

/// Whether a text ends so.
fn ends_so(text: &[u8], end: &str) -> bool
    ensures { result ≡ ends_so text.now end.now }
{
    let from = text.len().saturating_sub(end.len());
    &text[from..] == end.as_bytes()
}

/// Whether a text ends as a name of `<stdint.h>` does.
fn ends_as_stdint(text: &[u8]) -> bool
    ensures { result ≡ ends_as_stdint text.now }
{
    ends_so(text, "_t") || ends_so(text, "_C") || ends_so(text, "_MIN") || ends_so(text, "_MAX")
}

/// Whether a letter begins a text.
fn starts_name(text: &[u8]) -> bool
    ensures { result ≡ starts_name text.now }
{
    match text {
        [] => false,
        [first, ..] => is_letter(*first) && *first != b'_',
    }
}

/// Whether a byte is a letter, a digit or `_`.
fn is_name_byte(byte: u8) -> bool
    ensures { result ≡ (is_letter byte || is_digit byte) }
{
    is_letter(byte) || is_digit(byte)
}

/// Whether all bytes of a text are.
fn are_name_bytes(text: &[u8]) -> bool
    ensures { result ≡ are_name_bytes text.now }
{
    match text {
        [] => true,
        [first, rest @ ..] => is_name_byte(*first) && are_name_bytes(rest),
    }
}

/// Whether a name means something else.
fn is_reserved(text: &str) -> bool
    ensures { result ≡ is_reserved text.now }
{
    is_among(text, keywords()) || is_among(text, unit_names()) || ends_as_stdint(text.as_bytes())
}

/// Whether names in C may begin so.
fn is_code_name(text: &str) -> bool
    ensures { result ≡ is_code_name text.now }
{
    text.len() <= MOST_LETTERS
        && starts_name(text.as_bytes())
        && are_name_bytes(text.as_bytes())
        && !is_reserved(text)
}

/// The text, if names in C may begin so.
pub(crate) fn code_name_of(text: &str) -> Option<&str>
    ensures { text_view result ≡ code_name_of text.now }
{
    if is_code_name(text) { Some(text) } else { None }
}
