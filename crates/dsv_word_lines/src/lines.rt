// Writes the lines of formats and of ranges, with no memory.
ghost use Rattle.std.specs.Prelude.{◌≡◌};
ghost use Rattle.dsv_base.specs.Taking.{Writes};
ghost use Rattle.dsv_word_lines.specs.WordLines.{is_end, is_cut, wide_mark, cut_mark};
ghost use Rattle.dsv_word_lines.specs.WordLines.{format_line, range_line};

use crate::line_parts::{LinePart, put_line_parts};
use dsv_base::{Failed, Sink};
use dsv_fraction::{Frac, TooWide};
use dsv_names::Named;
use dsv_word::Format;

/// What stands after a format whose accumulator is wide.
fn wide_mark(wide: bool) -> &'static [u8]
    ensures { result.now ≡ wide_mark wide }
{
    if wide { b" wide" } else { b"" }
}

/// Writes a format, and whether the accumulator is wide.
pub(crate) fn put_format_line<K: Sink>(
    sink: &mut K,
    format: Format,
    wide: bool,
) -> Result<(), Failed>
    ensures { Writes (K.seen sink.old) (K.seen sink.new) result (format_line format wide) }
{
    put_line_parts(
        sink,
        &[
            LinePart::Bytes(b"format "),
            LinePart::Count(u64::from(format.int_bits)),
            LinePart::Bytes(b" "),
            LinePart::Count(u64::from(format.frac_bits)),
            LinePart::Bytes(b" rounding "),
            LinePart::Bytes(format.rounding.name().as_bytes()),
            LinePart::Bytes(b" overflow-mode "),
            LinePart::Bytes(format.overflow.name().as_bytes()),
            LinePart::Bytes(wide_mark(wide)),
            LinePart::Bytes(b"\n"),
        ],
    )
}

/// Whether the whole number that an end of a range becomes is this word.
fn is_end(whole: Result<i128, TooWide>, word: i64) -> bool
    ensures { result ≡ is_end whole word }
{
    match whole {
        Ok(number) => number == i128::from(word),
        Err(_) => false,
    }
}

/// Whether the inputs from `lo` to `hi` are fewer than `min` and `max` allow, since the format has
/// no words for the others.
pub(crate) fn is_cut(format: Format, min: &Frac, max: &Frac, lo: i64, hi: i64) -> bool
    ensures { result ≡ is_cut format min.now max.now lo hi }
{
    !is_end(format.ceil_frac(min), lo) || !is_end(format.floor_frac(max), hi)
}

/// What stands after a range of which an end was cut.
fn cut_mark(cut: bool) -> &'static [u8]
    ensures { result.now ≡ cut_mark cut }
{
    if cut { b" cut" } else { b"" }
}

/// Writes the least and the greatest input, and whether an end was cut.
pub(crate) fn put_range_line<K: Sink>(
    sink: &mut K,
    lo: i64,
    hi: i64,
    cut: bool,
) -> Result<(), Failed>
    ensures { Writes (K.seen sink.old) (K.seen sink.new) result (range_line lo hi cut) }
{
    put_line_parts(
        sink,
        &[
            LinePart::Bytes(b"range "),
            LinePart::Number(i128::from(lo)),
            LinePart::Bytes(b" "),
            LinePart::Number(i128::from(hi)),
            LinePart::Bytes(cut_mark(cut)),
            LinePart::Bytes(b"\n"),
        ],
    )
}
