// Lines made of parts.
ghost use Rattle.std.specs.List.{flat_map};
ghost use Rattle.dsv_base.specs.Taking.{Writes};
ghost use Rattle.dsv_word_lines.specs.LineParts.{line_part_text};

use dsv_base::{Failed, Sink, put_all, put_number};

/// A part of a line: bytes as they stand, a count or a number in decimal.
#[derive(Clone, Copy)]
pub enum LinePart<'a> {
    Bytes(&'a [u8]),
    Count(u64),
    Number(i128),
}

/// Writes a part.
fn put_line_part<K: Sink>(sink: &mut K, part: &LinePart) -> Result<(), Failed>
    ensures { Writes (K.seen sink.old) (K.seen sink.new) result (line_part_text part.now) }
{
    match part {
        LinePart::Bytes(bytes) => put_all(sink, bytes),
        LinePart::Count(count) => put_number(sink, *count),
        LinePart::Number(number) => put_number(sink, *number),
    }
}

/// Writes parts one after another.
pub(crate) fn put_line_parts<K: Sink>(sink: &mut K, parts: &[LinePart]) -> Result<(), Failed>
    ensures { Writes (K.seen sink.old) (K.seen sink.new) result
        (flat_map line_part_text parts.now) }
{
    for part in parts {
        put_line_part(sink, part)?;
    }
    Ok(())
}
