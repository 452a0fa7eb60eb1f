// Writes the words of cascades, with no memory.
ghost use Rattle.std.specs.Prelude.{◌≤◌, ◌+◌, length};
ghost use Rattle.dsv_base.specs.Taking.{Writes};
ghost use Rattle.dsv_cascade.specs.Sections.{most_sections};
ghost use Rattle.dsv_word_lines.specs.WordLines.{cascade_lines, section_line};
ghost use Rattle.dsv_word_lines.specs.WordLines.{section_lines, lines_of_sections};

use crate::coefficients::put_coefficients;
use crate::controllers::put_head;
use crate::line_parts::{LinePart, put_line_parts};
use dsv_base::{Failed, Sink};
use dsv_cascade::Cascade;
use dsv_quantiser::Quantised;
use dsv_reader::Controller;

/// Writes the number of a section.
fn put_section_line<K: Sink>(sink: &mut K, number: u64) -> Result<(), Failed>
    ensures { Writes (K.seen sink.old) (K.seen sink.new) result (section_line number) }
{
    put_line_parts(
        sink,
        &[
            LinePart::Bytes(b"section "),
            LinePart::Count(number),
            LinePart::Bytes(b"\n"),
        ],
    )
}

/// Writes the number of a section and the words of its coefficients.
fn put_section<K: Sink>(sink: &mut K, number: u64, section: &Quantised) -> Result<(), Failed>
    ensures { Writes (K.seen sink.old) (K.seen sink.new) result
        (section_lines number section.now) }
{
    put_section_line(sink, number)?;
    put_coefficients(sink, section)
}

/// Writes sections, of which the first has this number.
fn put_sections<K: Sink>(sink: &mut K, number: u64, sections: &[Quantised]) -> Result<(), Failed>
    requires { number + length sections.now ≤ most_sections }
    ensures { Writes (K.seen sink.old) (K.seen sink.new) result
        (lines_of_sections number sections.now) }
{
    let Some((section, others)) = sections.split_first() else {
        return Ok(());
    };
    put_section(sink, number, section)?;
    put_sections(sink, number + 1, others)
}

/// Writes the format of a cascade's words, the range of its inputs, which the first section's file
/// says, and for each section, counted from 0, the words of its coefficients. It takes no memory.
pub fn put_cascade_lines<K: Sink>(
    sink: &mut K,
    first: &Controller,
    cascade: &Cascade,
) -> Result<(), Failed>
    ensures { Writes (K.seen sink.old) (K.seen sink.new) result
        (cascade_lines first.now cascade.now) }
{
    put_head(sink, first, cascade.first_section())?;
    put_section(sink, 0, cascade.first_section())?;
    put_sections(sink, 1, cascade.later_sections())
}
