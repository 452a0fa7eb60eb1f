// Writes parts of lines, with no memory.
ghost use Rattle.dsv_base.specs.Taking.{Writes};
ghost use Rattle.dsv_report.specs.Lines as lines;

use crate::fragments::{Fragment, put_fragments};
use dsv_base::{Failed, Sink};
use dsv_names::{Named, Property, Realisation};

/// Writes a property, before the realisation in the same line.
pub(crate) fn put_property<K: Sink>(sink: &mut K, property: Property) -> Result<(), Failed>
    ensures { Writes (K.seen sink.old) (K.seen sink.new) result (lines.property_text property) }
{
    put_fragments(
        sink,
        &[
            Fragment::Bytes(b"property "),
            Fragment::Bytes(property.name().as_bytes()),
            Fragment::Bytes(b" "),
        ],
    )
}

/// Writes the realisation.
pub(crate) fn put_realisation<K: Sink>(sink: &mut K, realisation: Realisation) -> Result<(), Failed>
    ensures { Writes (K.seen sink.old) (K.seen sink.new) result
        (lines.realisation_text realisation) }
{
    put_fragments(
        sink,
        &[
            Fragment::Bytes(b"realization "),
            Fragment::Bytes(realisation.name().as_bytes()),
        ],
    )
}

/// Writes a word and a number after it.
pub(crate) fn put_numbered<K: Sink>(sink: &mut K, word: &[u8], number: u64) -> Result<(), Failed>
    ensures { Writes (K.seen sink.old) (K.seen sink.new) result (lines.numbered word.now number) }
{
    put_fragments(
        sink,
        &[Fragment::Bytes(word), Fragment::Number(number.into())],
    )
}

/// Writes a word and a number after it, up to the end of the line.
pub(crate) fn put_number_line<K: Sink>(sink: &mut K, word: &[u8], number: u64) -> Result<(), Failed>
    ensures { Writes (K.seen sink.old) (K.seen sink.new) result
        (lines.number_line word.now number) }
{
    put_fragments(
        sink,
        &[
            Fragment::Bytes(word),
            Fragment::Number(number.into()),
            Fragment::Bytes(b"\n"),
        ],
    )
}
