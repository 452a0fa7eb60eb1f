// Texts made of fragments.
ghost use Rattle.std.specs.List.{flat_map};
ghost use Rattle.dsv_base.specs.Taking.{Writes};
ghost use Rattle.dsv_ctext.specs.Texts.{fragment_text};

use dsv_base::{Failed, Sink, put_all, put_number};
use std::slice;

/// A fragment of a text: bytes as they stand, one byte, or a number in decimal.
#[derive(Clone, Copy)]
pub(crate) enum Fragment<'a> {
    Bytes(&'a [u8]),
    Byte(u8),
    Number(i128),
}

/// Writes a fragment.
fn put_fragment<K: Sink>(sink: &mut K, fragment: &Fragment) -> Result<(), Failed>
    ensures { Writes (K.seen sink.old) (K.seen sink.new) result (fragment_text fragment.now) }
{
    match fragment {
        Fragment::Bytes(bytes) => put_all(sink, bytes),
        Fragment::Byte(byte) => put_all(sink, slice::from_ref(byte)),
        Fragment::Number(number) => put_number(sink, *number),
    }
}

/// Writes fragments one after another.
pub(crate) fn put_fragments<K: Sink>(sink: &mut K, fragments: &[Fragment]) -> Result<(), Failed>
    ensures { Writes (K.seen sink.old) (K.seen sink.new) result
        (flat_map fragment_text fragments.now) }
{
    for fragment in fragments {
        put_fragment(sink, fragment)?;
    }
    Ok(())
}
