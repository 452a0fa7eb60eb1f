// Writes words of coefficients, with no memory.
ghost use Rattle.std.specs.Prelude.{[], ◌∷◌};
ghost use Rattle.dsv_base.specs.Taking.{Writes};
ghost use Rattle.dsv_word_lines.specs.WordLines.{coefficient_lines, delta_lines, words_line};

use dsv_base::{Failed, Sink, put_line};
use dsv_quantiser::Quantised;
use std::slice;

/// Writes a line of one word.
pub(crate) fn put_word_line<K: Sink>(sink: &mut K, name: &[u8], word: i64) -> Result<(), Failed>
    ensures { Writes (K.seen sink.old) (K.seen sink.new) result (words_line name.now (word ∷ [])) }
{
    put_line(sink, name, slice::from_ref(&word))
}

/// Writes delta's word, which a delta form has.
fn put_delta<K: Sink>(sink: &mut K, quantised: &Quantised) -> Result<(), Failed>
    ensures { Writes (K.seen sink.old) (K.seen sink.new) result (delta_lines quantised.now) }
{
    if !quantised.realisation().is_delta() {
        return Ok(());
    }
    put_word_line(sink, b"delta", quantised.delta())
}

/// Writes the words of both lists, and before them delta's in a delta form.
pub(crate) fn put_coefficients<K: Sink>(sink: &mut K, quantised: &Quantised) -> Result<(), Failed>
    ensures { Writes (K.seen sink.old) (K.seen sink.new) result (coefficient_lines quantised.now) }
{
    put_delta(sink, quantised)?;
    put_line(sink, b"b", quantised.b())?;
    put_line(sink, b"a", quantised.a())
}
