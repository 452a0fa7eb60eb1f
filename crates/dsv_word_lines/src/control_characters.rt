// Writes texts that may have control characters.
ghost use Rattle.std.specs.Prelude.{◌≡◌};
ghost use Rattle.dsv_base.specs.Taking.{Writes};
ghost use Rattle.dsv_word_lines.specs.ControlCharacters.{shown, shown_byte};

use dsv_base::{Failed, Sink, put_all};

/// The byte, or `?` for a control character.
fn shown_byte(byte: u8) -> u8
    ensures { result ≡ shown_byte byte }
{
    if byte < 32 || byte == 127 { b'?' } else { byte }
}

/// Writes a text as it stands, with `?` for each control character. It takes no memory.
pub fn put_shown<K: Sink>(sink: &mut K, text: &[u8]) -> Result<(), Failed>
    ensures { Writes (K.seen sink.old) (K.seen sink.new) result (shown text.now) }
{
    for byte in text {
        put_all(sink, &[shown_byte(*byte)])?;
    }
    Ok(())
}
