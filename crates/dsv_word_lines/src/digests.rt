// Digests of files, and the line that tells one.
ghost use Rattle.std.specs.Prelude.{◌≡◌};
ghost use Rattle.hex.specs.Hex.{encode_lower};
ghost use Rattle.sha2.specs.Sha256.{sha256};
ghost use Rattle.dsv_base.specs.Taking.{Writes};
ghost use Rattle.dsv_word_lines.specs.Digests.{digest_line, digits_text, name_text};

use crate::control_characters::put_shown;
use crate::line_parts::{LinePart, put_line_parts};
use dsv_base::{Failed, Sink, put_all};
use sha2::{Digest, Sha256};

/// The SHA-256 digest of the bytes.
pub fn digest_of(bytes: &[u8]) -> [u8; 32]
    ensures { result ≡ sha256 bytes.now }
{
    Sha256::digest(bytes)
}

/// A digest in lower-case hex digits.
fn digits_of(digest: &[u8; 32]) -> [u8; 64]
    ensures { result ≡ encode_lower digest.now }
{
    let mut digits = [0u8; 64];
    match hex::encode_to_slice(digest.as_slice(), &mut digits) {
        Ok(()) => digits,
        Err(_) => unreachable!(),
    }
}

/// Writes a digest, before the name in the same line.
fn put_digits<K: Sink>(sink: &mut K, digest: &[u8; 32]) -> Result<(), Failed>
    ensures { Writes (K.seen sink.old) (K.seen sink.new) result (digits_text digest.now) }
{
    put_line_parts(
        sink,
        &[
            LinePart::Bytes(b"sha256 "),
            LinePart::Bytes(digits_of(digest).as_slice()),
            LinePart::Bytes(b" "),
        ],
    )
}

/// Writes a name, up to the end of the line.
fn put_name<K: Sink>(sink: &mut K, name: &[u8]) -> Result<(), Failed>
    ensures { Writes (K.seen sink.old) (K.seen sink.new) result (name_text name.now) }
{
    put_shown(sink, name)?;
    put_all(sink, b"\n")
}

/// Writes the digest of a file and the file's name, with `?` for each control character. It takes
/// no memory.
pub fn put_digest<K: Sink>(sink: &mut K, digest: &[u8; 32], name: &str) -> Result<(), Failed>
    ensures { Writes (K.seen sink.old) (K.seen sink.new) result
        (digest_line digest.now name.now) }
{
    put_digits(sink, digest)?;
    put_name(sink, name.as_bytes())
}
