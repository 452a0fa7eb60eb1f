// What the pieces of a line have to be.
ghost use Rattle.std.specs.Prelude.{◌≡◌, drop};
ghost use Rattle.dsv_names.specs.Names.{value_named};
ghost use Rattle.dsv_lines.specs.Pieces.{piece_at};
ghost use Rattle.dsv_certfile.specs.Headings.{beginning, or_kind, whole_line};
ghost use Rattle.dsv_certfile.specs.Steps.{says_deletion};
ghost use Rattle.dsv_certfile.specs.Keywords.{keyword_text};

use crate::fault::TextFault;
use crate::keyword::{Keyword, is_deletion};
use dsv_lines::Pieces;
use dsv_names::{Named, find_named};

/// Takes the next piece, and refuses another than this word, or none.
pub(crate) fn begin(pieces: &mut Pieces, word: Keyword) -> Result<(), TextFault>
    ensures answer { result ≡ beginning (keyword_text word) pieces.old }
    ensures rest { pieces.new ≡ drop 1 pieces.old }
{
    if pieces.next_or_empty() == word.text() {
        Ok(())
    } else {
        Err(TextFault::Kind)
    }
}

/// Takes the next piece, and answers what it is the name of; a piece that is no name, or that isn't
/// there, is refused.
pub(crate) fn next_named<N: Named>(pieces: &mut Pieces) -> Result<N, TextFault>
    ensures answer { result
        ≡ or_kind (value_named N.name_of N.all_values (piece_at pieces.old 0)) }
    ensures rest { pieces.new ≡ drop 1 pieces.old }
{
    match find_named(pieces.next_or_empty()) {
        Some(value) => Ok(value),
        None => Err(TextFault::Kind),
    }
}

/// Whether the next piece says that a step is a deletion.
pub(crate) fn says_deletion(pieces: &Pieces) -> bool
    ensures { result ≡ says_deletion pieces.now }
{
    match pieces.first() {
        Some(piece) => is_deletion(piece),
        None => false,
    }
}

/// Refuses a line with pieces left.
pub(crate) fn end(pieces: &Pieces) -> Result<(), TextFault>
    ensures { result ≡ whole_line tt pieces.now }
{
    if pieces.is_empty() {
        Ok(())
    } else {
        Err(TextFault::Line)
    }
}
