// The pieces of a line.
ghost use Rattle.std.specs.Prelude.{◌≡◌, ◌==◌, ◌+◌, ◌≤◌, length};
ghost use Rattle.std.specs.List.{position_or_len};
ghost use Rattle.dsv_lines.specs.Pieces.{pieces_of};

use std::marker::Model;

/// How many bytes stand before the first one like this, or how many there are where none is.
pub fn length_before(byte: u8, text: &[u8]) -> usize
    ensures place { result ≡ position_or_len (λ b. b == byte) text.now }
    ensures within { result ≤ length text.now }
{
    for (i, b) in text.iter().enumerate() {
        if *b == byte {
            return i;
        }
    }
    text.len()
}

/// How many spaces a line has: one fewer than its pieces.
pub fn spaces_in(line: &[u8]) -> usize
    ensures { result + 1 ≡ length (pieces_of line.now) }
{
    let mut spaces = 0;
    for byte in line {
        if *byte == b' ' {
            spaces += 1;
        }
    }
    spaces
}

/// What is left of a line. Contracts see the pieces that are left: what stands between its spaces.
#[derive(Drop)]
pub struct Pieces<'a> {
    /// The text from the next piece on; `None` after the last piece.
    rest: Option<&'a [u8]>,
}

impl<'a> Model for Pieces<'a> {
    ghost use Rattle.std.specs.Prelude.{ℕ, List};

    ghost Value = { List (List ℕ) };

    ghost use Rattle.dsv_lines.specs.Pieces.{pieces_left};

    ghost view = { λ p. pieces_left p.rest };
}

impl<'a> Pieces<'a> {
    ghost use Rattle.std.specs.Prelude.{◌≡◌, ◌==◌, drop, length, slice_get, option_map};
    ghost use Rattle.dsv_lines.specs.NextPiece.{IsNextPiece};
    ghost use Rattle.dsv_lines.specs.Pieces.{pieces_of, piece_at};

    /// All pieces of the line.
    pub fn new(line: &'a [u8]) -> Pieces<'a>
        ensures { result ≡ pieces_of line.now }
    {
        Pieces { rest: Some(line) }
    }

    /// Takes the next piece, where one is left.
    pub fn next_piece(&mut self) -> Option<&'a [u8]>
        ensures { IsNextPiece self.old result self.new }
    {
        let text = self.rest?;
        let end = length_before(b' ', text);
        self.rest = if end < text.len() {
            Some(&text[end + 1..])
        } else {
            None
        };
        Some(&text[..end])
    }

    /// Takes the next piece; one that isn't there is empty.
    pub fn next_or_empty(&mut self) -> &'a [u8]
        ensures piece { result.now ≡ piece_at self.old 0 }
        ensures rest { self.new ≡ drop 1 self.old }
    {
        match self.next_piece() {
            Some(piece) => piece,
            None => &[],
        }
    }

    /// The next piece, where one is left. It isn't taken.
    pub fn first(&self) -> Option<&'a [u8]>
        ensures { option_map (λ piece. piece.now) result ≡ slice_get self.now 0 }
    {
        let text = self.rest?;
        Some(&text[..length_before(b' ', text)])
    }

    /// Whether no piece is left.
    pub fn is_empty(&self) -> bool
        ensures { result ≡ (length self.now == 0) }
    {
        self.rest.is_none()
    }
}
