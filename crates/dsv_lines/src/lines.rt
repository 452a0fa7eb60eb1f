// The lines of a text.

use crate::pieces::length_before;
use std::marker::Model;

/// What is left of a text. Contracts see the lines that are left, what follows the last line feed,
/// and the number of the next line.
#[derive(Drop)]
pub struct Lines<'a> {
    /// The bytes from the next line on.
    rest: &'a [u8],
    /// The number of the next line.
    number: u64,
}

impl<'a> Model for Lines<'a> {
    ghost use Rattle.std.specs.Prelude.{◌+◌, ◌^◌, ◌<◌, length};
    ghost use Rattle.dsv_lines.specs.Pieces.{LinesLeft, lines_of};
    ghost use Rattle.dsv_lines.specs.TextCode.{left_code};

    ghost Value = { LinesLeft };

    ghost coded = { left_code };

    ghost view = { λ l. record { lines = lines_of l.rest.now; number = l.number } };

    ghost invariant = { λ l. l.number + length l.rest.now < 2 ^ 64 };
}

/// A line without its line feed, and its number.
#[derive(Clone, Copy)]
pub struct Line<'a> {
    /// The bytes before the line feed.
    pub text: &'a [u8],
    /// The number of the line in its text; lines count from 1.
    pub number: u64,
}

impl<'a> Lines<'a> {
    ghost use Rattle.std.specs.Prelude.{◌≡◌};
    ghost use Rattle.dsv_lines.specs.NextLine.{IsNextLine};
    ghost use Rattle.dsv_lines.specs.Pieces.{all_lines, is_ended};

    /// All lines of the text.
    pub fn new(bytes: &'a [u8]) -> Lines<'a>
        ensures { result ≡ all_lines bytes.now }
    {
        Lines {
            rest: bytes,
            number: 1,
        }
    }

    /// The number of the next line.
    pub fn number(&self) -> u64
        ensures { result ≡ self.now.number }
    {
        self.number
    }

    /// Takes the next line; where no line feed is left, nothing is taken.
    pub fn next_line(&mut self) -> Option<Line<'a>>
        ensures { IsNextLine self.old result self.new }
    {
        let end = length_before(b'\n', self.rest);
        if end == self.rest.len() {
            return None;
        }
        let line = Line {
            text: &self.rest[..end],
            number: self.number,
        };
        self.rest = &self.rest[end + 1..];
        self.number += 1;
        Some(line)
    }

    /// Whether no bytes are left.
    pub fn is_ended(&self) -> bool
        ensures { result ≡ is_ended self.now.lines }
    {
        self.rest.is_empty()
    }
}
