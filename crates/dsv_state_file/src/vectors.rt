// Lists of decimals.
ghost use Rattle.std.specs.Prelude.{◌≡◌, ◌≤◌, [], length, IfOk};
ghost use Rattle.dsv_fraction.specs.Ratio.{most_coefficients};
ghost use Rattle.dsv_lines.specs.Pieces.{pieces_of};
ghost use Rattle.dsv_state_file.specs.Decimals.{has_suffix, bare_decimal};
ghost use Rattle.dsv_state_file.specs.Reading.{decimals_from, vector_in};

use crate::limits::MOST_STATES;
use crate::refusal::StateRefusal;
use crate::words::{or_number, words_after};
use arrayvec::ArrayVec;
use dsv_fraction::number::suffix_len;
use dsv_fraction::{Frac, FracList};
use dsv_lines::{Line, Pieces};
use std::marker::Model;

/// Up to `MOST_STATES` lists of fractions.
pub type FracGrid = ArrayVec<FracList, MOST_STATES>;

/// Decimals of a line. Contracts see them as a list.
#[derive(Drop)]
pub(crate) struct Vector {
    pub(crate) held: FracList,
}

impl Model for Vector {
    ghost use Rattle.std.specs.Prelude.{List};
    ghost use Rattle.dsv_fraction.specs.Ratio.{Ratio};

    ghost Value = { List Ratio };

    ghost view = { λ v. v.held.items };
}

impl Vector {
    ghost use Rattle.std.specs.Prelude.{◌≡◌, ◌<◌, [], ◌∷◌, ◌++◌, length};
    ghost use Rattle.dsv_fraction.specs.Ratio.{most_coefficients};
    ghost use Rattle.dsv_state_file.specs.Reading.{entry_at};

    /// No decimals.
    pub(crate) fn new() -> Vector
        ensures { result ≡ [] }
    {
        Vector {
            held: FracList::new(),
        }
    }

    /// Takes one decimal more, where there is room.
    pub(crate) fn push(&mut self, value: Frac)
        requires { length self.old < most_coefficients }
        ensures { self.new ≡ self.old ++ value ∷ [] }
    {
        self.held.push(value);
    }

    /// How many decimals there are.
    pub(crate) fn len(&self) -> usize
        ensures { result ≡ length self.now }
    {
        self.held.len()
    }

    /// The decimal at a place.
    pub(crate) fn at(&self, place: usize) -> Frac
        requires { place < length self.now }
        ensures { result ≡ entry_at self.now place }
    {
        self.held.as_slice()[place]
    }
}

/// Rows of decimals. Contracts see them as a list of lists.
#[derive(Drop)]
pub(crate) struct Grid {
    pub(crate) held: FracGrid,
}

impl Model for Grid {
    ghost use Rattle.std.specs.Prelude.{List, map};
    ghost use Rattle.dsv_fraction.specs.Ratio.{Ratio};

    ghost Value = { List (List Ratio) };

    ghost view = { λ g. map (λ row. row.items) g.held.items };
}

impl Grid {
    ghost use Rattle.std.specs.Prelude.{◌≡◌, ◌<◌, [], ◌∷◌, ◌++◌, length};
    ghost use Rattle.dsv_state_file.specs.Limits.{most_states};

    /// No rows.
    pub(crate) fn new() -> Grid
        ensures { result ≡ [] }
    {
        Grid {
            held: FracGrid::new(),
        }
    }

    /// Takes one row more, where there is room.
    pub(crate) fn push(&mut self, row: Vector)
        requires { length self.old < most_states }
        ensures { self.new ≡ self.old ++ row ∷ [] }
    {
        self.held.push(row.held);
    }
}

/// Whether the last byte is a suffix's, one of `f F l L`.
fn has_suffix(text: &[u8]) -> bool
    ensures { result ≡ has_suffix text.now }
{
    suffix_len(&text[text.len().saturating_sub(1)..]) == 1
}

/// The decimal that the text is, where it has no suffix.
fn bare_decimal(text: &[u8]) -> Option<Frac>
    ensures { result ≡ bare_decimal text.now }
{
    if has_suffix(text) {
        return None;
    }
    match Frac::of_decimal(text) {
        Ok(value) => Some(value),
        Err(_) => None,
    }
}

/// The decimals of the words of a line of this number.
fn read_decimals(line: u64, mut words: Pieces) -> Result<Vector, StateRefusal>
    requires { length words ≤ most_coefficients }
    ensures { result ≡ decimals_from line [] words.entry }
{
    let mut vector = Vector::new();
    while let Some(word) = words.next_piece() {
        let value = or_number(line, vector.len() as u32, bare_decimal(word))?;
        vector.push(value);
    }
    Ok(vector)
}

/// Reads a line that is this word and so many decimals.
pub(crate) fn read_vector(line: Line, word: &[u8], count: usize) -> Result<Vector, StateRefusal>
    requires { count ≤ most_coefficients }
    ensures answer { result
        ≡ vector_in word.now count line.entry.number (pieces_of line.entry.text.now) }
    ensures many { IfOk result (λ xs. length xs ≡ count) }
{
    read_decimals(line.number, words_after(line, word, count)?)
}
