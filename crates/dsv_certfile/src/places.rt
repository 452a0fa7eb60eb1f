// The numbers at the places of a line.
ghost use Rattle.std.specs.Prelude.{◌≡◌, ◌<◌, ◌≤◌, ◌∷◌, length, replicate, IfOk};
ghost use Rattle.dsv_certfile.specs.Places.{line_numbers, number_at, squares_places};
ghost use Rattle.dsv_certfile.specs.PlacesRead.{place_in, with_number};
ghost use Rattle.dsv_certfile.specs.Ranges.{AreOf};
ghost use Rattle.dsv_certfile.specs.declared.limits.TheConstants.{MOST_PLACES};
ghost use Rattle.dsv_certfile.specs.declared.places.Place.TheVariants as place;

use crate::fault::TextFault;
use crate::keyword::Keyword;
use crate::limits::{MOST_PLACES, MOST_SQUARES};
use crate::numbers::NumberRange;
use crate::pieces::end;
use arrayvec::ArrayVec;
use dsv_forms::GREATEST_ORDER;
use dsv_lines::Pieces;
use std::marker::Model;

/// What is wanted at a place of a line: a word, or a number of a range.
#[derive(Clone, Copy, Debug, PartialEq, Eq)]
pub(crate) enum Place {
    Word(Keyword),
    Number(NumberRange),
}

/// The numbers of a line. Contracts see them as a list.
#[derive(Debug, Default, Drop)]
pub(crate) struct Numbers {
    held: ArrayVec<i128, MOST_PLACES>,
}

impl Model for Numbers {
    ghost use Rattle.std.specs.Prelude.{List, ℤ};

    ghost Value = { List ℤ };

    ghost view = { λ n. n.held.items };
}

impl Numbers {
    ghost use Rattle.std.specs.Prelude.{◌≡◌, ◌<◌, ◌≤◌, ◌^◌, [], ◌∷◌, ◌++◌, length, drop, pos};
    ghost use Rattle.std.specs.Prelude.{slice_index_or};
    ghost use Rattle.dsv_certfile.specs.declared.limits.TheConstants.{MOST_PLACES};
    ghost use Rattle.dsv_forms.specs.Padded.{row_of};
    ghost use Rattle.std.specs.Int.RustNames.{unsigned_abs};
    ghost use Rattle.dsv_certfile.specs.Headings.{count_at};
    ghost use Rattle.dsv_certfile.specs.Limits.{greatest_entry};

    /// No numbers.
    pub(crate) fn new() -> Numbers
        ensures { result ≡ [] }
    {
        Numbers {
            held: ArrayVec::new(),
        }
    }

    /// Takes one number more, where there is room.
    pub(crate) fn push(&mut self, number: &i128)
        requires { length self.old < MOST_PLACES }
        ensures { self.new ≡ self.old ++ number.now ∷ [] }
    {
        self.held.push(*number);
    }

    /// How many numbers there are.
    pub(crate) fn len(&self) -> usize
        ensures { result ≡ length self.now }
    {
        self.held.len()
    }

    /// The number at a place, or 0 where there is none.
    pub(crate) fn at(&self, place: usize) -> i128
        ensures { result ≡ slice_index_or self.now place (pos 0) }
    {
        let numbers = self.held.as_slice();
        if place < numbers.len() {
            numbers[place]
        } else {
            0
        }
    }

    /// The number at a place of an inequality.
    pub(crate) fn entry_at(&self, place: usize) -> i64
        requires { unsigned_abs (slice_index_or self.now place (pos 0)) ≤ greatest_entry }
        ensures { result ≡ slice_index_or self.now place (pos 0) }
    {
        self.at(place) as i64
    }

    /// The size of the number at a place, which is small.
    pub(crate) fn count_at(&self, place: usize) -> u32
        requires { count_at self.now place < 2 ^ 32 }
        ensures { result ≡ count_at self.now place }
    {
        self.at(place).unsigned_abs() as u32
    }

    /// The numbers from a place on as a row, filled up with 0.
    pub(crate) fn row_from(&self, place: usize) -> [i128; GREATEST_ORDER]
        requires { place ≤ 1 }
        ensures { result ≡ row_of (drop place self.now) }
    {
        let mut row = [0; GREATEST_ORDER];
        for j in 0..GREATEST_ORDER {
            row[j] = self.at(place + j);
        }
        row
    }
}

/// A word, and numbers of a range in all places after it.
pub(crate) fn word_and_numbers(word: Keyword, range: NumberRange) -> [Place; MOST_PLACES]
    ensures { result ≡ place.Word word ∷ replicate 17 (place.Number range) }
{
    let mut places = [Place::Number(range); MOST_PLACES];
    places[0] = Place::Word(word);
    places
}

/// The places of the line that the squares of a form begin with.
pub(crate) fn squares_places(word: Keyword) -> [Place; 3]
    ensures { result ≡ squares_places word }
{
    [
        Place::Word(word),
        Place::Number(NumberRange::Whole),
        Place::Number(NumberRange::UpTo(MOST_SQUARES as u32)),
    ]
}

/// Takes the number of a piece where one is wanted, and answers whether the word that is wanted
/// there stands there.
fn read_place(numbers: &mut Numbers, place: &Place, piece: &[u8]) -> Result<bool, TextFault>
    requires { length numbers.old < MOST_PLACES }
    ensures answer { result ≡ place_in place.now piece.now }
    ensures numbers { numbers.new ≡ with_number numbers.old (number_at place.now piece.now) }
{
    match place {
        Place::Word(word) => Ok(piece == word.text()),
        Place::Number(range) => match range.number_in(piece) {
            Some(number) => {
                numbers.push(&number);
                Ok(true)
            }
            None => Err(TextFault::Number),
        },
    }
}

/// The numbers of the pieces, where they are the wanted ones. A piece that should be a number and
/// isn't one of its range is refused before another word or number of pieces than wanted.
fn numbers_at(places: &[Place], mut pieces: Pieces) -> Result<Numbers, TextFault>
    requires { length places.now ≤ MOST_PLACES }
    ensures { result ≡ line_numbers places.now pieces.entry }
{
    let mut numbers = Numbers::new();
    let mut has_words = true;
    for place in places {
        let Some(piece) = pieces.next_piece() else {
            return Err(TextFault::Line);
        };
        let is_kept = read_place(&mut numbers, place, piece)?;
        has_words = has_words && is_kept;
    }
    end(&pieces)?;
    if has_words {
        Ok(numbers)
    } else {
        Err(TextFault::Line)
    }
}

/// The same, with the ranges of the numbers.
pub(crate) fn read_numbers(places: &[Place], pieces: Pieces) -> Result<Numbers, TextFault>
    requires { length places.now ≤ MOST_PLACES }
    ensures answer { result ≡ line_numbers places.now pieces.entry }
    ensures ranges { IfOk result (λ numbers. AreOf places.now numbers) }
{
    numbers_at(places, pieces)
}
