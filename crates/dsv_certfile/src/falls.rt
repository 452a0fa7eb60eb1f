// The lines of a form that falls.
ghost use Rattle.std.specs.Prelude.{◌≡◌, ◌+◌, ◌≤◌, length, IfOk};
ghost use Rattle.dsv_lines.specs.Readings.{Reads};
ghost use Rattle.dsv_certfile.specs.Bodies.{rows_in, form_in, squares_of, squares_in, falls_in};
ghost use Rattle.dsv_certfile.specs.Limits.{most_places, most_squares};
ghost use Rattle.dsv_certfile.specs.Places.{row_places};
ghost use Rattle.dsv_certfile.specs.declared.limits.TheConstants.{MOST_PLACES};

use crate::fault::TextRefusal;
use crate::keyword::Keyword;
use crate::lines::next_numbers;
use crate::numbers::NumberRange;
use crate::places::{Numbers, Place, squares_places, word_and_numbers};
use arrayvec::ArrayVec;
use dsv_forms::{Falls, Form, GREATEST_ORDER, Squares};
use dsv_lines::Lines;
use std::marker::Model;

/// The numbers of at most eight lines. Contracts see them as a list of lists.
#[derive(Debug, Drop)]
struct Rows {
    held: ArrayVec<Numbers, GREATEST_ORDER>,
}

impl Model for Rows {
    ghost use Rattle.std.specs.Prelude.{List, ℤ};

    ghost Value = { List (List ℤ) };

    ghost view = { λ r. r.held.items };
}

impl Rows {
    ghost use Rattle.std.specs.Prelude.{◌≡◌, ◌≤◌, ◌<◌, [], ◌∷◌, ◌++◌, length, drop, map, pos};
    ghost use Rattle.std.specs.Prelude.{slice_index_or};
    ghost use Rattle.dsv_forms.specs.Padded.{matrix_with, row_of};
    ghost use Rattle.dsv_certfile.specs.Limits.{most_places};

    /// No numbers.
    fn new() -> Rows
        ensures { result ≡ [] }
    {
        Rows {
            held: ArrayVec::new(),
        }
    }

    /// Takes the numbers of one line more, where there is room.
    fn push(&mut self, numbers: Numbers)
        requires { length self.old < most_places }
        ensures { self.new ≡ self.old ++ numbers ∷ [] }
    {
        self.held.push(numbers);
    }

    /// The first number of each line, filled up with 0.
    fn firsts(&self) -> [i128; GREATEST_ORDER]
        ensures { result ≡ row_of (map (λ row. slice_index_or row 0 (pos 0)) self.now) }
    {
        let mut firsts = Numbers::new();
        for row in self.held.as_slice() {
            let first = row.at(0);
            firsts.push(&first);
        }
        firsts.row_from(0)
    }

    /// The numbers of each line from a place on, filled up with 0.
    fn matrix_from(&self, place: usize) -> [[i128; GREATEST_ORDER]; GREATEST_ORDER]
        requires { place ≤ 1 }
        ensures { result ≡ matrix_with (map (drop place) self.now) }
    {
        let mut rows = [[0; GREATEST_ORDER]; GREATEST_ORDER];
        for (i, row) in self.held.as_slice().iter().enumerate() {
            rows[i] = row.row_from(place);
        }
        rows
    }
}

/// Reads so many lines of numbers.
fn read_rows(lines: &mut Lines, places: &[Place], count: u32) -> Result<Rows, TextRefusal>
    requires count { count ≤ most_places }
    requires places { length places.now ≤ MOST_PLACES }
    ensures answer { Reads result lines.new (rows_in places.now count lines.old) }
    ensures many { IfOk result (λ rows. length rows ≡ count) }
{
    let mut rows = Rows::new();
    let mut left = count;
    while left > 0 {
        rows.push(next_numbers(lines, places)?);
        left -= 1;
    }
    Ok(rows)
}

/// Reads so many lines of a word and n numbers each.
fn read_word_rows(lines: &mut Lines, word: Keyword, n: u32, count: u32) -> Result<Rows, TextRefusal>
    requires numbers { n ≤ most_places + 1 }
    requires count { count ≤ most_places }
    ensures answer { Reads result lines.new (rows_in (row_places word n) count lines.old) }
    ensures many { IfOk result (λ rows. length rows ≡ count) }
{
    let places = word_and_numbers(word, NumberRange::Whole);
    read_rows(lines, &places[..=n as usize], count)
}

/// Reads a form of d places.
pub(crate) fn read_form(lines: &mut Lines, d: u32) -> Result<Form, TextRefusal>
    requires { d ≤ most_places }
    ensures { Reads result lines.new (form_in d lines.old) }
{
    let rows = read_word_rows(lines, Keyword::Form, d, d)?;
    Ok(Form {
        d,
        rows: rows.matrix_from(0),
    })
}

/// Reads so many squares of m times a form of d places, and the rest.
pub(crate) fn read_squares_of(
    lines: &mut Lines,
    d: u32,
    m: &i128,
    count: u32,
) -> Result<Squares, TextRefusal>
    requires places { d ≤ most_places }
    requires count { count ≤ most_squares }
    ensures { Reads result lines.new (squares_of d m.now count lines.old) }
{
    let squares = read_word_rows(lines, Keyword::Square, d + 1, count)?;
    let rest = read_word_rows(lines, Keyword::Rest, d, d)?;
    Ok(Squares {
        m: *m,
        count,
        weights: squares.firsts(),
        rows: squares.matrix_from(1),
        rest: rest.matrix_from(0),
    })
}

/// Reads the squares of a form of d places, after a line that begins with the word, and the rest.
pub(crate) fn read_squares(lines: &mut Lines, word: Keyword, d: u32) -> Result<Squares, TextRefusal>
    requires { d ≤ most_places }
    ensures { Reads result lines.new (squares_in word d lines.old) }
{
    let head = next_numbers(lines, &squares_places(word))?;
    let m = head.at(0);
    read_squares_of(lines, d, &m, head.count_at(1))
}

/// Reads a form of d places, its squares, and the last line.
pub(crate) fn read_falls(lines: &mut Lines, d: u32) -> Result<Falls, TextRefusal>
    requires { d ≤ most_places }
    ensures { Reads result lines.new (falls_in d lines.old) }
{
    let form = read_form(lines, d)?;
    let positive = read_squares(lines, Keyword::Positive, d)?;
    let fall = read_squares(lines, Keyword::Fall, d)?;
    let _ = next_numbers(lines, &[Place::Word(Keyword::End)])?;
    Ok(Falls {
        form,
        positive,
        fall,
    })
}
