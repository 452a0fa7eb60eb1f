// Rows, matrices and squares of few places, filled up with 0.
ghost use Rattle.std.specs.Prelude.{◌≡◌, ◌≤◌, [], ◌∷◌, pos};
ghost use Rattle.std.specs.Int.RustNames.{unsigned_abs};
ghost use Rattle.dsv_forms.specs.Padded.{row_of, matrix_with, form_with, squares_with};
ghost use Rattle.dsv_closed_forms.specs.ClosedForm.{diagonal, negated_rows, second_limit};
ghost use Rattle.dsv_closed_forms.specs.Entries.{rows_of, HasSmallEntries};

use crate::narrow::negation;
use dsv_algebra::NarrowInteger;
use dsv_forms::{Form, GREATEST_ORDER, Squares};

/// A row of up to eight places.
pub(crate) type MatrixRow = [i128; GREATEST_ORDER];

/// The entries row by row.
pub(crate) type Matrix = [[i128; GREATEST_ORDER]; GREATEST_ORDER];

/// A vector of up to eight places.
pub(crate) type Start = [i64; GREATEST_ORDER];

/// The entries of a matrix of two places.
#[derive(Clone, Copy)]
pub(crate) struct Entries {
    /// The first one on the diagonal.
    pub(crate) first: NarrowInteger,
    /// The one above the diagonal.
    pub(crate) upper: NarrowInteger,
    /// The one below the diagonal.
    pub(crate) lower: NarrowInteger,
    /// The last one on the diagonal.
    pub(crate) last: NarrowInteger,
}

impl Entries {
    /// This entry on the diagonal, and 0 beside it.
    fn diagonal(entry: NarrowInteger) -> Entries
        ensures { rows_of result ≡ diagonal entry }
    {
        let zero = NarrowInteger::from(0i64);
        Entries {
            first: entry,
            upper: zero,
            lower: zero,
            last: entry,
        }
    }

    /// The entries with the other sign.
    pub(crate) fn negation(&self) -> Entries
        requires small { HasSmallEntries self.now }
        ensures rows { rows_of result ≡ negated_rows (rows_of self.now) }
        ensures small { HasSmallEntries result }
    {
        Entries {
            first: negation(self.first),
            upper: negation(self.upper),
            lower: negation(self.lower),
            last: negation(self.last),
        }
    }
}

/// The row with these two places.
pub(crate) fn row_of_two(first: NarrowInteger, second: NarrowInteger) -> MatrixRow
    ensures { result ≡ row_of (first ∷ second ∷ []) }
{
    let mut row = [0; GREATEST_ORDER];
    row[0] = first.get();
    row[1] = second.get();
    row
}

/// The row with this first place and 0 elsewhere.
pub(crate) fn row_of_one(first: NarrowInteger) -> MatrixRow
    ensures { result ≡ row_of (first ∷ []) }
{
    let mut row = [0; GREATEST_ORDER];
    row[0] = first.get();
    row
}

/// The matrix with this entry in its first place and 0 elsewhere.
pub(crate) fn matrix_of_one(entry: NarrowInteger) -> Matrix
    ensures { result ≡ matrix_with ((entry ∷ []) ∷ []) }
{
    let mut rows = [[0; GREATEST_ORDER]; GREATEST_ORDER];
    rows[0] = row_of_one(entry);
    rows
}

/// The matrix with these entries in its first two places and 0 elsewhere.
pub(crate) fn matrix_of_two(entries: &Entries) -> Matrix
    ensures { result ≡ matrix_with (rows_of entries.now) }
{
    let mut rows = [[0; GREATEST_ORDER]; GREATEST_ORDER];
    rows[0] = row_of_two(entries.first, entries.upper);
    rows[1] = row_of_two(entries.lower, entries.last);
    rows
}

/// No squares and no rest.
pub(crate) fn no_squares() -> Squares
    ensures { result ≡ squares_with (pos 1) [] [] [] }
{
    Squares {
        m: 1,
        count: 0,
        weights: [0; GREATEST_ORDER],
        rows: [[0; GREATEST_ORDER]; GREATEST_ORDER],
        rest: [[0; GREATEST_ORDER]; GREATEST_ORDER],
    }
}

/// The start 1, 0, .., 0.
pub(crate) fn unit_start() -> Start
    ensures { result ≡ row_of (pos 1 ∷ []) }
{
    let mut start = [0; GREATEST_ORDER];
    start[0] = 1;
    start
}

/// The start with these two places.
pub(crate) fn start_of(x: NarrowInteger, y: NarrowInteger) -> Start
    requires x { unsigned_abs x ≤ second_limit }
    requires y { unsigned_abs y ≤ second_limit }
    ensures { result ≡ row_of (x ∷ y ∷ []) }
{
    let mut start = [0; GREATEST_ORDER];
    start[0] = x.get() as i64;
    start[1] = y.get() as i64;
    start
}

/// The form of these entries.
pub(crate) fn form_of(entries: &Entries) -> Form
    ensures { result ≡ form_with (rows_of entries.now) }
{
    Form {
        d: 2,
        rows: matrix_of_two(entries),
    }
}

/// The rest of this number on the diagonal of two places, without squares.
pub(crate) fn diagonal_rest(entry: NarrowInteger) -> Squares
    ensures { result ≡ squares_with (pos 1) [] [] (diagonal entry) }
{
    Squares {
        rest: matrix_of_two(&Entries::diagonal(entry)),
        ..no_squares()
    }
}

/// The squares of the two places themselves, with this weight.
pub(crate) fn unit_squares(weight: NarrowInteger) -> Squares
    ensures { result
        ≡ squares_with (pos 1) (weight ∷ weight ∷ []) (diagonal (pos 1)) [] }
{
    Squares {
        count: 2,
        weights: row_of_two(weight, weight),
        rows: matrix_of_two(&Entries::diagonal(NarrowInteger::from(1i64))),
        ..no_squares()
    }
}
