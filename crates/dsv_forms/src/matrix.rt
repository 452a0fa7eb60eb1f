// Matrices of up to eight places.
ghost use Rattle.std.specs.Prelude.{◌≡◌, ◌<◌, ◌≤◌, pos, slice_index_or};
ghost use Rattle.std.specs.List.{list_all};
ghost use Rattle.std.specs.Ordering.{int_eq};
ghost use Rattle.dsv_algebra.specs.Vectors.{matrix_of};
ghost use Rattle.dsv_forms.specs.Poly.{greatest_order};
ghost use Rattle.dsv_forms.specs.Refusals.{places, is_symmetric};

use crate::{Form, GREATEST_ORDER};
use dsv_algebra::NarrowInteger;

/// The entries row by row.
pub(crate) type Matrix = [[i128; GREATEST_ORDER]; GREATEST_ORDER];

/// The entry in a row and a column.
pub(crate) fn entry(rows: &Matrix, i: usize, j: usize) -> NarrowInteger
    requires row { i < greatest_order }
    requires column { j < greatest_order }
    ensures { result ≡ matrix_of rows.now i j }
{
    NarrowInteger::from(rows[i][j])
}

/// The entry of a row, which is 0 after its end.
fn place_or_zero(row: &[i128; GREATEST_ORDER], j: usize) -> NarrowInteger
    ensures { result ≡ slice_index_or row.now j (pos 0) }
{
    if j < GREATEST_ORDER {
        NarrowInteger::from(row[j])
    } else {
        NarrowInteger::from(0i64)
    }
}

/// The entry in a row and a column, which is 0 outside the matrix.
pub(crate) fn entry_or_zero(rows: &Matrix, i: usize, j: usize) -> NarrowInteger
    ensures { result ≡ matrix_of rows.now i j }
{
    if i < GREATEST_ORDER {
        place_or_zero(&rows[i], j)
    } else {
        NarrowInteger::from(0i64)
    }
}

/// Whether the entry and its mirror image are the same.
fn is_mirrored(rows: &Matrix, i: usize, j: usize) -> bool
    requires row { i < greatest_order }
    requires column { j < greatest_order }
    ensures { result ≡ int_eq (matrix_of rows.now i j) (matrix_of rows.now j i) }
{
    rows[i][j] == rows[j][i]
}

/// Whether the entry is 0.
pub(crate) fn is_zero(rows: &Matrix, i: usize, j: usize) -> bool
    requires row { i < greatest_order }
    requires column { j < greatest_order }
    ensures { result ≡ int_eq (matrix_of rows.now i j) (pos 0) }
{
    rows[i][j] == 0
}

/// Whether a row and the column of its place have the same entries in the first d places.
fn is_like_its_column(rows: &Matrix, d: usize, i: usize) -> bool
    requires few { d ≤ greatest_order }
    requires place { i < d }
    ensures { result
        ≡ list_all (λ j. int_eq (matrix_of rows.now i j) (matrix_of rows.now j i)) (places d) }
{
    for j in 0..d {
        if !is_mirrored(rows, i, j) {
            return false;
        }
    }
    true
}

/// Whether the matrix is symmetric in its first d places.
pub(crate) fn is_symmetric(rows: &Matrix, d: usize) -> bool
    requires { d ≤ greatest_order }
    ensures { result ≡ is_symmetric d (matrix_of rows.now) }
{
    for i in 0..d {
        if !is_like_its_column(rows, d, i) {
            return false;
        }
    }
    true
}

impl Form {
    /// The entry in a row and a column, which are below `GREATEST_ORDER`.
    pub fn entry(&self, i: usize, j: usize) -> NarrowInteger
        requires row { i < greatest_order }
        requires column { j < greatest_order }
        ensures { result ≡ matrix_of self.now.rows i j }
    {
        entry(&self.rows, i, j)
    }

    /// Whether the form is symmetric in its first d places, of which there are at most
    /// `GREATEST_ORDER`.
    pub fn is_symmetric(&self) -> bool
        requires { self.now.d ≤ greatest_order }
        ensures { result ≡ is_symmetric self.now.d (matrix_of self.now.rows) }
    {
        is_symmetric(&self.rows, self.d as usize)
    }
}
