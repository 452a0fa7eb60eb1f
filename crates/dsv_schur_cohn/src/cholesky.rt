// Squares of rows for a form, by Cholesky's factorisation in whole numbers.
//
// The form is multiplied by the power of two that brings its greatest entry to 125 bits. At each
// place in turn the row has at its own place the root of what is left on the diagonal there, less a
// margin, and after it what is left beside the diagonal divided by that root, to the nearest number
// (Benoit 1924, after Cholesky); its square is taken away. What remains beside the diagonal is at
// most half of the root, and the margin covers the sizes of all that remains in a row, so that the
// rest is dominant: its diagonal outweighs what stands beside it (Gershgorin 1931). A root has half
// the bits of what it is taken from, so a form passes whose pivots are as small as some 2^-60 of
// its greatest entry. Nothing is claimed of these squares: their check decides.
ghost use Rattle.std.specs.Prelude.{◌<◌, ◌≤◌};
ghost use Rattle.dsv_forms.specs.Poly.{greatest_order};

use crate::form::{Row, Rows};
use crate::width::greatest_width;
use dsv_forms::{Form, GREATEST_ORDER, Squares};

/// How many bits the greatest entry of what is written as squares takes.
const WIDTH: u32 = 125;

/// The power of two times the form that is written as squares, all of it as the rest.
fn without_squares(form: &Form) -> Option<Squares> {
    let m = 1 << WIDTH.checked_sub(greatest_width(form))?;
    let mut rest = [[0; GREATEST_ORDER]; GREATEST_ORDER];
    for i in 0..GREATEST_ORDER {
        for j in 0..GREATEST_ORDER {
            rest[i][j] = form.rows[i][j].checked_mul(m)?;
        }
    }
    Some(Squares {
        m,
        count: 0,
        weights: [0; GREATEST_ORDER],
        rows: [[0; GREATEST_ORDER]; GREATEST_ORDER],
        rest,
    })
}

/// The sizes of what is left above the diagonal at place k.
fn sizes_above(rest: &Rows, k: usize) -> Option<i128>
    requires { k < greatest_order }
{
    let mut sum: i128 = 0;
    for i in 0..k {
        sum = sum.checked_add(rest[i][k].wrapping_abs())?;
    }
    Some(sum)
}

/// The root at place k, where what is left on the diagonal there is more than its margin.
fn root_at(rest: &Rows, d: usize, k: usize) -> Option<i128>
    requires few { d ≤ greatest_order }
    requires place { k < d }
{
    let left = rest[k][k];
    if left <= 0 {
        return None;
    }
    let beside = (left.isqrt() / 2 + 1).checked_mul((d - 1 - k) as i128)?;
    let margin = beside.checked_add(sizes_above(rest, k)?)?;
    let square = left.checked_sub(margin)?;
    if square <= 0 {
        return None;
    }
    Some(square.isqrt())
}

/// The row at place k with this root, where it is positive.
fn row_at(rest: &Rows, d: usize, k: usize, root: i128) -> Option<Row>
    requires few { d ≤ greatest_order }
    requires place { k < d }
{
    if root <= 0 {
        return None;
    }
    let mut row = [0; GREATEST_ORDER];
    row[k] = root;
    for j in k + 1..d {
        row[j] = rest[k][j].checked_add(root / 2)?.div_euclid(root);
    }
    Some(row)
}

/// What is left without the square of the row at place k.
fn rest_without(rest: &Rows, d: usize, k: usize, row: &Row) -> Option<Rows>
    requires { d ≤ greatest_order }
{
    let mut next = *rest;
    for i in k..d {
        for j in k..d {
            next[i][j] = rest[i][j].checked_sub(row[i].checked_mul(row[j])?)?;
        }
    }
    Some(next)
}

/// The squares with the one at place k.
fn with_square(squares: &Squares, d: usize, k: usize) -> Option<Squares>
    requires few { d ≤ greatest_order }
    requires place { k < d }
{
    let root = root_at(&squares.rest, d, k)?;
    let row = row_at(&squares.rest, d, k, root)?;
    let mut next = *squares;
    next.rest = rest_without(&squares.rest, d, k, &row)?;
    next.count = k as u32 + 1;
    next.weights[k] = 1;
    next.rows[k] = row;
    Some(next)
}

/// Squares for the form, where it is positive by more than the rounding.
pub(crate) fn squares_of(form: &Form) -> Option<Squares>
    requires { form.now.d ≤ greatest_order }
{
    let mut squares = without_squares(form)?;
    let d = form.d as usize;
    for k in 0..d {
        squares = with_square(&squares, d, k)?;
    }
    Some(squares)
}
