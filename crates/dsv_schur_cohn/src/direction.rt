// Starts at which a form may be negative.
//
// The places of a form are taken away one by one, each by the square that completes it (Lagrange
// 1759), until what is left is negative at a place: the vector that has 1 there, and at each place
// before it what makes its square 0, is a direction in which the form is negative. Where a place
// has 0 on the diagonal and anything beside it, two places are enough. All numbers are whole and
// rounded; nothing is claimed of the starts, which the check of the offer tries.
ghost use Rattle.std.specs.Prelude.{◌≡◌, ℕ, ◌<◌, ◌≤◌, true, false, MatchOption, pos, int_lt};
ghost use Rattle.dsv_algebra.specs.Vectors.{matrix_of};
ghost use Rattle.dsv_forms.specs.Poly.{greatest_order};

use crate::form::{Row, Rows};
use crate::width::scaled_form;
use dsv_forms::{Form, GREATEST_ORDER};

/// How many bits the greatest entry of the form takes while its places are taken away.
const WIDTH: u32 = 61;

/// The entry of the direction at the place where it ends.
const UNIT: i128 = 1 << 40;

/// Whether the matrix is negative at a place.
fn is_negative(rows: &Rows, i: usize) -> bool
    requires { i < greatest_order }
    ensures { result ≡ int_lt (matrix_of rows.now i i) (pos 0) }
{
    rows[i][i] < 0
}

/// The first place from k on, of d places, at which the matrix is negative.
pub(crate) fn negative_place(rows: &Rows, d: usize, k: usize) -> Option<usize>
    requires { d ≤ greatest_order }
    ensures { MatchOption result
        ((i : ℕ) → k ≤ i → i < d → int_lt (matrix_of rows.now i i) (pos 0) ≡ false)
        (λ i. (i < d) × (int_lt (matrix_of rows.now i i) (pos 0) ≡ true)) }
{
    for i in k..d {
        if is_negative(rows, i) {
            return Some(i);
        }
    }
    None
}

/// A direction in which what is left is negative, over the places k, where it has 0 on the
/// diagonal, and a later one.
fn direction_of_two(left: &Rows, d: usize, k: usize) -> Option<Row>
    requires few { d ≤ greatest_order }
    requires place { k < d }
{
    let mut direction = [0; GREATEST_ORDER];
    for j in k + 1..d {
        let beside = left[k][j];
        if beside != 0 {
            let whole = left[j][j].checked_mul(UNIT)?;
            let most = whole.checked_div(beside.wrapping_abs())?.checked_add(UNIT)?;
            direction[j] = UNIT;
            direction[k] = if beside < 0 {
                most
            } else {
                0i128.checked_sub(most)?
            };
            return Some(direction);
        }
    }
    None
}

/// The entry of the direction at place k that makes its square 0.
fn completing_entry(left: &Rows, d: usize, k: usize, direction: &Row) -> Option<i128>
    requires few { d ≤ greatest_order }
    requires place { k < d }
{
    let mut sum: i128 = 0;
    for j in k + 1..d {
        sum = sum.checked_sub(left[k][j].checked_mul(direction[j])?)?;
    }
    sum.checked_div(left[k][k])
}

/// The direction with the entries at the places before k.
fn completed_direction(left: &Rows, d: usize, k: usize, direction: Row) -> Option<Row>
    requires few { d ≤ greatest_order }
    requires place { k ≤ d }
{
    let mut direction = direction;
    for i in (0..k).rev() {
        direction[i] = completing_entry(left, d, i, &direction)?;
    }
    Some(direction)
}

/// What is left without the square that completes place k. The places up to k stay.
fn left_without(left: &Rows, d: usize, k: usize) -> Option<Rows>
    requires few { d ≤ greatest_order }
    requires place { k < d }
{
    let mut next = *left;
    for i in k + 1..d {
        for j in k + 1..d {
            let square = left[k][i].checked_mul(left[k][j])?;
            next[i][j] = left[i][j].checked_sub(square.checked_div(left[k][k])?)?;
        }
    }
    Some(next)
}

/// A direction in which what is left from place k on is negative, if one shows.
fn direction_at(left: &Rows, d: usize, k: usize) -> Option<Row>
    requires few { d ≤ greatest_order }
    requires place { k < d }
{
    if let Some(i) = negative_place(left, d, k) {
        let mut direction = [0; GREATEST_ORDER];
        direction[i] = UNIT;
        return completed_direction(left, d, k, direction);
    }
    if left[k][k] == 0 {
        return completed_direction(left, d, k, direction_of_two(left, d, k)?);
    }
    None
}

/// A direction in which the form is negative, if one is found.
pub(crate) fn negative_direction(form: &Form) -> Option<Row>
    requires { form.now.d ≤ greatest_order }
{
    let d = form.d as usize;
    let mut left = scaled_form(form, WIDTH)?.rows;
    for k in 0..d {
        if let Some(direction) = direction_at(&left, d, k) {
            return Some(direction);
        }
        left = left_without(&left, d, k)?;
    }
    None
}
