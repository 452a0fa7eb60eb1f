// What a form loses in a step of a polynomial.
//
// Lyapunov's direct method for a linear recursion (Lyapunov 1892; for sampled systems Kalman and
// Bertram 1960): a form P falls along the trajectories where P - A^T P A is positive, with A the
// polynomial's companion matrix. Everything is multiplied by the square of the leading coefficient,
// so that with C = c_0 A the form that is lost is c_0^2 P - C^T P C, in whole numbers. A companion
// matrix has one full row, so an entry of C^T P C is a sum of at most four products.
#![tactic(auto, using(dsv_algebra::proofs::Casts::casts))]

ghost use Rattle.std.specs.Prelude.{◌≡◌, ◌<◌, ◌≤◌, ◌+◌, ◌-◌, ℕ};
ghost use Rattle.std.specs.Prelude.{length, pos};
ghost use Rattle.std.specs.Prelude.{slice_index_or, min, max};
ghost use Rattle.dsv_algebra.specs.Vectors.{vector_of, matrix_of};
ghost use Rattle.dsv_forms.specs.Poly.{greatest_order, most_coefficients};
ghost use Rattle.dsv_forms.specs.Sums.{sum_from, summand_where, product, image_sum, fall_sum};
ghost use Rattle.dsv_forms.specs.Sums.{or_too_wide, IsFallOrWide};

use crate::matrix::entry_or_zero;
use crate::sums::{negation, number_of, or_too_wide, sum_with_product};
use crate::{Form, GREATEST_ORDER};
use dsv_algebra::NarrowInteger;

/// A product of two coefficients and an entry.
#[derive(Clone, Copy)]
struct Term {
    a: NarrowInteger,
    b: NarrowInteger,
    entry: NarrowInteger,
}

/// The sum with a term more, where the test holds.
fn sum_where(holds: bool, sum: NarrowInteger, term: Term) -> Option<NarrowInteger>
    ensures { result ≡ sum_from sum (summand_where holds (product term.a term.b term.entry)) }
{
    if holds {
        sum_with_product(sum, term.a, term.b, term.entry)
    } else {
        Some(sum)
    }
}

/// The sum less an entry of C^T P C, where C is the companion matrix of the polynomial with these
/// coefficients and P the form: `None` where a number on the way passes 2^126. The place is one of
/// the form's.
pub fn sum_less_image(
    sum: NarrowInteger,
    c: &[i64],
    form: &Form,
    i: usize,
    j: usize,
) -> Option<NarrowInteger>
    requires some { i + 1 < length c.now }
    requires others { j + 1 < length c.now }
    requires few { length c.now ≤ most_coefficients }
    ensures { result
        ≡ image_sum (length c.now - 1) (vector_of c.now) (matrix_of form.now.rows) i j sum }
{
    let d = c.len() - 1;
    let (below, after) = (i + 1 < d, j + 1 < d);
    let lead = number_of(&c[0]);
    let (row, column) = (number_of(&c[i + 1]), number_of(&c[j + 1]));
    let p = &form.rows;
    let sum = sum_with_product(sum, negation(&c[i + 1]), column, entry_or_zero(p, 0, 0))?;
    let first_row = Term {
        a: row,
        b: lead,
        entry: entry_or_zero(p, 0, j + 1),
    };
    let sum = sum_where(after, sum, first_row)?;
    let first_column = Term {
        a: lead,
        b: column,
        entry: entry_or_zero(p, i + 1, 0),
    };
    let sum = sum_where(below, sum, first_column)?;
    let diagonal = Term {
        a: negation(&c[0]),
        b: lead,
        entry: entry_or_zero(p, i + 1, j + 1),
    };
    if below {
        sum_where(after, sum, diagonal)
    } else {
        Some(sum)
    }
}

/// The number that has the size of an entry of C^T P C and the other sign, where C is the companion
/// matrix of the polynomial with these coefficients and P the form: `None` where a number on the
/// way passes 2^126. The place is one of the form's.
pub fn negative_image_entry(c: &[i64], form: &Form, i: usize, j: usize) -> Option<NarrowInteger>
    requires some { i + 1 < length c.now }
    requires others { j + 1 < length c.now }
    requires few { length c.now ≤ most_coefficients }
    ensures { result
        ≡ image_sum (length c.now - 1) (vector_of c.now) (matrix_of form.now.rows) i j (pos 0) }
{
    sum_less_image(NarrowInteger::from(0i64), c, form, i, j)
}

/// An entry of what the form loses in a step, where no number on the way is too wide.
fn fall_entry(c: &[i64], form: &Form, i: usize, j: usize) -> Option<NarrowInteger>
    requires some { i + 1 < length c.now }
    requires others { j + 1 < length c.now }
    requires few { length c.now ≤ most_coefficients }
    ensures { result
        ≡ fall_sum (length c.now - 1) (vector_of c.now) (matrix_of form.now.rows) i j }
{
    let lead = number_of(&c[0]);
    let zero = NarrowInteger::from(0i64);
    let sum = sum_with_product(zero, lead, lead, entry_or_zero(&form.rows, i, j))?;
    sum_less_image(sum, c, form, i, j)
}

/// An entry of what the form loses in a step, or a number that is too wide where one on the way is.
fn entry_or_too_wide(c: &[i64], form: &Form, i: usize, j: usize) -> i128
    requires some { i + 1 < length c.now }
    requires others { j + 1 < length c.now }
    requires few { length c.now ≤ most_coefficients }
    ensures { result ≡ or_too_wide
        (fall_sum (length c.now - 1) (vector_of c.now) (matrix_of form.now.rows) i j) }
{
    or_too_wide(fall_entry(c, form, i, j))
}

/// A row of what the form loses in a step.
fn fall_row(c: &[i64], form: &Form, i: usize) -> [i128; GREATEST_ORDER]
    requires some { i + 1 < length c.now }
    requires few { length c.now ≤ most_coefficients }
    ensures length { length result ≡ greatest_order }
    ensures entries { (j : ℕ) → j + 1 < length c.now → slice_index_or result j (pos 0)
        ≡ or_too_wide (fall_sum (length c.now - 1) (vector_of c.now)
        (matrix_of form.now.rows) (min i j) (max i j)) }
    ensures after { (j : ℕ) → length c.now ≤ j + 1 → slice_index_or result j (pos 0) ≡ pos 0 }
{
    let mut row = [0; GREATEST_ORDER];
    for j in 0..c.len() - 1 {
        row[j] = entry_or_too_wide(c, form, i.min(j), i.max(j));
    }
    row
}

/// What the form loses in a step of the polynomial with these coefficients, of which there are one
/// to nine. It has as many places as the polynomial's order, and is 0 elsewhere. An entry with a
/// number on the way that passes 2^126 is given as 2^126.
pub fn fall_form(c: &[i64], form: &Form) -> Form
    requires some { 0 < length c.now }
    requires few { length c.now ≤ most_coefficients }
    ensures places { result.d + 1 ≡ length c.now }
    ensures fall { IsFallOrWide (length c.now - 1) (vector_of c.now) form.now result }
{
    let d = c.len() - 1;
    let mut rows = [[0; GREATEST_ORDER]; GREATEST_ORDER];
    for i in 0..d {
        rows[i] = fall_row(c, form, i);
    }
    Form { d: d as u32, rows }
}
