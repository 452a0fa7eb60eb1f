// The Schur-Cohn form.
#![tactic(auto, using(dsv_algebra::proofs::Casts::casts))]

ghost use Rattle.std.specs.Prelude.{◌≡◌, ℕ, ◌+◌, ◌-◌, ◌*◌, ◌^◌, ◌<◌, ◌≤◌, length, ◌+ℤ◌, ◌-ℤ◌, ◌*ℤ◌};
ghost use Rattle.std.specs.Int.RustNames.{unsigned_abs};
ghost use Rattle.dsv_algebra.specs.Vectors.{vector_of, matrix_of};
ghost use Rattle.dsv_forms.specs.Padded.{row_of};
ghost use Rattle.dsv_forms.specs.Poly.{IsPoly, greatest_coefficient};
ghost use Rattle.dsv_sums.specs.Elimination.{entries_of};
ghost use Rattle.dsv_schur_cohn.specs.Offer.{schur_cohn_form};
ghost use Rattle.dsv_table.specs.SchurCohn.{difference, schur_cohn, lost_row};

use dsv_algebra::NarrowInteger;
use dsv_forms::{Form, GREATEST_ORDER, Poly};

/// The entries of a row, filled up with 0.
pub(crate) type Row = [i128; GREATEST_ORDER];

/// The entries of a matrix, filled up with 0.
pub(crate) type Rows = [Row; GREATEST_ORDER];

/// A product of two coefficients.
fn product(a: &i64, b: &i64) -> NarrowInteger
    requires first { unsigned_abs a.now ≤ greatest_coefficient }
    requires second { unsigned_abs b.now ≤ greatest_coefficient }
    ensures value { result ≡ a.now *ℤ b.now }
    ensures small { unsigned_abs result ≤ 2 ^ 88 }
{
    NarrowInteger::from(i128::from(*a) * i128::from(*b))
}

/// The difference of two numbers that are small.
fn small_difference(a: NarrowInteger, b: NarrowInteger) -> NarrowInteger
    requires first { unsigned_abs a ≤ 2 ^ 88 }
    requires second { unsigned_abs b ≤ 2 ^ 88 }
    ensures value { result ≡ a -ℤ b }
    ensures small { unsigned_abs result ≤ 2 ^ 89 }
{
    NarrowInteger::from(a.get() - b.get())
}

/// The sum of two numbers that are small.
fn sum(a: NarrowInteger, b: NarrowInteger) -> NarrowInteger
    requires first { unsigned_abs a ≤ 2 ^ 93 }
    requires second { unsigned_abs b ≤ 2 ^ 93 }
    ensures { result ≡ a +ℤ b }
{
    NarrowInteger::from(a.get() + b.get())
}

/// What an entry of the form has beside the one before it on its diagonal.
fn difference(c: &[i64], i: usize, j: usize) -> NarrowInteger
    requires poly { IsPoly c.now }
    requires row { i < length c.now }
    requires column { j < length c.now }
    ensures value { result ≡ difference (length c.now - 1) (vector_of c.now) i j }
    ensures small { unsigned_abs result ≤ 2 ^ 89 }
{
    let d = c.len() - 1;
    small_difference(product(&c[i], &c[j]), product(&c[d - i], &c[d - j]))
}

/// An entry of the row that the form loses the square of in a step.
fn lost_entry(c: &[i64], j: usize) -> NarrowInteger
    requires poly { IsPoly c.now }
    requires column { j + 1 < length c.now }
    ensures { result ≡ lost_row (length c.now - 1) (vector_of c.now) j }
{
    let d = c.len() - 1;
    small_difference(product(&c[d], &c[j + 1]), product(&c[0], &c[d - (j + 1)]))
}

/// An entry of the form.
fn entry(c: &[i64], i: usize, j: usize) -> NarrowInteger
    requires poly { IsPoly c.now }
    requires row { i < length c.now }
    requires column { j < length c.now }
    ensures value { result ≡ schur_cohn (length c.now - 1) (vector_of c.now) i j }
    ensures small { unsigned_abs result ≤ 2 ^ 89 * (i + 1) }
{
    let own = difference(c, i, j);
    if i == 0 || j == 0 {
        return own;
    }
    sum(entry(c, i - 1, j - 1), own)
}

/// A row of the form.
fn form_row(c: &[i64], i: usize) -> Row
    requires poly { IsPoly c.now }
    requires row { i < length c.now }
    ensures { let d = length c.now - 1 in
        result ≡ row_of (entries_of d (schur_cohn d (vector_of c.now) i)) }
{
    let mut row = [0; GREATEST_ORDER];
    for j in 0..c.len() - 1 {
        row[j] = entry(c, i, j).get();
    }
    row
}

/// The row that the form loses the square of in a step.
pub(crate) fn lost_row(c: &[i64]) -> Row
    requires { IsPoly c.now }
    ensures { let d = length c.now - 1 in
        result ≡ row_of (entries_of d (lost_row d (vector_of c.now))) }
{
    let mut row = [0; GREATEST_ORDER];
    for j in 0..c.len() - 1 {
        row[j] = lost_entry(c, j).get();
    }
    row
}

/// The Schur-Cohn form of the polynomial.
pub fn schur_cohn_form(poly: &Poly) -> Form
    ensures same { result ≡ schur_cohn_form poly.now }
    ensures small { (i j : ℕ) → unsigned_abs (matrix_of result.rows i j) ≤ 2 ^ 92 }
    ensures places { result.d + 1 ≡ length poly.now }
{
    let c = poly.coefficients();
    let d = poly.order();
    let mut rows = [[0; GREATEST_ORDER]; GREATEST_ORDER];
    for i in 0..d {
        rows[i] = form_row(c, i);
    }
    Form { d: d as u32, rows }
}
