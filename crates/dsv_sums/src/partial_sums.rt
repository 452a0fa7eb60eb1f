// The next form: 2^20 on the diagonal, and what the form is after a step, rounded down.
//
// The partial sums of the series that solves Lyapunov's equation of a discrete system: with A the
// companion matrix of the polynomial and B = 2^20 on the diagonal, P_0 = B and P_(t+1) = B + A^T
// P_t A, so that P_t is the sum of (A^k)^T B A^k for k up to t. Where all roots are inside the unit
// circle the series comes near the one form that loses B in each step (Lyapunov 1892; Stein 1952);
// P_t itself loses B less the summand that comes next. Entries are rounded down at each step, which
// is no matter: what a form shows is checked exactly afterwards.
#![tactic(auto, using(dsv_algebra::proofs::Casts::casts))]

ghost use Rattle.std.specs.Prelude.{◌≡◌, ◌+◌, ◌-◌, ◌<◌, ◌≤◌, length, true, false};
ghost use Rattle.std.specs.Prelude.{MatchOption, pos, neg_ℤ, ◌*ℤ◌, ◌<ℤ◌};
ghost use Rattle.std.specs.Int.{int_div_euclid};
ghost use Rattle.dsv_algebra.specs.Narrow.{is_narrow};
ghost use Rattle.dsv_algebra.specs.Vectors.{vector_of, matrix_of};
ghost use Rattle.dsv_forms.specs.Padded.{row_of, form_with};
ghost use Rattle.dsv_forms.specs.Poly.{IsPoly, greatest_order};
ghost use Rattle.dsv_sums.specs.Elimination.{entries_of, rows_of};
ghost use Rattle.dsv_sums.specs.Partial.{small_of, small_entry, is_row_too_great};
ghost use Rattle.dsv_sums.specs.SumForms.{base_entry, next_entry, next_form};

use crate::quotient::rounded_quotient;
use dsv_algebra::NarrowInteger;
use dsv_forms::{Form, GREATEST_ORDER, Poly, negative_image_entry};

/// The entries on the diagonal of the first form, which each step adds.
const BASE: i64 = 1 << 20;

/// The least size that an entry of a form may not have.
const ENTRY_LIMIT: u128 = 1 << 60;

/// An entry of the first form.
fn base_entry(i: usize, j: usize) -> NarrowInteger
    ensures { result ≡ base_entry i j }
{
    if i == j {
        NarrowInteger::from(BASE)
    } else {
        NarrowInteger::from(0i64)
    }
}

/// A row of the first form.
fn first_row(d: usize, i: usize) -> [i128; GREATEST_ORDER]
    requires { d ≤ greatest_order }
    ensures { result ≡ row_of (entries_of d (base_entry i)) }
{
    let mut row = [0; GREATEST_ORDER];
    for j in 0..d {
        row[j] = base_entry(i, j).get();
    }
    row
}

/// The form with which the steps begin.
pub(crate) fn first_form(poly: &Poly) -> Form
    ensures { result ≡ form_with (rows_of (length poly.now - 1) base_entry) }
{
    let d = poly.order();
    let mut rows = [[0; GREATEST_ORDER]; GREATEST_ORDER];
    for i in 0..d {
        rows[i] = first_row(d, i);
    }
    Form { d: d as u32, rows }
}

/// The number, where it doesn't pass 2^60.
fn small_number(number: NarrowInteger) -> Option<NarrowInteger>
    ensures { result ≡ small_of number }
{
    if number.get().unsigned_abs() < ENTRY_LIMIT {
        Some(number)
    } else {
        None
    }
}

/// The number with the other sign.
fn negation(number: NarrowInteger) -> NarrowInteger
    requires { is_narrow number ≡ true }
    ensures { result ≡ neg_ℤ number }
{
    NarrowInteger::from(-number.get())
}

/// The square of a coefficient.
fn square(c: &i64) -> NarrowInteger
    ensures { result ≡ c.now *ℤ c.now }
{
    NarrowInteger::from(i128::from(*c) * i128::from(*c))
}

/// The number with the other sign, divided by the square of c and rounded down.
fn scaled_image(negative: NarrowInteger, c: &i64) -> NarrowInteger
    requires narrow { is_narrow negative ≡ true }
    requires lead { pos 0 <ℤ c.now }
    ensures { result ≡ int_div_euclid (neg_ℤ negative) (c.now *ℤ c.now) }
{
    rounded_quotient(negation(negative), square(c))
}

/// An entry of the next form, where it isn't too great.
fn next_entry(c: &[i64], form: &Form, i: usize, j: usize) -> Option<NarrowInteger>
    requires poly { IsPoly c.now }
    requires row { i + 1 < length c.now }
    requires column { j + 1 < length c.now }
    ensures { result
        ≡ small_entry (length c.now - 1) (vector_of c.now) (matrix_of form.now.rows) i j }
{
    let negative = negative_image_entry(c, form, i, j)?;
    let image = scaled_image(negative, &c[0]);
    let entry = base_entry(i, j).checked_add(image)?;
    small_number(entry)
}

/// A row of the next form, where no entry of it is too great.
fn next_row(c: &[i64], form: &Form, i: usize) -> Option<[i128; GREATEST_ORDER]>
    requires poly { IsPoly c.now }
    requires row { i + 1 < length c.now }
    ensures { let d = length c.now - 1 in
        let k = vector_of c.now in
        let P = matrix_of form.now.rows in
        MatchOption result (is_row_too_great d k P i ≡ true)
        (λ row. (row ≡ row_of (entries_of d (next_entry d k P i)))
        × (is_row_too_great d k P i ≡ false)) }
{
    let mut row = [0; GREATEST_ORDER];
    for j in 0..c.len() - 1 {
        row[j] = next_entry(c, form, i, j)?.get();
    }
    Some(row)
}

/// The form after this one, where no entry of it is too great.
pub(crate) fn next_form(poly: &Poly, form: &Form) -> Option<Form>
    ensures { result ≡ next_form poly.now form.now }
{
    let c = poly.coefficients();
    let d = c.len() - 1;
    let mut rows = [[0; GREATEST_ORDER]; GREATEST_ORDER];
    for i in 0..d {
        rows[i] = next_row(c, form, i)?;
    }
    Some(Form { d: d as u32, rows })
}
