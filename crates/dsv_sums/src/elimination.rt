// Squares for a form by rounded elimination, place by place.
//
// Rounded elimination, as in the factorisation of a symmetric matrix into L D L^T (Cholesky without
// square roots): at place k the weight is what is left on the diagonal, and the row what is left
// beside it, divided by the weight; their square is taken from the form, and the next place
// follows. All numbers are whole, so 2^40 times the form is written, a row has 2^20 at its own
// place, and quotients are rounded down. Each weight leaves a margin on the diagonal, so that what
// remains at the end, the rest, is dominant: its diagonal outweighs what stands beside it in each
// row (Gershgorin 1931).
#![tactic(auto, using(dsv_algebra::proofs::Casts::casts))]

ghost use Rattle.std.specs.Prelude.{◌≡◌, ◌+◌, ◌<◌, ◌≤◌, ◌^◌, true, false, []};
ghost use Rattle.std.specs.Prelude.{MatchOption, Some, pos, int_lt, ◌*ℤ◌, ◌-ℤ◌, ◌<ℤ◌};
ghost use Rattle.std.specs.Int.RustNames.{unsigned_abs};
ghost use Rattle.dsv_algebra.specs.Narrow.{is_narrow};
ghost use Rattle.dsv_algebra.specs.Vectors.{matrix_of};
ghost use Rattle.dsv_forms.specs.Padded.{row_of, squares_with};
ghost use Rattle.dsv_forms.specs.Poly.{greatest_order};
ghost use Rattle.dsv_forms.specs.Refusals.{is_symmetric};
ghost use Rattle.dsv_sums.specs.Elimination.{multiple, row_scale, greater_of};
ghost use Rattle.dsv_sums.specs.Elimination.{greatest_diagonal, margin, left_after, weight, row};
ghost use Rattle.dsv_sums.specs.Elimination.{entries_of, squares_of, elimination};
ghost use Rattle.dsv_sums.specs.Partial.{first_squares, AreRefused};

use crate::quotient::rounded_quotient;
use dsv_algebra::NarrowInteger;
use dsv_forms::{Form, GREATEST_ORDER, Squares, sum_of_squares};

/// The multiple of the form that is written as squares.
const MULTIPLE: i128 = 1 << 40;

/// The entry of each row at its own place.
const ROW_SCALE: i128 = 1 << 20;

/// The share of the greatest diagonal entry that each weight leaves.
const MARGIN_SHARE: i128 = 1 << 16;

/// The greater of two numbers.
fn greater_of(a: NarrowInteger, b: NarrowInteger) -> NarrowInteger
    ensures { result ≡ greater_of a b }
{
    if a.get() < b.get() { b } else { a }
}

/// The form's entry in a row and a column.
fn entry(form: &Form, i: usize, j: usize) -> NarrowInteger
    requires row { i < greatest_order }
    requires column { j < greatest_order }
    ensures { result ≡ matrix_of form.now.rows i j }
{
    NarrowInteger::from(form.rows[i][j])
}

/// The greatest entry on the diagonal.
fn greatest_diagonal(form: &Form) -> NarrowInteger
    requires some { 0 < form.now.d }
    requires few { form.now.d ≤ greatest_order }
    ensures { result ≡ greatest_diagonal form.now.d (matrix_of form.now.rows) }
{
    let mut greatest = entry(form, 0, 0);
    for i in 1..form.d as usize {
        greatest = greater_of(greatest, entry(form, i, i));
    }
    greatest
}

/// What each weight leaves, so that the rest is dominant.
fn margin(form: &Form) -> NarrowInteger
    requires some { 0 < form.now.d }
    requires few { form.now.d ≤ greatest_order }
    ensures same { result ≡ margin form.now.d (matrix_of form.now.rows) }
    ensures small { unsigned_abs result ≤ 2 ^ 112 }
{
    let share = rounded_quotient(greatest_diagonal(form), NarrowInteger::from(MARGIN_SHARE));
    NarrowInteger::from(share.get() + 1)
}

/// The difference of two numbers that don't pass 2^126.
fn difference(a: NarrowInteger, b: NarrowInteger) -> NarrowInteger
    requires first { is_narrow a ≡ true }
    requires second { is_narrow b ≡ true }
    ensures { result ≡ a -ℤ b }
{
    NarrowInteger::from(a.get() - b.get())
}

/// What is left of m times the form, at a place in its upper half, without the squares at the first
/// k places.
fn left_entry(form: &Form, squares: &Squares, k: usize, i: usize, j: usize) -> Option<NarrowInteger>
    requires places { form.now.d ≤ greatest_order }
    requires squares { squares.now ≡ first_squares form.now.d (matrix_of form.now.rows) k }
    requires few { k ≤ form.now.d }
    requires row { i ≤ j }
    requires column { j < form.now.d }
    ensures { let T = matrix_of form.now.rows in
        MatchOption result (AreRefused form.now.d T)
        (λ left. left ≡ left_after (margin form.now.d T) T k i j) }
{
    let whole = NarrowInteger::from(MULTIPLE).checked_mul(entry(form, i, j))?;
    let sum = sum_of_squares(squares, k, i, j)?;
    Some(difference(whole, sum))
}

/// The difference, where it is positive.
fn positive_difference(a: NarrowInteger, b: NarrowInteger) -> Option<NarrowInteger>
    requires first { unsigned_abs a ≤ 2 ^ 111 }
    requires second { unsigned_abs b ≤ 2 ^ 112 }
    ensures { MatchOption result (int_lt (pos 0) (a -ℤ b) ≡ false)
        (λ x. (x ≡ a -ℤ b) × (int_lt (pos 0) x ≡ true)) }
{
    let difference = a.get() - b.get();
    if 0 < difference {
        Some(NarrowInteger::from(difference))
    } else {
        None
    }
}

/// The weight of the square at place k, where it is positive.
fn weight_at(form: &Form, squares: &Squares, k: usize) -> Option<NarrowInteger>
    requires places { form.now.d ≤ greatest_order }
    requires squares { squares.now ≡ first_squares form.now.d (matrix_of form.now.rows) k }
    requires place { k < form.now.d }
    ensures { let T = matrix_of form.now.rows in
        MatchOption result (AreRefused form.now.d T)
        (λ w. (w ≡ weight (margin form.now.d T) T k) × (int_lt (pos 0) w ≡ true)) }
{
    let left = left_entry(form, squares, k, k, k)?;
    let share = rounded_quotient(left, NarrowInteger::from(MULTIPLE));
    positive_difference(share, margin(form))
}

/// An entry of the row at place k, where this times its weight is `divisor`.
fn row_entry(
    form: &Form,
    squares: &Squares,
    k: usize,
    divisor: NarrowInteger,
    j: usize,
) -> Option<NarrowInteger>
    requires places { form.now.d ≤ greatest_order }
    requires squares { squares.now ≡ first_squares form.now.d (matrix_of form.now.rows) k }
    requires place { k < form.now.d }
    requires divisor { let T = matrix_of form.now.rows in
        divisor ≡ row_scale *ℤ weight (margin form.now.d T) T k }
    requires positive { pos 0 <ℤ divisor }
    requires column { j < form.now.d }
    ensures { let T = matrix_of form.now.rows in
        MatchOption result (AreRefused form.now.d T)
        (λ x. x ≡ row (margin form.now.d T) T k j) }
{
    if j < k {
        return Some(NarrowInteger::from(0i64));
    }
    if j == k {
        return Some(NarrowInteger::from(ROW_SCALE));
    }
    let left = left_entry(form, squares, k, k, j)?;
    Some(rounded_quotient(left, divisor))
}

/// The row at place k, whose weight this is.
fn row_at(
    form: &Form,
    squares: &Squares,
    k: usize,
    its_weight: NarrowInteger,
) -> Option<[i128; GREATEST_ORDER]>
    requires places { form.now.d ≤ greatest_order }
    requires squares { squares.now ≡ first_squares form.now.d (matrix_of form.now.rows) k }
    requires place { k < form.now.d }
    requires weight { let T = matrix_of form.now.rows in
        its_weight ≡ weight (margin form.now.d T) T k }
    requires positive { int_lt (pos 0) its_weight ≡ true }
    ensures { let T = matrix_of form.now.rows in
        MatchOption result (AreRefused form.now.d T)
        (λ x. x ≡ row_of (entries_of form.now.d (row (margin form.now.d T) T k))) }
{
    let divisor = NarrowInteger::from(ROW_SCALE).checked_mul(its_weight)?;
    let mut row = [0; GREATEST_ORDER];
    for j in 0..form.d as usize {
        row[j] = row_entry(form, squares, k, divisor, j)?.get();
    }
    Some(row)
}

/// The squares with the one at place k.
fn with_square(form: &Form, squares: &Squares, k: usize) -> Option<Squares>
    requires places { form.now.d ≤ greatest_order }
    requires squares { squares.now ≡ first_squares form.now.d (matrix_of form.now.rows) k }
    requires place { k < form.now.d }
    ensures { let T = matrix_of form.now.rows in
        MatchOption result (AreRefused form.now.d T)
        (λ s. (s ≡ first_squares form.now.d T (k + 1))
        × (int_lt (pos 0) (weight (margin form.now.d T) T k) ≡ true)) }
{
    let weight = weight_at(form, squares, k)?;
    let row = row_at(form, squares, k, weight)?;
    let mut next = *squares;
    next.count = k as u32 + 1;
    next.weights[k] = weight.get();
    next.rows[k] = row;
    Some(next)
}

/// A row of what the squares leave.
fn rest_row(form: &Form, squares: &Squares, i: usize) -> Option<[i128; GREATEST_ORDER]>
    requires places { form.now.d ≤ greatest_order }
    requires squares { squares.now
        ≡ first_squares form.now.d (matrix_of form.now.rows) form.now.d }
    requires symmetric { is_symmetric form.now.d (matrix_of form.now.rows) ≡ true }
    requires row { i < form.now.d }
    ensures { let T = matrix_of form.now.rows in
        MatchOption result (AreRefused form.now.d T)
        (λ x. x ≡ row_of (entries_of form.now.d
        (left_after (margin form.now.d T) T form.now.d i))) }
{
    let d = form.d as usize;
    let mut row = [0; GREATEST_ORDER];
    for j in 0..d {
        row[j] = left_entry(form, squares, d, i.min(j), i.max(j))?.get();
    }
    Some(row)
}

/// The squares with what they leave.
fn with_rest(form: &Form, squares: &Squares) -> Option<Squares>
    requires places { form.now.d ≤ greatest_order }
    requires squares { squares.now
        ≡ first_squares form.now.d (matrix_of form.now.rows) form.now.d }
    requires symmetric { is_symmetric form.now.d (matrix_of form.now.rows) ≡ true }
    ensures { let T = matrix_of form.now.rows in
        MatchOption result (AreRefused form.now.d T) (λ s. s ≡ squares_of form.now.d T) }
{
    let mut rest = [[0; GREATEST_ORDER]; GREATEST_ORDER];
    for i in 0..form.d as usize {
        rest[i] = rest_row(form, squares, i)?;
    }
    Some(Squares { rest, ..*squares })
}

/// The squares at no place.
fn no_squares() -> Squares
    ensures { result ≡ squares_with multiple [] [] [] }
{
    Squares {
        m: MULTIPLE,
        count: 0,
        weights: [0; GREATEST_ORDER],
        rows: [[0; GREATEST_ORDER]; GREATEST_ORDER],
        rest: [[0; GREATEST_ORDER]; GREATEST_ORDER],
    }
}

/// The squares that rounded elimination gives for a symmetric form. Where it has none, or squares
/// with numbers that are too wide for their check, there are none.
pub fn squares_of(form: &Form) -> Option<Squares>
    requires places { form.now.d ≤ greatest_order }
    requires symmetric { is_symmetric form.now.d (matrix_of form.now.rows) ≡ true }
    ensures { let T = matrix_of form.now.rows in
        MatchOption result (AreRefused form.now.d T)
        (λ s. elimination form.now.d T ≡ Some s) }
{
    let mut squares = no_squares();
    for k in 0..form.d as usize {
        squares = with_square(form, &squares, k)?;
    }
    with_rest(form, &squares)
}
