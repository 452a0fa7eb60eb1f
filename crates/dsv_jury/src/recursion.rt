// Jury's recursion, row by row.
//
// The criterion of Schur and Cohn as Jury's table computes it (Jury 1964): a polynomial has all
// roots inside the unit circle exactly where its first coefficient is greater in size than its
// last, and the polynomial r_0 r_i - r_n r_(n-i), whose order is one less, has all roots inside
// too. Rows are whole numbers; the common factor of a row is taken out, since without that the
// numbers would double their length with each row. This is a second verdict beside the forms: it
// gives no certificate.
#![tactic(auto, using(dsv_algebra::proofs::Casts::casts))]

ghost use Rattle.std.specs.Prelude.{◌≡◌, ◌<◌, ◌≤◌, ◌-◌, length, true};
ghost use Rattle.std.specs.Prelude.{false, pos, MatchOption, ◌-ℤ◌, ◌*ℤ◌};
ghost use Rattle.std.specs.Int.RustNames.{unsigned_abs, int_div};
ghost use Rattle.dsv_algebra.specs.Vectors.{vector_of};
ghost use Rattle.dsv_forms.specs.Poly.{IsPoly, most_coefficients};
ghost use Rattle.dsv_jury.specs.Jury.{last_leads, cross_differences, row_after};
ghost use Rattle.dsv_jury.specs.Jury.{is_wide_entry, is_wide, jury_of};

use crate::factor::common_factor;
use crate::verdict::Jury;
use arrayvec::ArrayVec;
use dsv_forms::{MOST_COEFFICIENTS, Poly};

/// The least size that an entry of a row may not have.
const ROW_LIMIT: u128 = 1 << 62;

/// The numbers of a row, the leading one first.
type JuryRow = ArrayVec<i64, MOST_COEFFICIENTS>;

/// Whether the last number of a row is at least as great in size as the first.
fn last_leads(row: &[i64]) -> bool
    requires { 0 < length row.now }
    ensures { result ≡ last_leads (length row.now - 1) (vector_of row.now) }
{
    row[0].unsigned_abs() <= row[row.len() - 1].unsigned_abs()
}

/// The difference of the products `a * b` and `c * d`.
fn difference_of_products(a: &i64, b: &i64, c: &i64, d: &i64) -> i128
    ensures { result ≡ a.now *ℤ b.now -ℤ c.now *ℤ d.now }
{
    i128::from(*a) * i128::from(*b) - i128::from(*c) * i128::from(*d)
}

/// The cross differences of a row: the next row before its common factor is taken out.
fn cross_differences(row: &[i64]) -> ArrayVec<i128, MOST_COEFFICIENTS>
    requires some { 0 < length row.now }
    requires few { length row.now ≤ most_coefficients }
    ensures { result.items ≡ cross_differences (length row.now - 1) row.now }
{
    let last = row.len() - 1;
    let mut differences = ArrayVec::new();
    for i in 0..last {
        differences.push(difference_of_products(&row[0], &row[i], &row[last], &row[last - i]));
    }
    differences
}

/// The number divided by the factor, where it doesn't pass 2^62.
fn narrow_quotient(number: &i128, factor: u128) -> Option<i64>
    requires { 0 < factor }
    ensures { let meant = int_div number.now (pos factor) in
        MatchOption result (is_wide_entry meant ≡ true) (λ found. (found ≡ meant)
        × (is_wide_entry meant ≡ false)) }
{
    let size = number.unsigned_abs() / factor;
    if size >= ROW_LIMIT {
        return None;
    }
    let size = size as i64;
    if *number < 0 { Some(-size) } else { Some(size) }
}

/// The next row, where no entry of it passes 2^62.
fn row_after(row: &[i64]) -> Option<JuryRow>
    requires some { 0 < length row.now }
    requires few { length row.now ≤ most_coefficients }
    requires apart { last_leads (length row.now - 1) (vector_of row.now) ≡ false }
    ensures { let meant = row_after (length row.now - 1) row.now in
        MatchOption result (is_wide meant ≡ true) (λ found. (found.items ≡ meant)
        × (is_wide meant ≡ false)) }
{
    let differences = cross_differences(row);
    let factor = common_factor(differences.as_slice());
    let mut next = JuryRow::new();
    for number in differences.as_slice() {
        next.push(narrow_quotient(number, factor)?);
    }
    Some(next)
}

/// The polynomial's coefficients as row 0.
fn first_row(poly: &Poly) -> JuryRow
    ensures same { result.items ≡ poly.now }
    ensures poly { IsPoly result.items }
{
    let mut row = JuryRow::new();
    for coefficient in poly.coefficients() {
        row.push(*coefficient);
    }
    row
}

/// Jury's verdict on a polynomial of any order, by rows of exact numbers, each less than 2^62 in
/// size, whose common factors are taken out. It takes no memory.
pub fn jury(poly: &Poly) -> Jury
    ensures exact { result ≡ jury_of poly.now }
{
    let mut row = first_row(poly);
    let mut number = 0;
    while row.len() > 1 {
        if last_leads(row.as_slice()) {
            return Jury::NotInside { row: number };
        }
        number += 1;
        match row_after(row.as_slice()) {
            Some(next) => row = next,
            None => return Jury::Wide { row: number },
        }
    }
    Jury::Inside
}
