// What is found of a system.
ghost use Rattle.std.specs.Prelude.{◌≡◌, ◌-◌, ◌<◌, ◌≤◌, ◌<ℤ◌, ℕ, length, IfOk, IfSome, true, pos};
ghost use Rattle.std.specs.Prelude.{int_lt};
ghost use Rattle.dsv_algebra.specs.Vectors.{vector_of, matrix_of};
ghost use Rattle.dsv_system_table.specs.Outputs.{unit, IsObeyed, IsRightInverse};
ghost use Rattle.dsv_system_table.specs.Polynomials.{IsAnnihilator};
ghost use Rattle.dsv_system_table.specs.Rows.{IsOnlyAt};
ghost use Rattle.dsv_system_table.specs.SystemFindings.{SystemIsKeptAway, IsSystemFinding};

use crate::coefficients::characteristic;
use crate::elimination::{Witness, witness_of};
use crate::polynomial::{divided_finding, divided_verdict, is_obeyed};
use crate::rows::{place_powers, row_product};
use dsv_base::{Items, NoMemory};
use dsv_integer::Integer;
use dsv_table::TableFinding;
use std::alloc::Global;

/// Whether the first coefficient is positive.
fn is_lead_positive(coefficients: &[Integer]) -> bool
    ensures { result ≡ int_lt (pos 0) (vector_of coefficients.now 0) }
{
    if coefficients.is_empty() {
        return false;
    }
    coefficients[0].is_positive()
}

/// Whether a place of the system obeys the polynomial with these coefficients.
fn is_obeyed_at(
    coefficients: &[Integer],
    rows: &[Items<Integer>],
    place: usize,
    alloc: Global,
) -> Result<bool, NoMemory>
    requires { 0 < length coefficients.now }
    ensures { IfOk result (λ b. b ≡ true → IsObeyed (length rows.now)
        (length coefficients.now - 1) (matrix_of rows.now) (unit place)
        (vector_of coefficients.now)) }
{
    let powers = place_powers(place, rows, coefficients.len(), alloc)?;
    let obeyed = is_obeyed(coefficients, powers.as_slice(), rows.len(), alloc)?;
    Ok(obeyed)
}

/// Whether the polynomial with these coefficients annihilates the matrix.
fn is_annihilated(
    coefficients: &[Integer],
    rows: &[Items<Integer>],
    alloc: Global,
) -> Result<bool, NoMemory>
    requires { 0 < length coefficients.now }
    ensures { IfOk result (λ b. b ≡ true → (i : ℕ) → i < length rows.now
        → IsObeyed (length rows.now) (length coefficients.now - 1) (matrix_of rows.now) (unit i)
        (vector_of coefficients.now)) }
{
    for place in 0..rows.len() {
        if !is_obeyed_at(coefficients, rows, place, alloc)? {
            return Ok(false);
        }
    }
    Ok(true)
}

/// Whether the polynomial with these coefficients has a positive lead, as many roots as the matrix
/// has places, and annihilates it.
fn is_annihilator(
    coefficients: &[Integer],
    rows: &[Items<Integer>],
    alloc: Global,
) -> Result<bool, NoMemory>
    ensures { IfOk result (λ b. b ≡ true
        → IsAnnihilator (length rows.now) (matrix_of rows.now) coefficients.now) }
{
    if coefficients.len() != rows.len() + 1 || !is_lead_positive(coefficients) {
        return Ok(false);
    }
    let annihilated = is_annihilated(coefficients, rows, alloc)?;
    Ok(annihilated)
}

/// Whether a list is a number at a place and 0 elsewhere.
fn is_only_at(list: &[Integer], place: usize, number: &Integer) -> bool
    ensures { result ≡ true → IsOnlyAt place number.now list.now }
{
    for (k, entry) in list.iter().enumerate() {
        if k == place && !entry.equals(number) {
            return false;
        }
        if k != place && !entry.is_zero() {
            return false;
        }
    }
    true
}

/// Whether the output of each start is the factor at its own time and 0 at the others.
fn is_right_inverse(
    powers: &[Items<Integer>],
    witness: &Witness,
    width: usize,
    order: usize,
    alloc: Global,
) -> Result<bool, NoMemory>
    requires { order ≤ length powers.now }
    ensures { IfOk result (λ b. b ≡ true → IsRightInverse width order (matrix_of powers.now)
        (matrix_of witness.now.starts.items) witness.now.factor) }
{
    for j in 0..order {
        let outputs = row_product(
            powers[j].as_slice(),
            witness.starts.as_slice(),
            width,
            order,
            alloc,
        )?;
        if !is_only_at(outputs.as_slice(), j, &witness.factor) {
            return Ok(false);
        }
    }
    Ok(true)
}

/// Whether a witness for a place shows that the system is kept away from 0.
fn is_kept_away(
    witness: &Witness,
    rows: &[Items<Integer>],
    q: &Integer,
    place: usize,
    alloc: Global,
) -> Result<bool, NoMemory>
    requires scale { pos 0 <ℤ q.now }
    ensures { IfOk result (λ b. b ≡ true
        → SystemIsKeptAway (length rows.now) q.now (matrix_of rows.now)) }
{
    let coefficients = witness.coefficients.as_slice();
    if coefficients.len() < 2 || !is_lead_positive(coefficients) || witness.factor.is_zero() {
        return Ok(false);
    }
    if divided_verdict(coefficients, q, alloc)?.is_inside() {
        return Ok(false);
    }
    let powers = place_powers(place, rows, coefficients.len(), alloc)?;
    if !is_obeyed(coefficients, powers.as_slice(), rows.len(), alloc)? {
        return Ok(false);
    }
    let order = coefficients.len() - 1;
    let shown = is_right_inverse(powers.as_slice(), witness, rows.len(), order, alloc)?;
    Ok(shown)
}

/// Whether the values of a place show that the system is kept away from 0.
fn is_kept_away_at(
    rows: &[Items<Integer>],
    q: &Integer,
    place: usize,
    alloc: Global,
) -> Result<bool, NoMemory>
    requires scale { pos 0 <ℤ q.now }
    ensures { IfOk result (λ b. b ≡ true
        → SystemIsKeptAway (length rows.now) q.now (matrix_of rows.now)) }
{
    let powers = place_powers(place, rows, rows.len().saturating_add(1), alloc)?;
    let Some(witness) = witness_of(powers.as_slice(), rows.len(), alloc)? else {
        return Ok(false);
    };
    is_kept_away(&witness, rows, q, place, alloc)
}

/// Whether the values of some place show that the system is kept away from 0.
fn is_kept_away_somewhere(
    rows: &[Items<Integer>],
    q: &Integer,
    alloc: Global,
) -> Result<bool, NoMemory>
    requires scale { pos 0 <ℤ q.now }
    ensures { IfOk result (λ b. b ≡ true
        → SystemIsKeptAway (length rows.now) q.now (matrix_of rows.now)) }
{
    for place in 0..rows.len() {
        if is_kept_away_at(rows, q, place, alloc)? {
            return Ok(true);
        }
    }
    Ok(false)
}

/// What is found of the system by the polynomial with these coefficients, if a form shows it.
fn finding_with(
    coefficients: &[Integer],
    rows: &[Items<Integer>],
    q: &Integer,
    alloc: Global,
) -> Result<Option<TableFinding>, NoMemory>
    requires order { 0 < length rows.now }
    requires scale { pos 0 <ℤ q.now }
    requires polynomial { IsAnnihilator (length rows.now) (matrix_of rows.now) coefficients.now }
    ensures { IfOk result (λ found. IfSome found
        (IsSystemFinding (length rows.now) q.now (matrix_of rows.now))) }
{
    let found = divided_finding(coefficients, q, alloc)?;
    if found.verdict.is_inside() {
        return Ok(Some(found));
    }
    if is_kept_away_somewhere(rows, q, alloc)? {
        return Ok(Some(found));
    }
    Ok(None)
}

/// What is found of the system that takes a vector v to M v divided by `q`, for the matrix M with
/// these rows, by the table of its characteristic polynomial. `None` if that polynomial isn't seen
/// to annihilate the matrix, or if a root isn't inside the unit circle and no place shows a start
/// that is kept away from 0; that neither ever comes is not proved. It fails only for want of
/// memory.
pub fn system_finding(
    rows: &[Items<Integer>],
    q: &Integer,
    alloc: Global,
) -> Result<Option<TableFinding>, NoMemory>
    requires order { 0 < length rows.now }
    requires scale { pos 0 <ℤ q.now }
    ensures { IfOk result (λ found. IfSome found
        (IsSystemFinding (length rows.now) q.now (matrix_of rows.now))) }
{
    let list = characteristic(rows, alloc)?;
    let coefficients = list.as_slice();
    if !is_annihilator(coefficients, rows, alloc)? {
        return Ok(None);
    }
    finding_with(coefficients, rows, q, alloc)
}
