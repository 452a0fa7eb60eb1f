// Polynomials of systems, a_0 z^m + .. + a_m, as lists of whole numbers from a_0 on.
ghost use Rattle.std.specs.Prelude.{◌≡◌, ◌-◌, ◌*ℤ◌, ◌<◌, ◌<ℤ◌, ℕ, length, IfOk, true, pos};
ghost use Rattle.dsv_algebra.specs.Vectors.{sum_to, vector_of, matrix_of};
ghost use Rattle.dsv_table.specs.Systems.{divided};
ghost use Rattle.dsv_table.specs.Table.{verdict_from};
ghost use Rattle.dsv_system_table.specs.Polynomials.{IsDividedFinding};
ghost use Rattle.dsv_system_table.specs.Rows.{AreEntries, IsNoneIn, power_products};

use crate::rows::{reversal_of, row_product};
use dsv_base::{Items, NoMemory};
use dsv_integer::Integer;
use dsv_table::{TableFinding, TableVerdict, finding_of, verdict_of};
use std::alloc::Global;

/// The numbers, each times one more power of `q` than the one before it.
#[tactic(auto, using(crate::proofs::Lists::entries_next))]
fn power_products_of(row: &[Integer], q: &Integer, alloc: Global) -> Result<Vec<Integer>, NoMemory>
    ensures { IfOk result (λ list.
        AreEntries (length row.now) (power_products q.now row.now) list.items) }
{
    let mut list = Vec::with_capacity(alloc, row.len())?;
    let mut power = Integer::from_i128(&1, alloc)?;
    for i in 0..row.len() {
        list.push(row[i].times(&power, alloc)?)?;
        power = q.times(&power, alloc)?;
    }
    Ok(list)
}

/// The coefficients of the polynomial for steps that are divided by `q`.
#[tactic(auto, using(crate::proofs::Polynomials::divided_entries))]
fn divided_row(row: &[Integer], q: &Integer, alloc: Global) -> Result<Vec<Integer>, NoMemory>
    ensures { IfOk result (λ list. AreEntries (length row.now)
        (divided (length row.now - 1) q.now (vector_of row.now)) list.items) }
{
    let last_first = reversal_of(row, alloc)?;
    let products = power_products_of(last_first.as_slice(), q, alloc)?;
    reversal_of(products.as_slice(), alloc)
}

/// What the table of the polynomial for steps that are divided by `q` says.
#[tactic(auto, using(crate::proofs::Polynomials::divided_table))]
pub(crate) fn divided_verdict(
    coefficients: &[Integer],
    q: &Integer,
    alloc: Global,
) -> Result<TableVerdict, NoMemory>
    requires { 0 < length coefficients.now }
    ensures { IfOk result (λ v. let m = length coefficients.now - 1 in
        v ≡ verdict_from m 0 (divided m q.now (vector_of coefficients.now))) }
{
    let divided = divided_row(coefficients, q, alloc)?;
    verdict_of(divided.as_slice(), alloc)
}

/// What is found by the table of the polynomial for steps that are divided by `q`.
pub(crate) fn divided_finding(
    coefficients: &[Integer],
    q: &Integer,
    alloc: Global,
) -> Result<TableFinding, NoMemory>
    requires some { 0 < length coefficients.now }
    requires lead { pos 0 <ℤ vector_of coefficients.now 0 }
    requires scale { pos 0 <ℤ q.now }
    ensures { IfOk result (IsDividedFinding q.now coefficients.now) }
{
    let divided = divided_row(coefficients, q, alloc)?;
    let found = finding_of(divided.as_slice(), alloc)?;
    Ok(found)
}

/// Whether each number is 0.
fn is_none_in(list: &[Integer]) -> bool
    ensures { result ≡ true → IsNoneIn list.now }
{
    for number in list {
        if !number.is_zero() {
            return false;
        }
    }
    true
}

/// Whether the output whose rows for so many times these are obeys the polynomial.
pub(crate) fn is_obeyed(
    coefficients: &[Integer],
    powers: &[Items<Integer>],
    width: usize,
    alloc: Global,
) -> Result<bool, NoMemory>
    requires { 0 < length coefficients.now }
    ensures { IfOk result (λ b. b ≡ true → (l : ℕ) → l < width
        → sum_to (length coefficients.now) (λ k. vector_of coefficients.now k
        *ℤ matrix_of powers.now (length coefficients.now - 1 - k) l) ≡ pos 0) }
{
    let last_first = reversal_of(coefficients, alloc)?;
    let sums = row_product(
        last_first.as_slice(),
        powers,
        coefficients.len(),
        width,
        alloc,
    )?;
    Ok(is_none_in(sums.as_slice()))
}
