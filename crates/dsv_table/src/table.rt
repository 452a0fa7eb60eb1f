// Jury's table of a polynomial, in exact numbers.
//
// The numbers of a row are the cross differences of the row before it. From row 3 on they are
// divided by the first number of the row before last, which makes them minors of the Schur-Cohn
// form, so that their sizes grow by as much in each row and don't double. That this leaves no rest
// isn't proved, so a row of which a number has no quotient stays as it is: a positive factor of a
// row doesn't change the verdict.

ghost use Rattle.std.specs.Prelude.{◌≡◌, ◌+◌, ◌-◌, ◌<◌, ◌<ℤ◌, length, pos, IfOk, IfSome};
ghost use Rattle.dsv_algebra.specs.Vectors.{vector_of};
ghost use Rattle.dsv_table.specs.Table.{row_after, verdict_of};
ghost use Rattle.dsv_table.specs.Rows.{AreDifferences, AreQuotients, AreShorter};

use crate::verdict::TableVerdict;
use dsv_base::NoMemory;
use dsv_integer::Integer;
use std::alloc::Global;

/// A number of the row after one with the numbers 0 to d.
fn cross_difference(row: &[Integer], i: usize, alloc: Global) -> Result<Integer, NoMemory>
    requires { i + 1 < length row.now }
    ensures { IfOk result (λ x. x ≡ row_after (length row.now - 1) (vector_of row.now) i) }
{
    let d = row.len() - 1;
    let first = row[0].times(&row[i], alloc)?;
    let last = row[d].times(&row[d - i], alloc)?;
    first.minus(&last, alloc)
}

/// The cross differences of a row.
fn cross_differences(row: &[Integer], alloc: Global) -> Result<Vec<Integer>, NoMemory>
    requires { 0 < length row.now }
    ensures { IfOk result (λ next. AreDifferences row.now next.items) }
{
    let count = row.len() - 1;
    let mut next = Vec::with_capacity(alloc, count)?;
    for i in 0..count {
        next.push(cross_difference(row, i, alloc)?)?;
    }
    Ok(next)
}

/// The quotients of the numbers, if each has one.
fn quotients(
    numbers: &[Integer],
    divisor: &Integer,
    alloc: Global,
) -> Result<Option<Vec<Integer>>, NoMemory>
    ensures { IfOk result (λ found. IfSome found (λ list.
        AreQuotients numbers.now divisor.now list.items)) }
{
    let mut list = Vec::with_capacity(alloc, numbers.len())?;
    for number in numbers {
        let Some(quotient) = number.quotient(divisor, alloc)? else {
            return Ok(None);
        };
        list.push(quotient)?;
    }
    Ok(Some(list))
}

/// The numbers divided by a positive number, or as they are if that leaves a rest.
fn shortened_row(
    numbers: Vec<Integer>,
    divisor: &Integer,
    alloc: Global,
) -> Result<Vec<Integer>, NoMemory>
    requires { pos 0 <ℤ divisor.now }
    ensures { IfOk result (λ list. AreShorter numbers.items list.items) }
{
    match quotients(numbers.as_slice(), divisor, alloc)? {
        Some(list) => Ok(list),
        None => Ok(numbers),
    }
}

/// What the table of the polynomial with these coefficients says. It fails only for want of memory.
pub fn verdict_of(coefficients: &[Integer], alloc: Global) -> Result<TableVerdict, NoMemory>
    ensures exact { IfOk result (λ v. v ≡ verdict_of coefficients.now) }
{
    if coefficients.is_empty() {
        return Ok(TableVerdict::Inside);
    }
    let mut divisor = Integer::from_i128(&1, alloc)?;
    let mut row = cross_differences(coefficients, alloc)?;
    for number in 1..coefficients.len() {
        if !row[0].is_positive() {
            return Ok(TableVerdict::NotInside { row: number });
        }
        let differences = cross_differences(row.as_slice(), alloc)?;
        let next = shortened_row(differences, &divisor, alloc)?;
        divisor = row.swap_remove(0);
        row = next;
    }
    Ok(TableVerdict::Inside)
}
