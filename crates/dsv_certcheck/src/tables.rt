// The check of a polynomial's table, which is made of the coefficients in a certificate.
ghost use Rattle.std.specs.Prelude.{◌≡◌, ◌-◌, ◌≤◌, length, OnOk};
ghost use Rattle.dsv_algebra.specs.Vectors.{vector_of};
ghost use Rattle.dsv_table.specs.Table.{verdict_of};
ghost use Rattle.dsv_table.specs.Verdicts.{HasFallingForm};
ghost use Rattle.dsv_table.specs.declared.verdict.TableVerdict.TheVariants.{Inside};
ghost use Rattle.dsv_certcheck.specs.Checks.{Finds, coefficients_check, table_check};
ghost use Rattle.dsv_certfile.specs.Limits.{most_coefficients};

use crate::check_refusal::CheckRefusal;
use crate::line_numbers::{body_line, kind_line};
use dsv_certfile::{CertWords, CheckFault, MOST_COEFFICIENTS};
use dsv_forms::Poly;
use dsv_integer::{Integer, Numeral};
use dsv_poly_table::integers_of;
use dsv_table::{TableVerdict, verdict_of};
use std::alloc::Global;

/// Checks that these are the polynomial's coefficients, the first of which stands in this line.
fn check_coefficients(line: u64, numbers: &[Numeral], poly: &[Integer]) -> Result<(), CheckRefusal>
    requires low { line ≤ 5 }
    requires few { length numbers.now ≤ most_coefficients }
    requires many { length poly.now ≡ length numbers.now }
    ensures { result ≡ coefficients_check line numbers.now poly.now }
{
    for i in 0..numbers.len() {
        if !numbers[i].number().equals(&poly[i]) {
            return Err(CheckRefusal::Line {
                line: line + i as u64,
                fault: CheckFault::Table,
            });
        }
    }
    Ok(())
}

/// Checks that these are the polynomial's coefficients, and that its table has positive first
/// numbers alone.
pub(crate) fn check_table(
    alloc: Global,
    words: CertWords,
    poly: &[Integer],
    coefficients: &[Numeral],
) -> Result<(), CheckRefusal>
    ensures found { Finds result (table_check words poly.now coefficients.now) }
    ensures shows { OnOk result (verdict_of poly.now ≡ Inside) }
{
    if coefficients.len() != poly.len() || coefficients.len() > MOST_COEFFICIENTS as usize {
        return Err(CheckRefusal::misfit(words));
    }
    check_coefficients(body_line(words), coefficients, poly)?;
    match verdict_of(poly, alloc)? {
        TableVerdict::Inside => Ok(()),
        TableVerdict::NotInside { .. } => Err(CheckRefusal::Line {
            line: kind_line(words),
            fault: CheckFault::Table,
        }),
    }
}

/// The same of a polynomial in words.
pub(crate) fn check_poly_table(
    alloc: Global,
    words: CertWords,
    poly: &Poly,
    coefficients: &[Numeral],
) -> Result<(), CheckRefusal>
    ensures found { Finds result (table_check words poly.now coefficients.now) }
    ensures shows { OnOk result (HasFallingForm (length poly.now - 1) (vector_of poly.now)) }
{
    let _coefficients = poly.coefficients(); // its lead is positive, for the proof
    let numbers = integers_of(poly, alloc)?;
    check_table(alloc, words, numbers.as_slice(), coefficients)
}
