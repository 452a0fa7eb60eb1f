// The table of a polynomial in words.
ghost use Rattle.std.specs.Prelude.{◌≡◌, ◌≤◌, length, IfOk};
ghost use Rattle.dsv_forms.specs.Poly.{most_coefficients};
ghost use Rattle.dsv_table.specs.Findings.{IsFinding};

use dsv_base::{Items, NoMemory};
use dsv_forms::Poly;
use dsv_integer::Integer;
use dsv_table::{TableFinding, finding_of};
use std::alloc::Global;

/// The coefficients as whole numbers of any size, the one of the highest power first. It fails only
/// for want of memory.
pub fn integers_of(poly: &Poly, alloc: Global) -> Result<Items<Integer>, NoMemory>
    ensures { IfOk result (λ list. list ≡ poly.now) }
{
    let mut list = Items::new(alloc);
    for coefficient in poly.coefficients() {
        list.push(Integer::from_i128(&i128::from(*coefficient), alloc)?)?;
    }
    Ok(list)
}

/// What is found of the polynomial by its table: the verdict, and the size of its greatest root. It
/// fails only for want of memory.
pub fn poly_finding(poly: &Poly, alloc: Global) -> Result<TableFinding, NoMemory>
    ensures finding { IfOk result (IsFinding poly.now) }
    ensures few { IfOk result (λ found. length found.poly ≤ most_coefficients) }
{
    let _words = poly.coefficients(); // what is true of them, for the proof
    let coefficients = integers_of(poly, alloc)?;
    finding_of(coefficients.as_slice(), alloc)
}
