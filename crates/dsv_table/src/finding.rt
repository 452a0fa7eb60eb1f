// What is found of a polynomial by its table, as reports and certificates have it.
ghost use Rattle.std.specs.Prelude.{◌≡◌, ◌<◌, ◌<ℤ◌, length, IfOk, pos};
ghost use Rattle.dsv_algebra.specs.Vectors.{vector_of};
ghost use Rattle.dsv_table.specs.Findings.{IsFinding, AreBounds, IsRootOf};

use crate::roots::root_size;
use crate::table::verdict_of;
use crate::verdict::TableVerdict;
use dsv_base::{Items, NoMemory};
use dsv_integer::{Integer, Numeral};
use std::alloc::Global;

/// Between which numbers the size of the greatest root is: from `least` on and below `greatest`,
/// each a count of hundred-thousandths.
#[derive(Debug, Drop)]
pub struct RootBounds {
    pub least: Numeral,
    pub greatest: Numeral,
}

/// What is found of a polynomial by its table.
#[derive(Debug, Drop)]
pub struct TableFinding {
    /// The coefficients, the one of the highest power first.
    pub poly: Items<Numeral>,
    /// What the table says.
    pub verdict: TableVerdict,
    /// The size of the greatest root; a polynomial of order 0 has none.
    pub root: Option<RootBounds>,
}

/// The numbers with their texts.
fn numerals(numbers: &[Integer], alloc: Global) -> Result<Items<Numeral>, NoMemory>
    ensures { IfOk result (λ list. list ≡ numbers.now) }
{
    let mut list = Items::new(alloc);
    for number in numbers {
        list.push(Numeral::new(number.copy(alloc)?, alloc)?)?;
    }
    Ok(list)
}

/// The size of the greatest root of a polynomial that has one.
fn root_bounds(coefficients: &[Integer], alloc: Global) -> Result<RootBounds, NoMemory>
    requires order { 1 < length coefficients.now }
    requires lead { pos 0 <ℤ vector_of coefficients.now 0 }
    ensures { IfOk result (AreBounds coefficients.now) }
{
    let size = root_size(coefficients, alloc)?;
    Ok(RootBounds {
        least: Numeral::new(size.least_size().copy(alloc)?, alloc)?,
        greatest: Numeral::new(size.greatest_size().copy(alloc)?, alloc)?,
    })
}

/// The size of the greatest root, if there is a root.
fn root_of(coefficients: &[Integer], alloc: Global) -> Result<Option<RootBounds>, NoMemory>
    requires some { 0 < length coefficients.now }
    requires lead { pos 0 <ℤ vector_of coefficients.now 0 }
    ensures { IfOk result (IsRootOf coefficients.now) }
{
    if coefficients.len() < 2 {
        return Ok(None);
    }
    Ok(Some(root_bounds(coefficients, alloc)?))
}

/// What is found of the polynomial with these coefficients by its table. It fails only for want of
/// memory.
pub fn finding_of(coefficients: &[Integer], alloc: Global) -> Result<TableFinding, NoMemory>
    requires some { 0 < length coefficients.now }
    requires lead { pos 0 <ℤ vector_of coefficients.now 0 }
    ensures { IfOk result (IsFinding coefficients.now) }
{
    let verdict = verdict_of(coefficients, alloc)?;
    let root = root_of(coefficients, alloc)?;
    Ok(TableFinding {
        poly: numerals(coefficients, alloc)?,
        verdict,
        root,
    })
}
