// The tables of sections in series.
ghost use Rattle.std.specs.Prelude.{◌≡◌, Ok, Err, IfOk, IfErr};
ghost use Rattle.dsv_tested.specs.Tested.{tested_of};
ghost use Rattle.dsv_tested.specs.declared.side.Side.TheVariants.{Denominator};
ghost use Rattle.dsv_tested.specs.declared.side.Tested.TheVariants as tested;
ghost use Rattle.dsv_poly_table.specs.Sections.{AreTabled};

use crate::table::poly_finding;
use dsv_base::{Items, NoMemory};
use dsv_delta::PolyWide;
use dsv_forms::Poly;
use dsv_quantiser::Quantised;
use dsv_table::TableFinding;
use dsv_tested::{Side, Tested, polynomial_of};
use std::alloc::Global;

/// What tables say of the poles of sections in series, the first of which whose table isn't inside
/// is named. Sections count from 0.
#[derive(Drop)]
pub enum SectionTables {
    /// The tables of all sections are inside, section 0's first.
    Inside(Items<TableFinding>),
    /// This section's table isn't.
    NotInside { section: usize, found: TableFinding },
    /// A number on the way to this section's polynomial is too wide, at this index.
    Wide { section: usize, index: u32 },
}

/// The polynomial whose roots are a section's poles.
fn section_poly(section: &Quantised) -> Result<Poly, PolyWide>
    ensures poles { IfOk result (λ poly.
        tested_of section.now Denominator ≡ Ok (tested.Poly poly)) }
    ensures wide { IfErr result (λ wide. tested_of section.now Denominator ≡ Err wide) }
{
    match polynomial_of(section, Side::Denominator)? {
        Tested::Poly(poly) => Ok(poly),
        Tested::NoZeros => unreachable!(),
    }
}

/// What the tables of the polynomials say whose roots are the poles of these sections. They are
/// judged in their order, up to the first that isn't inside. It fails only for want of memory.
pub fn section_tables(sections: &[Quantised], alloc: Global) -> Result<SectionTables, NoMemory>
    ensures { IfOk result (AreTabled sections.now) }
{
    let mut findings = Items::new(alloc);
    for section in 0..sections.len() {
        let poly = match section_poly(&sections[section]) {
            Ok(poly) => poly,
            Err(PolyWide { index }) => return Ok(SectionTables::Wide { section, index }),
        };
        let found = poly_finding(&poly, alloc)?;
        if !found.verdict.is_inside() {
            return Ok(SectionTables::NotInside { section, found });
        }
        findings.push(found)?;
    }
    Ok(SectionTables::Inside(findings))
}
