// Both sides of the loop in whole numbers.
#![tactic(auto, using(dsv_algebra::proofs::Casts::casts))]

ghost use Rattle.std.specs.Prelude.{◌≡◌, ◌<◌, ◌≤◌, ◌/◌, ◌*ℤ◌, ◌<ℤ◌, pos, [], ◌∷◌, ◌++◌};
ghost use Rattle.std.specs.Prelude.{All, IfOk, length};
ghost use Rattle.std.specs.Int.{◌∣◌};
ghost use Rattle.std.specs.Int.RustNames.{unsigned_abs};
ghost use Rattle.dsv_delta.specs.Deltas.{common_from, common, numerators};
ghost use Rattle.dsv_quantiser.specs.QuantisedView.{IsQuantisedView};
ghost use Rattle.dsv_reader.specs.Plants.{IsPlant};
ghost use Rattle.dsv_loop.specs.Loops.{in_z, section_transfer, in_series, controller_transfer};
ghost use Rattle.dsv_loop.specs.Loops.{plant_transfer};

use crate::expansion::{delta_expansion, number_of};
use crate::products::product;
use crate::quotients::{common_multiple, exact_quotient};
use dsv_base::{Items, NoMemory};
use dsv_fraction::Frac;
use dsv_integer::Integer;
use dsv_quantiser::Quantised;
use dsv_reader::Plant;
use std::alloc::Global;
use std::marker::Model;

/// A transfer function with whole coefficients of 1, z^-1, ..
#[derive(Drop)]
pub(crate) struct Transfer {
    b: Items<Integer>,
    a: Items<Integer>,
}

impl Model for Transfer {
    ghost use Rattle.dsv_loop.specs.Loops.{TransferView};

    ghost Value = { TransferView };

    ghost view = { λ f. record { b = f.b; a = f.a } };
}

impl Transfer {
    ghost use Rattle.std.specs.Prelude.{◌≡◌};

    /// The coefficients of the numerator.
    pub(crate) fn b(&self) -> &[Integer]
        ensures { result.now ≡ self.now.b }
    {
        self.b.as_slice()
    }

    /// The coefficients of the denominator.
    pub(crate) fn a(&self) -> &[Integer]
        ensures { result.now ≡ self.now.a }
    {
        self.a.as_slice()
    }
}

/// The words as numbers.
fn numbers_of(words: &[i64], alloc: Global) -> Result<Items<Integer>, NoMemory>
    ensures { IfOk result (λ found. found ≡ words.now) }
{
    let mut numbers = Items::new(alloc);
    for word in words {
        numbers.push(number_of(word, alloc)?)?;
    }
    Ok(numbers)
}

/// The coefficients in z of some of a section's words.
fn in_z(section: &Quantised, words: &[i64], alloc: Global) -> Result<Items<Integer>, NoMemory>
    requires { 1 ≤ length words.now }
    ensures { IfOk result (λ found. found ≡ in_z section.now words.now) }
{
    if section.realisation().is_delta() {
        delta_expansion(words, section.delta(), section.format().frac_bits, alloc)
    } else {
        numbers_of(words, alloc)
    }
}

/// A section's transfer function.
fn section_transfer(section: &Quantised, alloc: Global) -> Result<Transfer, NoMemory>
    ensures value { IfOk result (λ f. f ≡ section_transfer section.now) }
    ensures quantised { IsQuantisedView section.now }
{
    let b = in_z(section, section.b(), alloc)?;
    let a = in_z(section, section.a(), alloc)?;
    Ok(Transfer { b, a })
}

/// Two transfer functions in series.
fn in_series(f: &Transfer, g: &Transfer, alloc: Global) -> Result<Transfer, NoMemory>
    ensures { IfOk result (λ h. h ≡ in_series f.now g.now) }
{
    let b = product(f.b(), g.b(), alloc)?;
    let a = product(f.a(), g.a(), alloc)?;
    Ok(Transfer { b, a })
}

/// The list of the number 1.
fn list_of_one(alloc: Global) -> Result<Items<Integer>, NoMemory>
    ensures { IfOk result (λ list. list ≡ pos 1 ∷ []) }
{
    let mut list = Items::new(alloc);
    list.push(Integer::from_i128(&1, alloc)?)?;
    Ok(list)
}

/// The transfer function of sections in series.
pub(crate) fn controller_transfer(
    sections: &[Quantised],
    alloc: Global,
) -> Result<Transfer, NoMemory>
    ensures value { IfOk result (λ f. f ≡ controller_transfer sections.now) }
    ensures quantised { IfOk result (λ f. All IsQuantisedView sections.now) }
{
    let mut transfer = Transfer {
        b: list_of_one(alloc)?,
        a: list_of_one(alloc)?,
    };
    let count = sections.len();
    for turn in 0..count {
        let section = section_transfer(&sections[count - 1 - turn], alloc)?;
        transfer = in_series(&section, &transfer, alloc)?;
    }
    Ok(transfer)
}

/// The denominator of a fraction.
fn denominator(fraction: &Frac, alloc: Global) -> Result<Integer, NoMemory>
    ensures value { IfOk result (λ d. d ≡ pos fraction.now.den) }
    ensures positive { 0 < fraction.now.den }
{
    let (_, den) = fraction.to_parts();
    Integer::from_i128(&den, alloc)
}

/// The least common multiple of a number and the denominators.
fn common_from(first: Integer, fractions: &[Frac], alloc: Global) -> Result<Integer, NoMemory>
    requires { pos 0 <ℤ first }
    ensures value { IfOk result (λ l. l ≡ pos (common_from (unsigned_abs first) fractions.now)) }
    ensures positive { IfOk result (λ l. pos 0 <ℤ l) }
{
    let mut common = first;
    for fraction in fractions {
        common = common_multiple(&common, &denominator(fraction, alloc)?, alloc)?;
    }
    Ok(common)
}

/// The least common multiple of the denominators of a plant's coefficients.
fn plant_denominator(plant: &Plant, alloc: Global) -> Result<Integer, NoMemory>
    ensures value { IfOk result (λ l. l ≡ pos (common (plant.now.b ++ plant.now.a))) }
    ensures positive { IfOk result (λ l. pos 0 <ℤ l) }
    ensures plant { IfOk result (λ l. IsPlant plant.now) }
{
    let first = common_from(Integer::from_i128(&1, alloc)?, plant.b(), alloc)?;
    common_from(first, plant.a(), alloc)
}

/// The numerator of a fraction over a multiple of its denominator.
fn numerator(common: &Integer, fraction: &Frac, alloc: Global) -> Result<Integer, NoMemory>
    requires positive { pos 0 <ℤ common.now }
    requires divides { fraction.now.den ∣ unsigned_abs common.now }
    ensures { IfOk result (λ x. x
        ≡ fraction.now.num *ℤ pos (unsigned_abs common.now / fraction.now.den)) }
{
    let factor = exact_quotient(common, &denominator(fraction, alloc)?, alloc)?;
    Integer::from_i128(&fraction.num(), alloc)?.times(&factor, alloc)
}

/// The numerators of fractions over a multiple of their denominators.
fn numerators(
    common: &Integer,
    fractions: &[Frac],
    alloc: Global,
) -> Result<Items<Integer>, NoMemory>
    requires positive { pos 0 <ℤ common.now }
    requires divides { All (λ q. q.den ∣ unsigned_abs common.now) fractions.now }
    ensures { IfOk result (λ found. found ≡ numerators (unsigned_abs common.now) fractions.now) }
{
    let mut numerators = Items::new(alloc);
    for fraction in fractions {
        numerators.push(numerator(common, fraction, alloc)?)?;
    }
    Ok(numerators)
}

/// The plant's coefficients times the least common multiple of their denominators.
pub(crate) fn plant_transfer(plant: &Plant, alloc: Global) -> Result<Transfer, NoMemory>
    ensures value { IfOk result (λ f. f ≡ plant_transfer plant.now) }
    ensures positive { IfOk result (λ f. 0 < common (plant.now.b ++ plant.now.a)) }
    ensures plant { IfOk result (λ f. IsPlant plant.now) }
{
    let common = plant_denominator(plant, alloc)?;
    let b = numerators(&common, plant.b(), alloc)?;
    let a = numerators(&common, plant.a(), alloc)?;
    Ok(Transfer { b, a })
}
