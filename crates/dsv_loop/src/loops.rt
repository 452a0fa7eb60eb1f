// The polynomial of a loop.
//
// With the controller A u = B e, the plant a y = b u and e = -y the loop is (A a + B b) y = 0. All
// is made whole, multiplied and added; the common factor and the sign of the lead don't move a root
// and are taken out.
#![tactic(auto, using(dsv_algebra::proofs::Casts::casts))]

ghost use Rattle.std.specs.Prelude.{◌≡◌, ◌<◌, ◌≤◌, ◌+◌, ◌*◌, ◌<ℤ◌};
ghost use Rattle.std.specs.Prelude.{length, map, neg_ℤ, not, pos, int_lt};
ghost use Rattle.std.specs.Prelude.{slice_index_or, IfOk};
ghost use Rattle.std.specs.List.{list_any, list_all};
ghost use Rattle.std.specs.Ordering.{int_eq};
ghost use Rattle.dsv_algebra.specs.Vectors.{vector_of};
ghost use Rattle.dsv_fraction.specs.Ratio.{zero};
ghost use Rattle.dsv_tested.specs.Lead.{lead_size};
ghost use Rattle.dsv_tested.specs.Tested.{with_positive_lead};
ghost use Rattle.dsv_loop.specs.Loops.{adds_up_inputs, is_accumulating, is_same_time};
ghost use Rattle.dsv_loop.specs.Loops.{answers_at_once, is_algebraic, loop_test};
ghost use Rattle.dsv_loop.specs.Loops.{without_common_factor, loop_coefficients};
ghost use Rattle.dsv_loop.specs.Loops.{loop_of, IsLoop};

use crate::products::{product, sums};
use crate::quotients::{common_factor, exact_quotients};
use crate::refusal::{LoopRefusal, LoopStop};
use crate::transfer::{Transfer, controller_transfer, plant_transfer};
use dsv_base::{Items, NoMemory};
use dsv_fraction::Frac;
use dsv_integer::Integer;
use dsv_names::Realisation;
use dsv_quantiser::Quantised;
use dsv_reader::Plant;
use std::alloc::Global;

/// Whether a realisation has registers that add up its inputs and that no output feeds back.
fn adds_up_inputs(realisation: Realisation) -> bool
    ensures { result ≡ adds_up_inputs realisation }
{
    match realisation {
        Realisation::Ddfi => true,
        Realisation::Dfi
        | Realisation::Dfii
        | Realisation::Tdfii
        | Realisation::Ddfii
        | Realisation::Tddfii => false,
    }
}

/// Whether a section has such registers.
fn is_accumulating(section: &Quantised) -> bool
    ensures { result ≡ is_accumulating section.now }
{
    adds_up_inputs(section.realisation()) && section.a().len() > 1
}

/// Whether both times are the same.
fn is_same_time(s: &Frac, t: &Frac) -> bool
    ensures { result ≡ is_same_time s.now t.now }
{
    let (num, den) = s.to_parts();
    let (other_num, other_den) = t.to_parts();
    num == other_num && den == other_den
}

/// Whether a section answers an input at once.
fn answers_at_once(section: &Quantised) -> bool
    ensures { result ≡ answers_at_once section.now }
{
    match section.b().first() {
        Some(word) => *word != 0,
        None => false,
    }
}

/// Whether the first coefficient isn't 0.
fn begins_at_once(coefficients: &[Frac]) -> bool
    ensures { result ≡ not (int_eq (slice_index_or coefficients.now 0 zero).num (pos 0)) }
{
    match coefficients.first() {
        Some(coefficient) => coefficient.num() != 0,
        None => false,
    }
}

/// Whether a section has registers that add up its inputs.
fn some_accumulates(sections: &[Quantised]) -> bool
    ensures { result ≡ list_any is_accumulating sections.now }
{
    for section in sections {
        if is_accumulating(section) {
            return true;
        }
    }
    false
}

/// Whether all sections answer an input at once.
fn all_answer_at_once(sections: &[Quantised]) -> bool
    ensures { result ≡ list_all answers_at_once sections.now }
{
    for section in sections {
        if !answers_at_once(section) {
            return false;
        }
    }
    true
}

/// Whether controller and plant both answer an input at once.
fn is_algebraic(sections: &[Quantised], plant: &Plant) -> bool
    ensures { result ≡ is_algebraic sections.now plant.now }
{
    all_answer_at_once(sections) && begins_at_once(plant.b())
}

/// Tests whether the controller, which runs with this sample time, and the plant have a loop.
fn loop_test(sections: &[Quantised], sample_time: &Frac, plant: &Plant) -> Result<(), LoopRefusal>
    ensures { result ≡ loop_test sections.now sample_time.now plant.now }
{
    if some_accumulates(sections) {
        return Err(LoopRefusal::Realisation);
    }
    if !is_same_time(sample_time, plant.sample_time()) {
        return Err(LoopRefusal::SampleTimes);
    }
    if is_algebraic(sections, plant) {
        return Err(LoopRefusal::Algebraic);
    }
    Ok(())
}

/// The loop's coefficients.
fn loop_coefficients(
    controller: &Transfer,
    plant: &Transfer,
    alloc: Global,
) -> Result<Items<Integer>, NoMemory>
    ensures { IfOk result (λ found. found ≡ loop_coefficients controller.now plant.now) }
{
    let denominators = product(controller.a(), plant.a(), alloc)?;
    let numerators = product(controller.b(), plant.b(), alloc)?;
    sums(denominators.as_slice(), numerators.as_slice(), alloc)
}

/// The numbers without their common factor.
fn without_common_factor(list: &[Integer], alloc: Global) -> Result<Items<Integer>, NoMemory>
    requires { 0 < lead_size list.now }
    ensures { IfOk result (λ found. found ≡ without_common_factor list.now) }
{
    exact_quotients(list, &common_factor(list, alloc)?, alloc)
}

/// The numbers with their signs changed.
fn negations(list: &[Integer], alloc: Global) -> Result<Items<Integer>, NoMemory>
    ensures { IfOk result (λ found. found ≡ map neg_ℤ list.now) }
{
    let mut negations = Items::new(alloc);
    for number in list {
        negations.push(number.copy(alloc)?.negation())?;
    }
    Ok(negations)
}

/// Whether the first number is below 0.
fn begins_negative(list: &[Integer]) -> bool
    ensures { result ≡ int_lt (vector_of list.now 0) (pos 0) }
{
    match list.first() {
        Some(number) => number.is_negative(),
        None => false,
    }
}

/// The numbers, all signs changed if the first is below 0.
fn with_positive_lead(list: Items<Integer>, alloc: Global) -> Result<Items<Integer>, NoMemory>
    ensures { IfOk result (λ found. found ≡ with_positive_lead list) }
{
    if begins_negative(list.as_slice()) {
        negations(list.as_slice(), alloc)
    } else {
        Ok(list)
    }
}

/// The polynomial with these coefficients, of which the first isn't 0, without their common factor
/// and with a positive lead.
fn polynomial_with(list: &[Integer], alloc: Global) -> Result<Items<Integer>, NoMemory>
    requires { 0 < lead_size list.now }
    ensures value { IfOk result (λ found. found
        ≡ with_positive_lead (without_common_factor list.now)) }
    ensures lead { IfOk result (λ found. pos 0 <ℤ vector_of found 0) }
{
    with_positive_lead(without_common_factor(list, alloc)?, alloc)
}

/// The polynomial of the loop of the controller with these sections in series, which runs with this
/// sample time, with the plant under negative unit feedback: with the controller's coefficients in
/// z, B / A, and the plant's, b / a, in whole numbers A a + B b, from its highest power of z on,
/// divided by the greatest common divisor of its coefficients, with a positive lead.
///
/// # Errors
///
/// In this order: when a section has an order of 1 or more and is in delta direct form I, whose
/// first registers add up its inputs and are poles of the loop at 1; when the plant's sample time
/// is another; and when all sections and the plant answer an input at once. When there is no
/// memory.
pub fn loop_polynomial(
    sections: &[Quantised],
    sample_time: Frac,
    plant: &Plant,
    alloc: Global,
) -> Result<Items<Integer>, LoopStop>
    ensures value { IsLoop (loop_of sections.now sample_time plant.now) result }
    ensures some { IfOk result (λ cs. 0 < length cs) }
    ensures lead { IfOk result (λ cs. pos 0 <ℤ vector_of cs 0) }
    ensures few { IfOk result (λ cs. length cs ≤ 8 * length sections.now + 9) }
{
    loop_test(sections, &sample_time, plant)?;
    let controller = controller_transfer(sections, alloc)?;
    let whole_plant = plant_transfer(plant, alloc)?;
    let coefficients = loop_coefficients(&controller, &whole_plant, alloc)?;
    Ok(polynomial_with(coefficients.as_slice(), alloc)?)
}
