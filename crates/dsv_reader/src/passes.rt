// Whole files.
ghost use Rattle.std.specs.Prelude.{◌≡◌, IfOk};
ghost use Rattle.dsv_token.specs.Memory.{Gives};
ghost use Rattle.dsv_reader.specs.Reading.{width_test, controller_from, reading};
ghost use Rattle.dsv_reader.specs.Reading.{plant_from, plant_reading};
ghost use Rattle.dsv_reader.specs.Texts.{IsTextOf, IsPlantText};

use crate::blocks::{Blocks, System, blocks_of, system_of};
use crate::controller::Controller;
use crate::fields::values_of;
use crate::numbers::SpelledNumber;
use crate::plant::Plant;
use crate::quotients::{divided_list, leading_coefficient, size_test, values_in};
use dsv_syntax::{parse, parse_system};
use dsv_token::{FileRefusal, check_text, lex};
use dsv_word::WIDEST_WORD;
use std::alloc::Global;

/// Tests that words of these widths can be had.
fn width_test(int_bits: SpelledNumber, frac_bits: SpelledNumber) -> Result<(), FileRefusal>
    ensures { result ≡ width_test int_bits frac_bits }
{
    let greatest = u64::from(WIDEST_WORD);
    match int_bits.value.checked_add(frac_bits.value) {
        Some(bits) if int_bits.value >= 1 && bits >= 2 && bits <= greatest => Ok(()),
        _ => Err(FileRefusal::Width {
            at: int_bits.at as u64,
        }),
    }
}

#[tactic(auto, using(crate::proofs::FirstQuotients::divided_first))]
/// The controller that is made of these blocks, or the first test over the whole that refuses it.
fn controller_of(blocks: &Blocks) -> Result<Controller, FileRefusal>
    ensures { result ≡ controller_from blocks.now }
{
    let system = &blocks.system;
    size_test(system.b_size, &system.b)?;
    size_test(system.a_size, &system.a)?;
    let first = leading_coefficient(&system.a)?;
    let b = divided_list(&first, &system.b)?;
    let a = divided_list(&first, &system.a)?;
    width_test(
        blocks.implementation.int_bits,
        blocks.implementation.frac_bits,
    )?;
    Ok(Controller::assemble(blocks, b, a))
}

/// The passes over a file, one after another.
fn read_passes(alloc: Global, bytes: &[u8]) -> Result<Controller, FileRefusal>
    ensures { Gives (λ c. c) result (reading bytes.now) }
{
    check_text(bytes)?;
    let tokens = lex(alloc, bytes)?;
    let syntax = parse(alloc, bytes.len(), tokens.as_slice())?;
    let values = values_of(bytes, syntax.entries.as_slice())?;
    controller_of(&blocks_of(&syntax, values)?)
}

/// The controller that a file's bytes spell; or the file's first fault, pass by pass over the whole
/// file: its text, its tokens, its grammar, its numbers field by field, fields that are missing,
/// and what its values are to each other. It takes time in proportion to the file.
pub fn read(alloc: Global, bytes: &[u8]) -> Result<Controller, FileRefusal>
    // The controller exactly where the bytes are its text, and a refusal exactly where it is their
    // first fault, unless memory runs out.
    ensures value { Gives (λ c. c) result (reading bytes.now) }
    ensures text { IfOk result (IsTextOf bytes.now) }
{
    read_passes(alloc, bytes)
}

#[tactic(auto, using(crate::proofs::FirstQuotients::value_first))]
/// The plant that is made of this block, or the first test that refuses it.
fn plant_of(system: &System) -> Result<Plant, FileRefusal>
    ensures { result ≡ plant_from system.now }
{
    size_test(system.b_size, &system.b)?;
    size_test(system.a_size, &system.a)?;
    leading_coefficient(&system.a)?;
    Ok(Plant::new(
        values_in(&system.b),
        values_in(&system.a),
        &system.sample_time,
    ))
}

/// The passes over a plant's file, one after another.
fn read_plant_passes(alloc: Global, bytes: &[u8]) -> Result<Plant, FileRefusal>
    ensures { Gives (λ p. p) result (plant_reading bytes.now) }
{
    check_text(bytes)?;
    let tokens = lex(alloc, bytes)?;
    let syntax = parse_system(alloc, bytes.len(), tokens.as_slice())?;
    let values = values_of(bytes, syntax.entries.as_slice())?;
    plant_of(&system_of(syntax.system, values.system)?)
}

/// The plant that a file's bytes spell: one block `digital_system`, as a controller's file has it,
/// and nothing else; or the file's first fault, in the order of [`read`]'s passes. It takes time in
/// proportion to the file.
pub fn read_plant(alloc: Global, bytes: &[u8]) -> Result<Plant, FileRefusal>
    // as for a controller
    ensures value { Gives (λ p. p) result (plant_reading bytes.now) }
    ensures text { IfOk result (IsPlantText bytes.now) }
{
    read_plant_passes(alloc, bytes)
}
