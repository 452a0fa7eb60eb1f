// Runs of a quantised controller over inputs.
#![tactic(auto, using(dsv_algebra::proofs::Casts::casts))]

ghost use Rattle.dsv_word.specs.Words.{IsWord};
ghost use Rattle.std.specs.Prelude.{◌≡◌, ◌+◌, length, IfOk};
ghost use Rattle.std.specs.List.{All};
ghost use Rattle.dsv_meaning.specs.Equations.{order, registers_of};
ghost use Rattle.dsv_system.specs.RowViews.{row_of};
ghost use Rattle.dsv_meaning.specs.Stepping.{step_as};
ghost use Rattle.dsv_meaning.specs.Systems.{equations_of};
ghost use Rattle.dsv_system.specs.Runs.{row_at};
ghost use Rattle.dsv_system.specs.Systems.{rows};

use crate::chains::Registers;
use crate::steps::step;
use dsv_base::NoMemory;
use dsv_quantiser::Quantised;
use dsv_system::{ExactList, Row, Rows};
use std::alloc::Global;

/// The registers with these words.
pub(crate) fn loaded_registers(quantised: &Quantised, start: &[i64]) -> Registers
    requires { length start.now ≡ registers_of quantised.now.realisation (order quantised.now) }
    ensures words { result.items ≡ start.now }
    ensures numerator { length quantised.now.b ≡ order quantised.now + 1 }
{
    let _order = quantised.order();
    let mut registers = Registers::new();
    for word in start {
        registers.push(*word);
    }
    registers
}

/// The row of one sample, after which the registers have their new words.
pub(crate) fn next_row(quantised: &Quantised, x: &i64, registers: &mut Registers) -> Row
    requires { length registers.old.items
        ≡ registers_of quantised.now.realisation (order quantised.now) }
    ensures row { row_of result
        ≡ row_at (step_as quantised.now.realisation quantised.now registers.old.items x.now) x.now }
    ensures registers { registers.new.items
        ≡ (step_as quantised.now.realisation quantised.now registers.old.items x.now).past }
    ensures many { length registers.new.items ≡ length registers.old.items }
{
    let mut exact = ExactList::new();
    let y = step(quantised, x, registers, &mut exact);
    Row { x: *x, y, exact }
}

/// The rows of a run from these words in the registers over these inputs: each row is what the
/// realisation's written equations give at its sample. Takes memory for the rows alone.
pub fn simulate(
    alloc: Global,
    quantised: &Quantised,
    start: &[i64],
    inputs: &[i64],
) -> Result<Rows, NoMemory>
    requires many { length start.now
        ≡ registers_of quantised.now.realisation (order quantised.now) }
    requires start { All (IsWord quantised.now.format) start.now }
    requires inputs { All (IsWord quantised.now.format) inputs.now }
    ensures { IfOk result (λ found. found
        ≡ rows (equations_of quantised.now) start.now inputs.now) }
{
    let mut registers = loaded_registers(quantised, start);
    let mut rows = Vec::new(alloc);
    for x in inputs {
        let row = next_row(quantised, x, &mut registers);
        rows.push(row)?;
    }
    Ok(Rows::from(rows))
}
