// One sample of each realisation, over the words in its registers.
#![tactic(auto, using(dsv_algebra::proofs::Casts::casts))]

ghost use Rattle.std.specs.Prelude.{◌≡◌, [], length};
ghost use Rattle.dsv_names.specs.declared.realisation.Realisation.TheVariants.{Dfi, Dfii, Tdfii};
ghost use Rattle.dsv_names.specs.declared.realisation.Realisation.TheVariants.{Ddfi, Ddfii, Tddfii};
ghost use Rattle.dsv_meaning.specs.Equations.{order, registers_of};
ghost use Rattle.dsv_meaning.specs.Stepping.{step_as};

use crate::chains::{Registers, delay, delta_chain, transposed_chain, transposed_delta_chain};
use crate::lines::line;
use crate::summands::{
    Signals, direct_summands, forward_summands, state_summands, transposed_output,
};
use dsv_names::Realisation;
use dsv_quantiser::Quantised;
use dsv_system::ExactList;

/// One sample of direct form I.
fn dfi(quantised: &Quantised, x: &i64, registers: &mut Registers, exact: &mut ExactList) -> i64
    requires many { length registers.old.items ≡ registers_of Dfi (order quantised.now) }
    requires empty { exact.old.items ≡ [] }
    ensures sample { record { y = result; exact = exact.new.items; past = registers.new.items } ≡
        step_as Dfi quantised.now registers.old.items x.now }
    ensures many { length registers.new.items ≡ length registers.old.items }
{
    let (signal, outputs) = registers.as_slice().split_at(quantised.order());
    let summands = direct_summands(quantised, x, signal, outputs);
    let y = line(quantised, &summands, exact);
    let mut next = Registers::new();
    delay(x, signal, &mut next);
    delay(&y, outputs, &mut next);
    *registers = next;
    y
}

/// One sample of direct form II.
fn dfii(quantised: &Quantised, x: &i64, registers: &mut Registers, exact: &mut ExactList) -> i64
    requires many { length registers.old.items ≡ registers_of Dfii (order quantised.now) }
    requires empty { exact.old.items ≡ [] }
    ensures sample { record { y = result; exact = exact.new.items; past = registers.new.items } ≡
        step_as Dfii quantised.now registers.old.items x.now }
    ensures many { length registers.new.items ≡ length registers.old.items }
{
    let old = registers.as_slice();
    let w = line(quantised, &state_summands(quantised, x, old), exact);
    let y = line(quantised, &forward_summands(quantised, &w, old), exact);
    let mut next = Registers::new();
    delay(&w, old, &mut next);
    *registers = next;
    y
}

/// One sample of the transposed direct form II.
fn tdfii(quantised: &Quantised, x: &i64, registers: &mut Registers, exact: &mut ExactList) -> i64
    requires many { length registers.old.items ≡ registers_of Tdfii (order quantised.now) }
    requires empty { exact.old.items ≡ [] }
    ensures sample { record { y = result; exact = exact.new.items; past = registers.new.items } ≡
        step_as Tdfii quantised.now registers.old.items x.now }
    ensures many { length registers.new.items ≡ length registers.old.items }
{
    let old = registers.as_slice();
    let y = line(quantised, &transposed_output(quantised, x, old), exact);
    let mut next = Registers::new();
    transposed_chain(quantised, Signals { x, y: &y }, old, exact, &mut next);
    *registers = next;
    y
}

/// One sample of the delta direct form I.
fn ddfi(quantised: &Quantised, x: &i64, registers: &mut Registers, exact: &mut ExactList) -> i64
    requires many { length registers.old.items ≡ registers_of Ddfi (order quantised.now) }
    requires empty { exact.old.items ≡ [] }
    ensures sample { record { y = result; exact = exact.new.items; past = registers.new.items } ≡
        step_as Ddfi quantised.now registers.old.items x.now }
    ensures many { length registers.new.items ≡ length registers.old.items }
{
    let (u, v) = registers.as_slice().split_at(quantised.order());
    let y = line(quantised, &direct_summands(quantised, x, u, v), exact);
    let mut next = Registers::new();
    delta_chain(quantised, x, u, exact, &mut next);
    delta_chain(quantised, &y, v, exact, &mut next);
    *registers = next;
    y
}

/// One sample of the delta direct form II.
fn ddfii(quantised: &Quantised, x: &i64, registers: &mut Registers, exact: &mut ExactList) -> i64
    requires many { length registers.old.items ≡ registers_of Ddfii (order quantised.now) }
    requires empty { exact.old.items ≡ [] }
    ensures sample { record { y = result; exact = exact.new.items; past = registers.new.items } ≡
        step_as Ddfii quantised.now registers.old.items x.now }
    ensures many { length registers.new.items ≡ length registers.old.items }
{
    let old = registers.as_slice();
    let w = line(quantised, &state_summands(quantised, x, old), exact);
    let y = line(quantised, &forward_summands(quantised, &w, old), exact);
    let mut next = Registers::new();
    delta_chain(quantised, &w, old, exact, &mut next);
    *registers = next;
    y
}

/// One sample of the transposed delta direct form II.
fn tddfii(quantised: &Quantised, x: &i64, registers: &mut Registers, exact: &mut ExactList) -> i64
    requires many { length registers.old.items ≡ registers_of Tddfii (order quantised.now) }
    requires empty { exact.old.items ≡ [] }
    ensures sample { record { y = result; exact = exact.new.items; past = registers.new.items } ≡
        step_as Tddfii quantised.now registers.old.items x.now }
    ensures many { length registers.new.items ≡ length registers.old.items }
{
    let _order = quantised.order(); // its range, for the proof
    let old = registers.as_slice();
    let y = line(quantised, &transposed_output(quantised, x, old), exact);
    let mut next = Registers::new();
    transposed_delta_chain(quantised, Signals { x, y: &y }, old, exact, &mut next);
    *registers = next;
    y
}

/// One sample: answers the output, loads the registers with their new words, and gives the exact
/// values.
pub(crate) fn step(
    quantised: &Quantised,
    x: &i64,
    registers: &mut Registers,
    exact: &mut ExactList,
) -> i64
    requires many { length registers.old.items
        ≡ registers_of quantised.now.realisation (order quantised.now) }
    requires empty { exact.old.items ≡ [] }
    ensures sample { record { y = result; exact = exact.new.items; past = registers.new.items } ≡
        step_as quantised.now.realisation quantised.now registers.old.items x.now }
    ensures many { length registers.new.items ≡ length registers.old.items }
{
    match quantised.realisation() {
        Realisation::Dfi => dfi(quantised, x, registers, exact),
        Realisation::Dfii => dfii(quantised, x, registers, exact),
        Realisation::Tdfii => tdfii(quantised, x, registers, exact),
        Realisation::Ddfi => ddfi(quantised, x, registers, exact),
        Realisation::Ddfii => ddfii(quantised, x, registers, exact),
        Realisation::Tddfii => tddfii(quantised, x, registers, exact),
    }
}
