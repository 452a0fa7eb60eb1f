// Exact values that are no words.
#![tactic(auto, using(dsv_algebra::proofs::Casts::casts))]

ghost use Rattle.std.specs.Prelude.{IfOk, IfSome, IfNone};
ghost use Rattle.std.specs.List.{All};
ghost use Rattle.dsv_bounded.specs.Questions.{AreRegisters};
ghost use Rattle.dsv_netlist.specs.Nodes.{step_of};
ghost use Rattle.dsv_system.specs.OutsideValues.{IsFirstOutside};
ghost use Rattle.dsv_word.specs.Words.{IsWord};
ghost use Rattle.dsv_invariant.specs.Breaking.{IsUnsafeSample};

use dsv_base::{NoMemory, WordList};
use dsv_netlist::Netlist;
use dsv_system::{ExactList, OutsideValue, first_outside};
use dsv_template::Why;
use std::alloc::Global;

/// The first exact value that is no word in the sample from a start at an input.
fn outside_value(
    alloc: Global,
    net: &Netlist,
    start: &[i64],
    input: &i64,
) -> Result<Option<OutsideValue>, NoMemory>
    requires start { AreRegisters net.now start.now }
    requires input { IsWord net.now.format input.now }
    ensures first { IfOk result (λ found. IfSome found (λ v. IsFirstOutside net.now.format
        (step_of net.now start.now input.now).exact v.value v.exact)) }
    ensures none { IfOk result (λ found. IfNone found
        (All (IsWord net.now.format) (step_of net.now start.now input.now).exact)) }
{
    let mut registers = Vec::from_slice(alloc, start)?;
    let mut exact = ExactList::new();
    net.step(registers.as_mut_slice(), *input, &mut exact);
    Ok(first_outside(&net.format(), exact.as_slice()))
}

/// A start and an input whose sample has an exact value that is no word, with the first such value.
pub(crate) fn unsafe_sample(
    alloc: Global,
    net: &Netlist,
    start: &[i64],
    input: &i64,
) -> Result<Why, NoMemory>
    requires start { AreRegisters net.now start.now }
    requires input { IsWord net.now.format input.now }
    requires breaks { All (IsWord net.now.format) (step_of net.now start.now input.now).exact
        → ⊥ }
    ensures { IfOk result (IsUnsafeSample net.now start.now input.now) }
{
    match outside_value(alloc, net, start, input)? {
        Some(found) => Ok(Why::Unsafe {
            start: WordList::from_slice(alloc, start)?,
            input: *input,
            value: found.value,
            exact: found.exact,
        }),
        None => unreachable!(),
    }
}
