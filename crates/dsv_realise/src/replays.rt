// Traces of inputs, and limit cycles of starts, that are replayed in a netlist.
ghost use Rattle.std.specs.Prelude.{◌≡◌, ◌<◌, ◌≤◌, ◌^◌, ℕ, true, length, map, take};
ghost use Rattle.std.specs.Prelude.{IfOk, IfSome, IfNone};
ghost use Rattle.std.specs.List.{All};
ghost use Rattle.dsv_word.specs.Words.{IsWord};
ghost use Rattle.dsv_system.specs.Breaks.{IsInside};
ghost use Rattle.dsv_system.specs.Cycles.{Returns, IsLeastPeriod, IsSounding};
ghost use Rattle.dsv_system.specs.Runs.{SampleRow};
ghost use Rattle.dsv_system.specs.Systems.{rows, zeros, AreInRange};
ghost use Rattle.dsv_netlist.specs.Systems.{system_of, runs_of};
ghost use Rattle.dsv_meaning.specs.Replays.{IfReturns, IfGone};
ghost use Rattle.dsv_realise.specs.RangedNetlists.{IsTraceIn};
ghost use Rattle.dsv_meaning.specs.Traces.{IsTraceBy};

use crate::ranged_netlist::RangedNetlist;
use crate::simulation::{next_row, zero_registers};
use dsv_base::{NoMemory, WordList};
use dsv_meaning::{CycleReplay, Trace};
use dsv_netlist::Netlist;
use dsv_system::{first_outside, is_heard};
use std::alloc::Global;

/// The trace of these inputs from registers of zeros, which it steps.
fn stepped_trace(
    alloc: Global,
    subject: &RangedNetlist,
    registers: &mut [i64],
    inputs: &[i64],
) -> Result<Option<Trace>, NoMemory>
    requires zeros { registers.old ≡ zeros (length subject.now.net.now.next) }
    requires loaded { All (IsWord subject.now.net.now.format) registers.old }
    requires range { AreInRange subject.now.low subject.now.high inputs.now }
    requires words { All (IsWord subject.now.net.now.format) inputs.now }
    requires few { length inputs.now < 2 ^ 32 }
    ensures trace { IfOk result (λ trace. IfSome trace
        (IsTraceIn subject.now (length inputs.now))) }
    ensures none { IfOk result (λ trace. IfNone trace (All (IsInside subject.now.net.now.format)
        (rows (system_of subject.now.net.now) (zeros (length subject.now.net.now.next))
        inputs.now))) }
{
    let format = subject.net.format();
    let mut outputs = WordList::new(alloc);
    for (i, x) in inputs.iter().enumerate() {
        let row = next_row(subject.net, registers, x);
        outputs.push(row.y)?;
        if let Some(found) = first_outside(&format, row.exact.as_slice()) {
            return Ok(Some(Trace {
                inputs: WordList::from_slice(alloc, &inputs[..i + 1])?,
                outputs,
                sample: i as u32,
                value: found.value,
                exact: found.exact,
            }));
        }
    }
    Ok(None)
}

/// The trace of these inputs, fewer than 2^32, where they break the netlist from registers of
/// zeros: up to the first sample with an exact value that is no word.
pub fn replayed_trace(
    alloc: Global,
    subject: &RangedNetlist,
    inputs: &[i64],
) -> Result<Option<Trace>, NoMemory>
    requires range { AreInRange subject.now.low subject.now.high inputs.now }
    requires words { All (IsWord subject.now.net.now.format) inputs.now }
    requires few { length inputs.now < 2 ^ 32 }
    ensures trace { IfOk result (λ trace. IfSome trace (IsTraceBy
        (runs_of subject.now.net.now) subject.now.low subject.now.high (length inputs.now))) }
    ensures none { IfOk result (λ trace. IfNone trace (All (IsInside subject.now.net.now.format)
        (rows (system_of subject.now.net.now) (zeros (length subject.now.net.now.next))
        inputs.now))) }
{
    let mut registers = zero_registers(alloc, subject.net)?;
    stepped_trace(alloc, subject, registers.as_mut_slice(), inputs)
}

/// Whether a start comes back without input, in registers that hold it, which it steps.
fn stepped_cycle(
    net: &Netlist,
    registers: &mut [i64],
    start: &[i64],
    limit: u32,
    outputs: &mut [i64],
) -> CycleReplay
    requires held { registers.old ≡ start.now }
    requires many { length start.now ≡ length net.now.next }
    requires words { All (IsWord net.now.format) start.now }
    requires room { length outputs.old ≡ limit }
    ensures least { IfReturns result (λ period sounding.
        IsLeastPeriod (runs_of net.now) start.now period) }
    ensures few { IfReturns result (λ period sounding. period ≤ limit) }
    ensures sounding { IfReturns result (λ period sounding. sounding ≡ true →
        IsSounding (runs_of net.now) start.now period) }
    ensures lasting { IfReturns result (λ period sounding. (n : ℕ) →
        IsSounding (runs_of net.now) start.now n → sounding ≡ true) }
    ensures gone { IfGone result ((p : ℕ) → p ≤ limit →
        Returns (runs_of net.now) start.now p → ⊥) }
    ensures outputs { IfReturns result (λ period sounding. take period outputs.new
        ≡ map (λ (r : SampleRow). r.y) (rows (system_of net.now) start.now (zeros period))) }
    ensures room { length outputs.new ≡ limit }
{
    let mut sounding = false;
    for done in 0..limit {
        let row = next_row(net, registers, &0);
        outputs[done as usize] = row.y;
        sounding = is_heard(sounding, &row);
        if *registers == *start {
            return CycleReplay::Returns {
                period: done + 1,
                sounding,
            };
        }
    }
    CycleReplay::Clean
}

/// The least number of samples with input 0, up to a limit, after which the netlist has brought
/// these words back into its registers, and whether an output on the way isn't 0; the outputs until
/// then are written.
pub fn replay_cycle(
    alloc: Global,
    net: &Netlist,
    start: &[i64],
    limit: u32,
    outputs: &mut [i64],
) -> Result<CycleReplay, NoMemory>
    requires many { length start.now ≡ length net.now.next }
    requires words { All (IsWord net.now.format) start.now }
    requires room { length outputs.old ≡ limit }
    ensures least { IfOk result (λ replay. IfReturns replay (λ period sounding.
        IsLeastPeriod (runs_of net.now) start.now period)) }
    ensures few { IfOk result (λ replay. IfReturns replay (λ period sounding. period ≤ limit)) }
    ensures sounding { IfOk result (λ replay. IfReturns replay (λ period sounding.
        sounding ≡ true → IsSounding (runs_of net.now) start.now period)) }
    // An output that isn't 0 at any later time is heard in the first period already.
    ensures lasting { IfOk result (λ replay. IfReturns replay (λ period sounding. (n : ℕ) →
        IsSounding (runs_of net.now) start.now n → sounding ≡ true)) }
    ensures gone { IfOk result (λ replay. IfGone replay ((p : ℕ) → p ≤ limit →
        Returns (runs_of net.now) start.now p → ⊥)) }
    ensures outputs { IfOk result (λ replay. IfReturns replay (λ period sounding.
        take period outputs.new ≡ map (λ (r : SampleRow). r.y)
        (rows (system_of net.now) start.now (zeros period)))) }
    ensures room { length outputs.new ≡ limit }
{
    let mut registers = Vec::from_slice(alloc, start)?;
    Ok(stepped_cycle(net, registers.as_mut_slice(), start, limit, outputs))
}
