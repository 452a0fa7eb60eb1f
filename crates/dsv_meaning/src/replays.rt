// Runs that are replayed to find what breaks in them.
#![tactic(auto, using(dsv_algebra::proofs::Casts::casts))]

ghost use Rattle.std.specs.Prelude.{◌≡◌, ◌+◌, ◌<◌, ◌≤◌, ◌^◌, ℕ, true, length};
ghost use Rattle.std.specs.Prelude.{take};
ghost use Rattle.std.specs.List.{All};
ghost use Rattle.dsv_word.specs.Words.{IsWord};
ghost use Rattle.dsv_system.specs.Breaks.{IsInside, IsFirstBreak};
ghost use Rattle.dsv_system.specs.Cycles.{Returns, IsLeastPeriod, IsSounding};
ghost use Rattle.dsv_system.specs.Systems.{rows, zeros, behaviour_of};
ghost use Rattle.dsv_meaning.specs.Equations.{order, registers_of};
ghost use Rattle.dsv_meaning.specs.Systems.{equations_of, outputs_over};
ghost use Rattle.dsv_meaning.specs.Replays.{IfBreaks, IfUnbroken, IfReturns, IfGone};

use crate::chains::Registers;
use crate::counts::registers;
use crate::simulation::{loaded_registers, next_row};
use dsv_base::WordList;
use dsv_quantiser::Quantised;
use dsv_system::{first_outside, is_heard};

/// An overflow that replays: the inputs up to the first sample that has an exact value which is no
/// word, the outputs of that run, the number of that sample, and the first such value in it with
/// its number. Samples and values count from 0.
#[derive(Debug, Drop)]
pub struct Trace {
    pub inputs: WordList,
    pub outputs: WordList,
    pub sample: u32,
    pub value: u32,
    pub exact: i128,
}

/// A limit cycle that replays: the words of the registers at its start, its least period, and the
/// outputs of one period.
#[derive(Debug, Drop)]
pub struct Cycle {
    pub start: WordList,
    pub period: u32,
    pub outputs: WordList,
}

/// What breaks first in a run.
#[derive(Clone, Copy, Debug, PartialEq, Eq)]
pub enum OverflowReplay {
    /// In this sample the exact value of this number is the first that is no word.
    Breaks {
        sample: u32,
        value: u32,
        exact: i128,
    },
    /// All exact values are words.
    Clean,
}

/// Whether a start comes back without input.
#[derive(Clone, Copy, Debug, PartialEq, Eq)]
pub enum CycleReplay {
    /// It comes back after so many samples and no earlier, and whether an output until then isn't
    /// 0.
    Returns { period: u32, sounding: bool },
    /// It doesn't come back up to the limit.
    Clean,
}

/// The registers with a zero in each.
fn zero_registers(quantised: &Quantised) -> Registers
    ensures zeros { result.items ≡ zeros (equations_of quantised.now).many }
    ensures numerator { length quantised.now.b ≡ order quantised.now + 1 }
{
    let many = registers(quantised.realisation(), quantised.order() as u32);
    let mut loaded = Registers::new();
    'loading: for _ in 0..many {
        loaded.push(0);
    }
    loaded
}

/// The first exact value that is no word, in the run of the written equations from registers of
/// zeros over these inputs, whose outputs up to that sample are written. It takes no memory.
pub fn replay_overflow(quantised: &Quantised, inputs: &[i64], outputs: &mut [i64]) -> OverflowReplay
    requires words { All (IsWord quantised.now.format) inputs.now }
    requires few { length inputs.now < 2 ^ 32 }
    requires room { length outputs.old ≡ length inputs.now }
    ensures first { IfBreaks result (IsFirstBreak quantised.now.format
        (rows (equations_of quantised.now) (zeros (equations_of quantised.now).many) inputs.now)) }
    ensures none { IfUnbroken result (All (IsInside quantised.now.format)
        (rows (equations_of quantised.now) (zeros (equations_of quantised.now).many) inputs.now)) }
    ensures outputs { IfBreaks result (λ sample value exact. take (sample + 1) outputs.new
        ≡ outputs_over quantised.now (zeros (equations_of quantised.now).many)
        (take (sample + 1) inputs.now)) }
    ensures room { length outputs.new ≡ length inputs.now }
{
    let format = quantised.format();
    let mut registers = zero_registers(quantised);
    for (i, x) in inputs.iter().enumerate() {
        let row = next_row(quantised, x, &mut registers);
        outputs[i] = row.y;
        if let Some(found) = first_outside(&format, row.exact.as_slice()) {
            return OverflowReplay::Breaks {
                sample: i as u32,
                value: found.value,
                exact: found.exact,
            };
        }
    }
    OverflowReplay::Clean
}

/// The least number of samples with input 0, up to a limit, after which the written equations have
/// brought these words back into the registers, and whether an output on the way isn't 0; the
/// outputs until then are written. It takes no memory.
pub fn replay_cycle(
    quantised: &Quantised,
    start: &[i64],
    limit: u32,
    outputs: &mut [i64],
) -> CycleReplay
    requires many { length start.now
        ≡ registers_of quantised.now.realisation (order quantised.now) }
    requires words { All (IsWord quantised.now.format) start.now }
    requires room { length outputs.old ≡ limit }
    ensures least { IfReturns result (λ period sounding.
        IsLeastPeriod (behaviour_of (equations_of quantised.now)) start.now period) }
    ensures few { IfReturns result (λ period sounding. period ≤ limit) }
    ensures sounding { IfReturns result (λ period sounding. sounding ≡ true →
        IsSounding (behaviour_of (equations_of quantised.now)) start.now period) }
    // An output that isn't 0 at any later time is heard in the first period already.
    ensures lasting { IfReturns result (λ period sounding. (n : ℕ) →
        IsSounding (behaviour_of (equations_of quantised.now)) start.now n → sounding ≡ true) }
    ensures gone { IfGone result ((p : ℕ) → p ≤ limit →
        Returns (behaviour_of (equations_of quantised.now)) start.now p → ⊥) }
    ensures outputs { IfReturns result (λ period sounding. take period outputs.new
        ≡ outputs_over quantised.now start.now (zeros period)) }
    ensures room { length outputs.new ≡ limit }
{
    let mut registers = loaded_registers(quantised, start);
    let mut sounding = false;
    for done in 0..limit {
        let row = next_row(quantised, &0, &mut registers);
        outputs[done as usize] = row.y;
        sounding = is_heard(sounding, &row);
        if registers.as_slice() == start {
            return CycleReplay::Returns {
                period: done + 1,
                sounding,
            };
        }
    }
    CycleReplay::Clean
}
