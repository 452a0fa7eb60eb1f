// Starts that are tried before a search: each runs without input, so that it may settle onto a
// cycle, and is then replayed.
//
// Without input the registers have finitely many states, so every start comes onto a cycle in the
// end; a limit cycle is one of those on which the output doesn't stay 0. From overflow come large
// ones, which ends of the words and of the input range lead to (Ebert, Mazo and Taylor, Overflow
// Oscillations in Digital Filters, 1969), and from rounding small ones, which single small words
// lead to (Jackson, 1969). So both kinds of numbers are tried in each register, in all of them, and
// as inputs.
#![tactic(auto, using(dsv_algebra::proofs::Casts::casts))]

ghost use Rattle.std.specs.Prelude.{◌<◌, IfOk, IfSome};
ghost use Rattle.dsv_word.specs.Words.{IsWord};
ghost use Rattle.dsv_bounded.specs.Questions.{AreRegisters};
ghost use Rattle.dsv_bounded.specs.declared.starts.TheConstants.{OFFERED_NUMBERS};
ghost use Rattle.dsv_netlist.specs.Systems.{runs_of};
ghost use Rattle.dsv_bounded.specs.Verdicts.{IsCycleBy};

use crate::cycles::CycleQuestion;
use crate::transients::{drive, level_registers};
use dsv_base::NoMemory;
use dsv_meaning::Cycle;
use dsv_netlist::Netlist;
use dsv_word::Format;
use std::alloc::Global;

/// After so many samples each the registers are replayed.
const SETTLING: &[u32] = &[16, 48, 192];

/// An input that is held for long has so many samples.
const LONG_INPUT: u32 = 32;

/// How many numbers are tried in a register.
const OFFERED_NUMBERS: u32 = 38;

/// A size of a number to be tried in a register: 1, 2, 3, and then the powers of four.
fn offered_size(i: u32) -> u32
    requires { i < 18 }
{
    if i < 3 { i + 1 } else { 1 << (2 * i - 4) }
}

/// A number to be tried in a register: an end of the words, or a size with one of both signs.
fn offered_number(format: &Format, i: u32) -> i64
    requires { i < OFFERED_NUMBERS }
{
    match i {
        0 => format.lo(),
        1 => format.hi(),
        _ => {
            let size = i64::from(offered_size(i / 2 - 1));
            if i % 2 == 0 { size } else { -size }
        }
    }
}

/// Where a number stands at a start.
#[derive(Clone, Copy)]
enum Place {
    /// In this register, and 0 in the others.
    Register(u32),
    /// In all registers.
    Everywhere,
    /// As the input in so many samples from registers of zeros.
    Input(u32),
}

/// The registers at the start of a number, which is a word.
fn start_registers(
    alloc: Global,
    net: &Netlist,
    number: i64,
    place: Place,
) -> Result<Vec<i64>, NoMemory>
    requires { IsWord net.now.format number }
    ensures { IfOk result (λ registers. AreRegisters net.now registers.items) }
{
    match place {
        Place::Register(register) => {
            let mut registers = level_registers(alloc, net, 0)?;
            if (register as usize) < registers.len() {
                registers[register as usize] = number;
            }
            Ok(registers)
        }
        Place::Everywhere => level_registers(alloc, net, number),
        Place::Input(samples) => {
            let mut registers = level_registers(alloc, net, 0)?;
            drive(net, registers.as_mut_slice(), number, samples);
            Ok(registers)
        }
    }
}

impl<'a> CycleQuestion<'a> {
    /// The limit cycle that comes of a number, where it is a word.
    fn number_cycle(
        &self,
        alloc: Global,
        number: i64,
        place: Place,
    ) -> Result<Option<Cycle>, NoMemory>
        ensures { IfOk result (λ cycle. IfSome cycle
            (IsCycleBy (runs_of self.now.subject.now.net.now) self.now.periods)) }
    {
        if !self.subject.net.format().fits(i128::from(number)) {
            return Ok(None);
        }
        let mut registers = start_registers(alloc, self.subject.net, number, place)?;
        self.settled_cycle(alloc, registers.as_mut_slice(), SETTLING)
    }

    /// The first limit cycle that comes of a word in one register: a small one, or an end.
    fn register_cycle(&self, alloc: Global, register: u32) -> Result<Option<Cycle>, NoMemory>
        ensures { IfOk result (λ cycle. IfSome cycle
            (IsCycleBy (runs_of self.now.subject.now.net.now) self.now.periods)) }
    {
        for i in 0..OFFERED_NUMBERS {
            let number = offered_number(&self.subject.net.format(), i);
            if let Some(cycle) = self.number_cycle(alloc, number, Place::Register(register))? {
                return Ok(Some(cycle));
            }
        }
        Ok(None)
    }

    /// The first limit cycle that comes of a number as the input, in one sample or for long, or in
    /// all registers.
    fn end_cycle(&self, alloc: Global, number: i64) -> Result<Option<Cycle>, NoMemory>
        ensures { IfOk result (λ cycle. IfSome cycle
            (IsCycleBy (runs_of self.now.subject.now.net.now) self.now.periods)) }
    {
        for place in [Place::Input(1), Place::Input(LONG_INPUT), Place::Everywhere] {
            if let Some(cycle) = self.number_cycle(alloc, number, place)? {
                return Ok(Some(cycle));
            }
        }
        Ok(None)
    }

    /// The limit cycle of the first start that leads to one, of some hundred that are offered by
    /// fixed rules.
    pub(crate) fn offered_cycle(&self, alloc: Global) -> Result<Option<Cycle>, NoMemory>
        ensures { IfOk result (λ cycle. IfSome cycle
            (IsCycleBy (runs_of self.now.subject.now.net.now) self.now.periods)) }
    {
        let net = self.subject.net;
        let format = net.format();
        for number in [
            self.subject.high,
            self.subject.low,
            format.hi(),
            format.lo(),
        ] {
            if let Some(cycle) = self.end_cycle(alloc, number)? {
                return Ok(Some(cycle));
            }
        }
        for register in net.feed_forward()..net.registers() {
            if let Some(cycle) = self.register_cycle(alloc, register)? {
                return Ok(Some(cycle));
            }
        }
        self.drawn_cycle(alloc)
    }
}
