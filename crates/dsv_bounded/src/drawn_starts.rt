// Pseudo-random starts that are tried after those of fixed rules, the same in each run: some
// controllers come to a limit cycle from few starts, and after many samples.
#![tactic(auto, using(dsv_algebra::proofs::Casts::casts))]

ghost use Rattle.std.specs.Prelude.{◌≤◌, IfOk, IfSome};
ghost use Rattle.dsv_word.specs.Words.{IsWord};
ghost use Rattle.dsv_bounded.specs.Questions.{AreRegisters};
ghost use Rattle.dsv_netlist.specs.Systems.{runs_of};
ghost use Rattle.dsv_bounded.specs.Verdicts.{IsCycleBy};

use crate::cycles::CycleQuestion;
use crate::transients::level_registers;
use dsv_base::NoMemory;
use dsv_meaning::Cycle;
use dsv_netlist::Netlist;
use dsv_word::Format;
use std::alloc::Global;

/// How many starts are drawn: with the samples below, fewer than a million samples in all.
const STARTS: u32 = 1_400;

/// One start in so many runs for long.
const LONG_START: u32 = 8;

/// After so many samples a start is replayed.
const SETTLING: &[u32] = &[500];

/// After so many samples each a start that runs for long is replayed.
const LONG_SETTLING: &[u32] = &[500, 1_500];

/// The state of the generator before the first number.
const SEED: u64 = 1;

/// The generator of pseudo-random numbers: Knuth's linear congruence modulo 2^64. The upper
/// bits of a state tell more than the lower ones.
#[derive(Clone, Copy)]
struct Generator {
    state: u64,
}

impl Generator {
    /// The state after this one.
    fn next(self) -> Generator {
        let state = self.state.wrapping_mul(6_364_136_223_846_793_005);
        Generator {
            state: state.wrapping_add(1_442_695_040_888_963_407),
        }
    }

    /// A number of bits from 1 to the most.
    fn size(self, most: u32) -> u32
        requires { 1 ≤ most }
        ensures some { 1 ≤ result }
        ensures few { result ≤ most }
    {
        1 + (self.state >> 33) as u32 % most
    }

    /// A word of up to so many bits, the sign among them.
    fn word(self, format: &Format, bits: u32) -> i64
        requires some { 1 ≤ bits }
        requires few { bits ≤ 64 }
        ensures { IsWord format.now result }
    {
        let size = ((self.state % (1 << 63)) >> (64 - bits)) as i64;
        let number = if self.state < 1 << 63 { size } else { -size };
        if format.fits(i128::from(number)) {
            number
        } else {
            0
        }
    }
}

/// Draws words for the registers, and gives the generator after them.
fn draw_registers(net: &Netlist, registers: &mut [i64], before: Generator) -> Generator
    requires { AreRegisters net.now registers.old }
    ensures { AreRegisters net.now registers.new }
{
    let format = net.format();
    let mut generator = before;
    for place in 0..registers.len() {
        let drawn = generator.next();
        generator = drawn.next();
        registers[place] = generator.word(&format, drawn.size(format.width()));
    }
    generator
}

impl<'a> CycleQuestion<'a> {
    /// The limit cycle that comes of the first of so many drawn starts that leads to one.
    pub(crate) fn drawn_cycle(&self, alloc: Global) -> Result<Option<Cycle>, NoMemory>
        ensures { IfOk result (λ cycle. IfSome cycle
            (IsCycleBy (runs_of self.now.subject.now.net.now) self.now.periods)) }
    {
        let mut generator = Generator { state: SEED };
        for turn in 0..STARTS {
            let mut level = level_registers(alloc, self.subject.net, 0)?;
            let registers = level.as_mut_slice();
            generator = draw_registers(self.subject.net, registers, generator);
            let settling = if turn % LONG_START == 0 {
                LONG_SETTLING
            } else {
                SETTLING
            };
            if let Some(cycle) = self.settled_cycle(alloc, registers, settling)? {
                return Ok(Some(cycle));
            }
        }
        Ok(None)
    }
}
