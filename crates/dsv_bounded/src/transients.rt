// Registers that run without input, so that they may settle onto a cycle, and are then replayed.
// The samples before a cycle are the transient. A few dozen are enough where the poles are well
// inside the unit circle, and some hundred where one is near it; so registers are replayed several
// times on their way. Where all are 0 they stay so, and the run ends. Earlier inputs are 0 in the
// start that is replayed, since a cycle without input has them so.
#![tactic(auto, using(dsv_algebra::proofs::Casts::casts))]

ghost use Rattle.std.specs.Prelude.{IfOk, IfSome};
ghost use Rattle.dsv_word.specs.Words.{IsWord};
ghost use Rattle.dsv_bounded.specs.Questions.{IsStart, AreRegisters};
ghost use Rattle.dsv_netlist.specs.Systems.{runs_of};
ghost use Rattle.dsv_bounded.specs.Verdicts.{IsCycleBy};

use crate::cycles::CycleQuestion;
use crate::replayed_cycles::replayed_cycle;
use crate::words::zero_words;
use dsv_base::{NoMemory, WordList};
use dsv_meaning::Cycle;
use dsv_netlist::Netlist;
use dsv_system::ExactList;
use std::alloc::Global;

/// Loads the registers as so many samples with one input do.
pub(crate) fn drive(net: &Netlist, registers: &mut [i64], x: i64, samples: u32)
    requires registers { AreRegisters net.now registers.old }
    requires input { IsWord net.now.format x }
    ensures { AreRegisters net.now registers.new }
{
    for _ in 0..samples {
        let mut exact = ExactList::new();
        net.step(registers, x, &mut exact);
    }
}

/// Whether all registers hold 0, which they do from then on.
fn are_zero(registers: &[i64]) -> bool {
    registers.iter().all(|word| *word == 0)
}

/// The words of registers, with 0 in the feed-forward ones.
fn quiet_start(alloc: Global, net: &Netlist, registers: &[i64]) -> Result<WordList, NoMemory>
    requires { AreRegisters net.now registers.now }
    ensures { IfOk result (IsStart net.now) }
{
    let _count = net.len(); // its clause on the netlist, for the proof
    let forward = net.feed_forward();
    let mut start = zero_words(alloc, forward)?;
    start.extend_from_slice(registers.split_at(forward as usize).1)?;
    Ok(start)
}

/// Registers that all hold one word.
pub(crate) fn level_registers(alloc: Global, net: &Netlist, word: i64) -> Result<Vec<i64>, NoMemory>
    requires { IsWord net.now.format word }
    ensures { IfOk result (λ registers. AreRegisters net.now registers.items) }
{
    let mut registers = Vec::new(alloc);
    for i in 0..net.registers() {
        registers.push(word)?;
    }
    Ok(registers)
}

impl<'a> CycleQuestion<'a> {
    /// The limit cycle onto which registers settle without input, where they do so after one of
    /// these numbers of samples more.
    pub(crate) fn settled_cycle(
        &self,
        alloc: Global,
        registers: &mut [i64],
        settling: &[u32],
    ) -> Result<Option<Cycle>, NoMemory>
        requires { AreRegisters self.now.subject.now.net.now registers.old }
        ensures { IfOk result (λ cycle. IfSome cycle
            (IsCycleBy (runs_of self.now.subject.now.net.now) self.now.periods)) }
    {
        for samples in settling {
            drive(self.subject.net, registers, 0, *samples);
            if are_zero(registers) {
                return Ok(None);
            }
            let start = quiet_start(alloc, self.subject.net, registers)?;
            if let Some(cycle) = replayed_cycle(alloc, self.subject.net, start, self.periods)? {
                return Ok(Some(cycle));
            }
        }
        Ok(None)
    }
}
