// Lists of inputs that may break a netlist, where the gain doesn't rule it out. Each is replayed in
// it, so nothing is claimed of how it came about.
//
// The worst inputs of a linear system are ends of their range, by the signs of its answers to a
// pulse. Rounding seldom does its worst beside them, so a list may have to be longer than the worst
// case says. At the sample at which the ranges leave the words the lists of all values are tried;
// at later samples, to keep the time in bounds, those of the two values that are driven farthest.
ghost use Rattle.std.specs.Prelude.{◌≡◌, ◌<◌, ◌≤◌, ◌+◌, ◌-◌, ◌*◌, ◌≤ℤ◌, ℤ, length};
ghost use Rattle.std.specs.Prelude.{IfOk, IfSome};
ghost use Rattle.std.specs.List.{All};
ghost use Rattle.dsv_system.specs.Systems.{AreInRange};
ghost use Rattle.dsv_word.specs.Words.{IsWord};
ghost use Rattle.dsv_realise.specs.RangedNetlists.{IsTraceIn};
ghost use Rattle.dsv_netlist.specs.Systems.{runs_of};
ghost use Rattle.dsv_meaning.specs.Traces.{IsTraceBy};
ghost use Rattle.dsv_gain.specs.Subjects.{most_driven};

use crate::reaches::{Reach, Side, candidates, more_reaches, no_reaches};
use dsv_base::{NoMemory, WordList};
use dsv_meaning::Trace;
use dsv_netlist::{Responses, pulse_responses};
use dsv_realise::{RangedNetlist, replayed_trace};
use std::alloc::Global;

/// The most inputs of a list.
pub const MOST_DRIVEN: u32 = 4096;

/// How many values are tried at a sample after the first one.
const LATER_VALUES: usize = 2;

/// The input of the range that is nearest to 0.
fn quiet_input(subject: &RangedNetlist) -> i64
    ensures low { subject.now.low ≤ℤ result }
    ensures high { result ≤ℤ subject.now.high }
    ensures word { IsWord subject.now.net.now.format result }
{
    if 0 < subject.low {
        subject.low
    } else if subject.high < 0 {
        subject.high
    } else {
        0
    }
}

/// The input that drives a value to a side, where it answers so to a pulse.
fn driving_input(subject: &RangedNetlist, side: Side, answer: i128) -> i64
    ensures low { subject.now.low ≤ℤ result }
    ensures high { result ≤ℤ subject.now.high }
    ensures word { IsWord subject.now.net.now.format result }
{
    if answer == 0 {
        quiet_input(subject)
    } else if (0 < answer) == (side == Side::Upper) {
        subject.high
    } else {
        subject.low
    }
}

/// Where lists come from, and where they are replayed.
#[derive(Clone, Copy)]
struct Driver<'a> {
    subject: &'a RangedNetlist<'a>,
    responses: &'a Responses,
}

impl<'a> Driver<'a> {
    /// The inputs up to this sample that drive this value of it farthest to a side.
    fn driving_inputs(
        &self,
        alloc: Global,
        value: usize,
        sample: u32,
        side: Side,
    ) -> Result<WordList, NoMemory>
        requires { sample < most_driven }
        ensures range { IfOk result (AreInRange self.now.subject.now.low
            self.now.subject.now.high) }
        ensures words { IfOk result (All (IsWord self.now.subject.now.net.now.format)) }
        ensures many { IfOk result (λ inputs. length inputs ≤ most_driven) }
    {
        let mut inputs = WordList::new(alloc);
        for i in 0..sample + 1 {
            let answer = self.responses.answer(value, sample - i);
            inputs.push(driving_input(self.subject, side, answer))?;
        }
        Ok(inputs)
    }

    /// The trace of one of the lists that drive this value, where one breaks the netlist.
    fn value_trace(
        &self,
        alloc: Global,
        value: usize,
        sample: u32,
        sides: [Side; 2],
    ) -> Result<Option<Trace>, NoMemory>
        requires { sample < most_driven }
        ensures { IfOk result (λ trace. IfSome trace (IsTraceIn self.now.subject.now most_driven)) }
    {
        for side in sides.iter() {
            let inputs = self.driving_inputs(alloc, value, sample, *side)?;
            if let Some(trace) = replayed_trace(alloc, self.subject, inputs.as_slice())? {
                return Ok(Some(trace));
            }
        }
        Ok(None)
    }

    /// The trace of the first list that breaks the netlist, of those for so many values of this
    /// sample, the ones first that are driven farthest.
    fn sample_trace(
        &self,
        alloc: Global,
        reaches: &[Reach],
        sample: u32,
        most: usize,
    ) -> Result<Option<Trace>, NoMemory>
        requires { sample < most_driven }
        ensures { IfOk result (λ trace. IfSome trace (IsTraceIn self.now.subject.now most_driven)) }
    {
        let list = candidates(alloc, &self.subject.net.format(), reaches)?;
        for candidate in list.iter().rev().take(most) {
            let found = self.value_trace(alloc, candidate.value, sample, candidate.sides())?;
            if let Some(trace) = found {
                return Ok(Some(trace));
            }
        }
        Ok(None)
    }

    /// The trace of the first list that breaks the netlist, from this sample to another.
    fn first_trace(&self, alloc: Global, sample: u32, last: u32) -> Result<Option<Trace>, NoMemory>
        requires { last < most_driven }
        ensures { IfOk result (λ trace. IfSome trace (IsTraceIn self.now.subject.now most_driven)) }
    {
        let mut reaches = no_reaches(alloc, self.responses.values())?;
        for now in 0..last + 1 {
            reaches = more_reaches(alloc, self.subject, self.responses, &reaches, now)?;
            if now < sample {
                continue;
            }
            let most = if now == sample {
                reaches.len()
            } else {
                LATER_VALUES
            };
            if let Some(trace) = self.sample_trace(alloc, &reaches, now, most)? {
                return Ok(Some(trace));
            }
        }
        Ok(None)
    }
}

/// The last sample whose lists are tried.
fn last_sample(sample: u32) -> u32
    ensures few { result < most_driven }
    ensures near { sample < 2016 → result ≡ 2 * sample + 64 }
    ensures far { 2016 ≤ sample → result ≡ most_driven - 1 }
{
    if sample < (MOST_DRIVEN - 64) / 2 {
        2 * sample + 64
    } else {
        MOST_DRIVEN - 1
    }
}

/// A trace that breaks a netlist, found among the lists of inputs that drive exact values farthest:
/// those of this sample, and then those of the samples after it, up to twice as many and 64 more. A
/// list has at most 4,096 inputs.
pub fn driven_trace(
    alloc: Global,
    subject: &RangedNetlist,
    sample: u32,
) -> Result<Option<Trace>, NoMemory>
    ensures trace { IfOk result (λ trace. IfSome trace (IsTraceBy
        (runs_of subject.now.net.now) subject.now.low subject.now.high most_driven)) }
{
    let last = last_sample(sample);
    let responses = pulse_responses(alloc, subject.net, last + 1)?;
    let driver = Driver {
        subject,
        responses: &responses,
    };
    driver.first_trace(alloc, sample, last)
}
