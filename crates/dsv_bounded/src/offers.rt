// Lists of inputs that are tried before a search: each input is an end of the range, since the
// worst inputs of a linear system are. First come those that drive an exact value farthest in the
// last sample, by its answers to a pulse, and then the square waves, which excite a resonance
// of each period and, with the longest, the step response. Each list is replayed in the netlist,
// so nothing is claimed of how it came about; where none overflows, the search decides.
#![tactic(auto, using(dsv_algebra::proofs::Casts::casts))]

ghost use Rattle.std.specs.Prelude.{◌≡◌, ◌≤◌, ◌≤ℤ◌, length, IfOk, IfSome};
ghost use Rattle.std.specs.List.{All};
ghost use Rattle.dsv_system.specs.Systems.{AreInRange};
ghost use Rattle.dsv_word.specs.Words.{IsWord};
ghost use Rattle.dsv_realise.specs.RangedNetlists.{IsTraceIn};

use crate::end_list::EndList;
use crate::overflows::OverflowQuestion;
use dsv_base::{NoMemory, WordList};
use dsv_meaning::Trace;
use dsv_netlist::{Responses, pulse_responses};
use dsv_realise::{RangedNetlist, replayed_trace};
use std::alloc::Global;

/// The greatest input or the least one.
fn end_input(subject: &RangedNetlist, greatest: bool) -> i64
    ensures low { subject.now.low ≤ℤ result }
    ensures high { result ≤ℤ subject.now.high }
    ensures word { IsWord subject.now.net.now.format result }
{
    if greatest { subject.high } else { subject.low }
}

/// The list that drives the exact value of this number farthest in the last of so many samples: the
/// ends on the sides of its answers to a pulse, from the last sample back to the first.
fn driving_list(responses: &Responses, value: usize, samples: u32) -> EndList {
    let mut list = EndList::all_greatest();
    for after in 0..samples {
        list = list.preceded_by(&responses.answer(value, after));
    }
    list
}

/// The inputs of a list.
fn end_inputs(
    alloc: Global,
    subject: &RangedNetlist,
    list: EndList,
    samples: u32,
) -> Result<WordList, NoMemory>
    requires { samples ≤ 64 }
    ensures range { IfOk result (AreInRange subject.now.low subject.now.high) }
    ensures words { IfOk result (All (IsWord subject.now.net.now.format)) }
    ensures many { IfOk result (λ inputs. length inputs ≡ samples) }
{
    let mut inputs = WordList::new(alloc);
    for i in 0..samples {
        inputs.push(end_input(subject, list.is_greatest(i)))?;
    }
    Ok(inputs)
}

impl<'a> OverflowQuestion<'a> {
    /// The trace of a list, where it breaks the netlist.
    fn list_trace(&self, alloc: Global, list: EndList) -> Result<Option<Trace>, NoMemory>
        ensures { IfOk result
            (λ trace. IfSome trace (IsTraceIn self.now.subject.now self.now.samples)) }
    {
        let inputs = end_inputs(alloc, self.subject, list, self.samples)?;
        replayed_trace(alloc, self.subject, inputs.as_slice())
    }

    /// The trace of a list or of the list with the other ends, where one of them breaks the
    /// netlist.
    fn either_trace(&self, alloc: Global, list: EndList) -> Result<Option<Trace>, NoMemory>
        ensures { IfOk result
            (λ trace. IfSome trace (IsTraceIn self.now.subject.now self.now.samples)) }
    {
        match self.list_trace(alloc, list)? {
            Some(trace) => Ok(Some(trace)),
            None => self.list_trace(alloc, list.with_other_ends()),
        }
    }

    /// The first trace of the lists that change ends after each 1 sample, 2, and so on up to all.
    fn alternating_trace(&self, alloc: Global) -> Result<Option<Trace>, NoMemory>
        ensures { IfOk result
            (λ trace. IfSome trace (IsTraceIn self.now.subject.now self.now.samples)) }
    {
        for i in 0..self.samples {
            if let Some(trace) = self.either_trace(alloc, EndList::square_wave(i + 1))? {
                return Ok(Some(trace));
            }
        }
        Ok(None)
    }

    /// The first trace of the lists that drive an exact value farthest in the last sample.
    fn driving_trace(&self, alloc: Global) -> Result<Option<Trace>, NoMemory>
        ensures { IfOk result
            (λ trace. IfSome trace (IsTraceIn self.now.subject.now self.now.samples)) }
    {
        let responses = pulse_responses(alloc, self.subject.net, self.samples)?;
        for value in 0..responses.values() {
            let list = driving_list(&responses, value, self.samples);
            if let Some(trace) = self.either_trace(alloc, list)? {
                return Ok(Some(trace));
            }
        }
        Ok(None)
    }

    /// The trace of the first list that breaks the netlist, of some hundred that are offered by
    /// fixed rules.
    pub(crate) fn offered_trace(&self, alloc: Global) -> Result<Option<Trace>, NoMemory>
        ensures { IfOk result
            (λ trace. IfSome trace (IsTraceIn self.now.subject.now self.now.samples)) }
    {
        match self.driving_trace(alloc)? {
            Some(trace) => Ok(Some(trace)),
            None => self.alternating_trace(alloc),
        }
    }
}
