// What is found of a candidate where words break a sentence.
ghost use Rattle.std.specs.Prelude.{◌≡◌, length, IfOk};
ghost use Rattle.dsv_unroll.specs.SetGoals.{set_inputs};
ghost use Rattle.dsv_invariant.specs.Breaking.{DoBreak, IsBreakOf};

use crate::check::Check;
use crate::exits::leaving_inputs;
use crate::outside::unsafe_sample;
use dsv_base::{NoMemory, WordList};
use dsv_template::{SetPart, Why};
use std::alloc::Global;

impl<'a> Check<'a> {
    /// What is found of the candidate where these words break a sentence: the break, as it replays.
    pub(crate) fn break_of(
        &self,
        alloc: Global,
        part: SetPart,
        words: &[i64],
    ) -> Result<Why, NoMemory>
        requires many { length words.now
            ≡ set_inputs self.now.net.now self.now.candidate.now part }
        requires breaks { DoBreak self.now.quantised.now self.now.candidate.now part words.now }
        ensures { IfOk result (IsBreakOf self.now.quantised.now self.now.candidate.now part) }
    {
        let registers = self.net.registers() as usize;
        match part {
            SetPart::Base => Ok(Why::Base {
                inputs: leaving_inputs(alloc, self.net, self.candidate, words)?,
            }),
            SetPart::Step => {
                let (start, inputs) = words.split_at(registers);
                Ok(Why::Leaves {
                    start: WordList::from_slice(alloc, start)?,
                    inputs: WordList::from_slice(alloc, inputs)?,
                })
            }
            SetPart::Safe => {
                unsafe_sample(alloc, self.net, &words[..registers], &words[registers])
            }
        }
    }
}
