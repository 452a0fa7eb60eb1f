// A run is unrolled, as in bounded model checking (Biere, Cimatti, Clarke and Zhu, 1999): each
// sample has terms of its own, over the inputs' terms and those that the sample before loads the
// registers from. Registers are thus no variables, and a goal is over the inputs and the start
// alone.
//
// One bit goes along with the registers. It is 1 where an exact value so far was no word; from
// there on it stays 1, so that no term after the first such value has to be right.
ghost use Rattle.std.specs.Prelude.{◌≡◌, IfOk};
ghost use Rattle.dsv_netlist.specs.Conditions.{IsNetlist};
ghost use Rattle.dsv_unroll.specs.Goals.{run_from, run_tests};
ghost use Rattle.dsv_term.specs.Terms.{KeepsTerms, HasBits};
ghost use Rattle.dsv_unroll.specs.Beside.{run_with};
ghost use Rattle.dsv_unroll.specs.Ready.{AreRunReady};

use crate::fitting::TestedTerm;
use crate::nodes::Sample;
use crate::rules::FitRule;
use crate::unroller::Unroller;
use dsv_base::NoMemory;
use dsv_term::{TermId, Terms};

/// The terms of the registers after a run, the one that is 1 where a value was no word, and the
/// tests of the exact values, in their order.
#[derive(Drop)]
pub(crate) struct RunTerms {
    pub registers: Vec<TermId>,
    pub overflowed: TermId,
    pub tested: Vec<Option<TestedTerm>>,
}

impl<'a> Unroller<'a> {
    /// The terms of a run over these inputs, from those of the registers.
    pub(crate) fn run_terms(
        &self,
        terms: &mut Terms,
        inputs: &[TermId],
        start: Vec<TermId>,
    ) -> Result<RunTerms, NoMemory>
        requires netlist { IsNetlist self.now.net.now }
        requires ready { AreRunReady self.now.net.now start.items inputs.now terms.old
            self.now.zero_bit }
        ensures built { IfOk result (λ run. run_with terms.new run
            ≡ run_from self.now.net.now inputs.now (record {
              terms = terms.old;
              registers = start.items;
              overflowed = self.now.zero_bit;
            })) }
        ensures tests { IfOk result (λ run. run.tested.items
            ≡ run_tests self.now.net.now inputs.now (record {
              terms = terms.old;
              registers = start.items;
              overflowed = self.now.zero_bit;
            })) }
        ensures kept { IfOk result (λ run. KeepsTerms terms.old terms.new) }
        ensures overflowed { IfOk result (λ run. HasBits terms.new run.overflowed 1) }
    {
        let mut registers = start;
        let mut overflowed = self.zero_bit;
        let mut tested = Vec::new(self.alloc);
        for x in inputs {
            let before = Sample {
                rule: FitRule::Tested,
                registers: &registers,
                x: *x,
            };
            let sample = self.sample_terms(terms, &before, overflowed)?;
            registers = self.next_terms(&sample.ids)?;
            overflowed = sample.overflowed;
            tested.extend_from_slice(&sample.tested)?;
        }
        Ok(RunTerms {
            registers,
            overflowed,
            tested,
        })
    }
}
