// The terms of one sample, and of the registers after it: one pass over the nodes, which name only
// nodes before them. The terms of a sample never change afterwards, so a register is loaded by
// naming a term.
ghost use Rattle.std.specs.Prelude.{◌≡◌, ◌<◌, [], length, map, IfOk};
ghost use Rattle.std.specs.List.{All};
ghost use Rattle.dsv_netlist.specs.Conditions.{IsNetlist};
ghost use Rattle.dsv_term.specs.Terms.{KeepsTerms};
ghost use Rattle.dsv_unroll.specs.Rules.{term_at};
ghost use Rattle.dsv_unroll.specs.Goals.{sample_terms, sample_tests};
ghost use Rattle.dsv_unroll.specs.Beside.{sample_with};
ghost use Rattle.dsv_unroll.specs.Ready.{AreReady};

use crate::nodes::{Sample, SampleTerms, node_term, put_tested};
use crate::unroller::Unroller;
use dsv_base::NoMemory;
use dsv_term::{TermId, Terms};

impl<'a> Unroller<'a> {
    /// The terms of one sample, and the bit that is 1 where a value of it was no word or this bit
    /// is 1.
    #[tactic(auto, unfolding(crate::specs::Goals::sample_terms, crate::specs::Goals::sample_tests))]
    pub(crate) fn sample_terms(
        &self,
        terms: &mut Terms,
        sample: &Sample<'_>,
        overflowed: TermId,
    ) -> Result<SampleTerms, NoMemory>
        requires netlist { IsNetlist self.now.net.now }
        requires ready { AreReady self.now.net.now sample.now.registers.now sample.now.x terms.old
            [] overflowed }
        ensures built { IfOk result (λ made. sample_with terms.new made
            ≡ sample_terms sample.now.rule self.now.net.now sample.now.registers.now sample.now.x
            terms.old overflowed) }
        ensures tests { IfOk result (λ made. made.tested.items
            ≡ sample_tests sample.now.rule self.now.net.now sample.now.registers.now sample.now.x
            terms.old overflowed) }
        ensures kept { IfOk result (λ made. KeepsTerms terms.old terms.new) }
        ensures count { IfOk result
            (λ made. length made.ids.items ≡ length self.now.net.now.nodes) }
        ensures ready { IfOk result (λ made. AreReady self.now.net.now sample.now.registers.now
            sample.now.x terms.new made.ids.items made.overflowed) }
    {
        let net = self.net;
        let mut made = SampleTerms {
            ids: Vec::new(self.alloc),
            overflowed,
            tested: Vec::new(self.alloc),
        };
        for i in 0..net.len() {
            let node = net.node(i);
            let next = node_term(terms, net, sample, &made, node)?;
            put_tested(&mut made.tested, &node, next.tested)?;
            made.ids.push(next.id)?;
            made.overflowed = next.overflowed;
        }
        Ok(made)
    }

    /// The terms that the registers are loaded from.
    pub(crate) fn next_terms(&self, ids: &[TermId]) -> Result<Vec<TermId>, NoMemory>
        requires { All (λ k. k < length ids.now) self.now.net.now.next }
        ensures { IfOk result
            (λ registers. registers.items ≡ map (term_at ids.now) self.now.net.now.next) }
    {
        let net = self.net;
        let mut registers = Vec::new(self.alloc);
        for k in 0..net.registers() {
            let id = net.next(k);
            registers.push(ids[id as usize])?;
        }
        Ok(registers)
    }
}
