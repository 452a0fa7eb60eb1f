// Subjects beside their netlists, which are made once for all questions.
ghost use Rattle.std.specs.Prelude.{◌≡◌, ◌≤ℤ◌, IfOk};
ghost use Rattle.std.specs.List.{All};
ghost use Rattle.dsv_netlist.specs.Counts.{counts_of};
ghost use Rattle.dsv_netlist.specs.Systems.{runs_of};
ghost use Rattle.dsv_system.specs.Systems.{Agree};
ghost use Rattle.dsv_word.specs.Words.{IsWord};
ghost use Rattle.dsv_realise.specs.Runs.{rows_of};

use crate::ranged_netlist::RangedNetlist;
use crate::simulation::simulate_netlist;
use crate::subject::Subject;
use dsv_base::NoMemory;
use dsv_netlist::Netlist;
use dsv_system::Rows;
use std::alloc::Global;

/// A subject, its netlist, and the least and the greatest of its inputs, which are words.
#[derive(Drop)]
pub struct Asking<'a, S: Subject> {
    pub subject: &'a S,
    pub net: Netlist,
    pub low: i64,
    pub high: i64,
    ghost low_word: { IsWord net.format low },
    ghost high_word: { IsWord net.format high },
    ghost order: { low ≤ℤ high },
    ghost same_net: { net ≡ (S.view subject.now).net },
    ghost same_low: { low ≡ (S.view subject.now).low },
    ghost same_high: { high ≡ (S.view subject.now).high },
    ghost products: { (counts_of net).products ≡ (S.view subject.now).products },
    ghost runs: { Agree (runs_of net) (S.view subject.now).runs },
}

impl<'a, S: Subject> Asking<'a, S> {
    /// The subject beside its netlist.
    pub fn of(alloc: Global, subject: &'a S) -> Result<Asking<'a, S>, NoMemory>
        ensures { IfOk result (λ asking. asking.subject.now ≡ subject.now) }
    {
        let made = subject.netlist(alloc)?;
        Ok(Asking {
            subject,
            net: made.net,
            low: made.low,
            high: made.high,
        })
    }

    /// The netlist with the range of its inputs.
    pub fn ranged_netlist(&self) -> RangedNetlist<'_>
        ensures net { result.net.now ≡ (S.view self.now.subject.now).net }
        ensures low { result.low ≡ (S.view self.now.subject.now).low }
        ensures high { result.high ≡ (S.view self.now.subject.now).high }
        ensures runs { Agree (runs_of result.net.now) (S.view self.now.subject.now).runs }
    {
        RangedNetlist::new(&self.net, self.low, self.high)
    }

    /// The rows of the subject over these inputs, from registers of zeros.
    pub fn rows(&self, alloc: Global, inputs: &[i64]) -> Result<Rows, NoMemory>
        requires { All (IsWord (S.view self.now.subject.now).runs.format) inputs.now }
        ensures { IfOk result (λ rows. rows
            ≡ rows_of (S.view self.now.subject.now) inputs.now) }
    {
        simulate_netlist(alloc, &self.net, inputs)
    }
}
