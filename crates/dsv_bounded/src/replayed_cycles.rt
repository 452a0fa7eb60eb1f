// Limit cycles of starts that are replayed.
ghost use Rattle.std.specs.Prelude.{◌≤◌, ℕ, IfOk, IfSome, IfNone};
ghost use Rattle.dsv_system.specs.Cycles.{Cycles};
ghost use Rattle.dsv_bounded.specs.Questions.{IsStart};
ghost use Rattle.dsv_netlist.specs.Systems.{runs_of};
ghost use Rattle.dsv_bounded.specs.Verdicts.{IsCycleBy};

use dsv_base::{NoMemory, WordList};
use dsv_meaning::{Cycle, CycleReplay};
use dsv_netlist::Netlist;
use dsv_realise::replay_cycle;
use std::alloc::Global;

/// The limit cycle of a netlist from a start, where it has one of a period up to `periods`.
pub(crate) fn replayed_cycle(
    alloc: Global,
    net: &Netlist,
    start: WordList,
    periods: u32,
) -> Result<Option<Cycle>, NoMemory>
    requires { IsStart net.now start }
    ensures cycle { IfOk result (λ cycle. IfSome cycle
        (IsCycleBy (runs_of net.now) periods)) }
    ensures none { IfOk result (λ cycle. IfNone cycle ((p : ℕ) → p ≤ periods →
        Cycles (runs_of net.now) start p → ⊥)) }
{
    let mut outputs = vec![in alloc; 0i64; periods as usize]?;
    let replay = replay_cycle(
        alloc,
        net,
        start.as_slice(),
        periods,
        outputs.as_mut_slice(),
    )?;
    match replay {
        CycleReplay::Returns { period, sounding } => {
            if !sounding {
                return Ok(None);
            }
            Ok(Some(Cycle {
                start,
                period,
                outputs: WordList::from_slice(alloc, &outputs[..period as usize])?,
            }))
        }
        CycleReplay::Clean => Ok(None),
    }
}
