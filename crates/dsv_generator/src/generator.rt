// Controllers that are generated, and what is found of them.
ghost use Rattle.std.specs.Prelude.{IfOk};
ghost use Rattle.dsv_generator.specs.Tallies.{IsGeneratedFrom};

use crate::controllers::{quantised_from, states_after};
use crate::finding::finding_of;
use crate::tally::{empty_tally, keep_log, with_finding};
use dsv_base::NoMemory;
use dsv_tally::{Generated, SpentLogs};
use std::alloc::Global;

/// Over how many samples an overflow is sought.
pub const SAMPLES: u32 = 2;

/// How many conflicts each search may have.
pub const CONFLICTS: u32 = 50_000;

/// Generates so many controllers from a seed, decides for each whether it is stable and of minimum
/// phase, seeks an overflow, and counts what is found. The logs of searches that gave up are kept.
pub fn generate(alloc: Global, seed: u32, count: u32) -> Result<Generated, NoMemory>
    ensures { IfOk result (IsGeneratedFrom seed count) }
{
    let mut state = seed;
    let mut tally = empty_tally();
    let mut spent = SpentLogs::new(alloc);
    for index in 0..count {
        let states = states_after(state);
        let quantised = quantised_from(states);
        let finding = finding_of(alloc, &quantised)?;
        tally = with_finding(tally, &finding);
        keep_log(&mut spent, index, finding.overflow)?;
        state = states.fourth;
    }
    Ok(Generated { seed, tally, spent })
}
