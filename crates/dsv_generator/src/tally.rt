// How findings are counted.
ghost use Rattle.std.specs.Prelude.{◌≡◌, ◌-◌, ◌^◌, OnOk};
ghost use Rattle.dsv_generator.specs.Tallies.{is_never, does_happen, is_spent};
ghost use Rattle.dsv_generator.specs.Tallies.{empty_tally, with_finding, with_log, IsBelow};

use crate::finding::Finding;
use dsv_base::NoMemory;
use dsv_hints::Searched;
use dsv_meaning::Trace;
use dsv_tally::{SpentLog, SpentLogs, Tally};

/// Whether no inputs overflow.
fn is_never(found: &Searched<Trace>) -> bool
    ensures { result ≡ is_never found.now }
{
    matches!(found, Searched::Never(_))
}

/// Whether some inputs overflow, with a run that shows it.
fn does_happen(found: &Searched<Trace>) -> bool
    ensures { result ≡ does_happen found.now }
{
    matches!(found, Searched::Happens(_))
}

/// Whether the search gave up, so that nothing is known.
fn is_spent(found: &Searched<Trace>) -> bool
    ensures { result ≡ is_spent found.now }
{
    matches!(found, Searched::Spent(_))
}

/// Nothing is counted yet.
pub(crate) fn empty_tally() -> Tally
    ensures { result ≡ empty_tally }
{
    Tally {
        count: 0,
        stable: 0,
        unstable: 0,
        minimum: 0,
        nonminimum: 0,
        safe: 0,
        overflow: 0,
        spent: 0,
    }
}

/// The counts with one controller more.
pub(crate) fn with_finding(tally: Tally, finding: &Finding) -> Tally
    requires { IsBelow (2 ^ 32 - 1) tally }
    ensures { result ≡ with_finding finding.now tally }
{
    let is_stable = finding.stability.does_fall();
    let is_minimum = finding.minimum_phase.does_fall();
    Tally {
        count: tally.count + 1,
        stable: tally.stable + u32::from(is_stable),
        unstable: tally.unstable + u32::from(!is_stable),
        minimum: tally.minimum + u32::from(is_minimum),
        nonminimum: tally.nonminimum + u32::from(!is_minimum),
        safe: tally.safe + u32::from(is_never(&finding.overflow)),
        overflow: tally.overflow + u32::from(does_happen(&finding.overflow)),
        spent: tally.spent + u32::from(is_spent(&finding.overflow)),
    }
}

/// Keeps the log of a search that gave up.
pub(crate) fn keep_log(
    logs: &mut SpentLogs,
    index: u32,
    found: Searched<Trace>,
) -> Result<(), NoMemory>
    ensures { OnOk result (logs.new ≡ with_log index found logs.old) }
{
    match found {
        Searched::Never(_) | Searched::Happens(_) => Ok(()),
        Searched::Spent(log) => logs.push(SpentLog { index, log }),
    }
}
