// The search for a depth, and the settling of its ranges.
ghost use Rattle.std.specs.Prelude.{◌≡◌, IfOk};
ghost use Rattle.dsv_network.specs.Gains.{best_or, gain_at, gain_turn, sample_turn};
ghost use Rattle.dsv_network.specs.Gains.{gain_from, gain_of};

use crate::ends::{Ends, SampleEnds};
use crate::network::Network;
use crate::outlook::{Gain, Outlook};
use crate::pass::{Pass, add_sample};
use crate::ranges::{Ranges, hulls, hulls_after};
use crate::signal::Signal;
use crate::start_parts::has_settled;
use crate::starts::start_pass;
use dsv_base::NoMemory;
use std::alloc::Global;

/// What is known between two samples.
#[derive(Drop)]
pub(crate) struct Search {
    /// The pass from registers in their ranges.
    pub pass: Pass,
    /// The ranges of what runs from registers of zeros show, in all samples so far, if
    /// there were any.
    pub seen: Option<Ranges>,
    /// The gain of the last sample, where it had one.
    pub best: Option<Gain>,
}

/// What one sample comes to.
#[derive(Drop)]
pub(crate) enum Turn {
    /// The search is over.
    Over(Outlook),
    /// It goes on.
    Next(Search),
}

/// The gain that was found, or else this.
fn best_or(other: Outlook, best: Option<Gain>) -> Outlook
    ensures { result ≡ best_or other best }
{
    match best {
        Some(gain) => Outlook::Safe(gain),
        None => other,
    }
}

/// The gain of a sample, after that of the sample before, if it had one.
fn gain_at(sample: u32, best: Option<Gain>, ranges: Ranges) -> Gain
    ensures { result ≡ gain_at sample best ranges }
{
    let depth = match best {
        Some(gain) => gain.depth,
        None => sample,
    };
    Gain {
        depth,
        settled: sample,
        ranges,
    }
}

/// After a sample that has a gain.
fn gain_turn(settled: bool, pass: Pass, seen: Ranges, gain: Gain) -> Turn
    ensures { result ≡ gain_turn settled pass seen gain }
{
    if settled {
        Turn::Over(Outlook::Safe(gain))
    } else {
        Turn::Next(Search {
            pass,
            seen: Some(seen),
            best: Some(gain),
        })
    }
}

/// One sample.
fn sample_turn(
    alloc: Global,
    nodes: &[Signal],
    next: &[u32],
    sample: u32,
    search: Search,
) -> Result<Turn, NoMemory>
    ensures { IfOk result (λ now. now ≡ sample_turn nodes.now next.now sample search) }
{
    let Search {
        mut pass,
        seen,
        best,
    } = search;
    let SampleEnds { run, step } = add_sample(alloc, nodes, next, &mut pass)?;
    let now = match run {
        Ends::Words(now) => now,
        Ends::Leaves(value) => {
            return Ok(Turn::Over(best_or(Outlook::Leaves { sample, value }, best)));
        }
    };
    let seen = hulls_after(alloc, seen, now)?;
    match step {
        Ends::Leaves(_) => Ok(Turn::Next(Search {
            pass,
            seen: Some(seen),
            best,
        })),
        Ends::Words(last) => {
            let ranges = hulls(alloc, &seen, &last)?;
            let settled = has_settled(nodes, &pass);
            Ok(gain_turn(settled, pass, seen, gain_at(sample, best, ranges)))
        }
    }
}

/// What the samples below the limit come to.
fn gain_from(
    alloc: Global,
    nodes: &[Signal],
    next: &[u32],
    limit: u32,
    search: Search,
) -> Result<Outlook, NoMemory>
    ensures { IfOk result (λ gain. gain ≡ gain_from nodes.now next.now limit 0 search) }
{
    let mut search = search;
    for sample in 0..limit {
        match sample_turn(alloc, nodes, next, sample, search)? {
            Turn::Over(outlook) => return Ok(outlook),
            Turn::Next(later) => search = later,
        }
    }
    Ok(best_or(Outlook::Deep, search.best))
}

/// What is found of the runs of a network from registers of zeros, of any length, by a pass over
/// the samples below the limit, from registers whose symbols have these ranges.
pub fn gain_of(
    alloc: Global,
    net: &Network,
    starts: Ranges,
    limit: u32,
) -> Result<Outlook, NoMemory>
    ensures { IfOk result (λ gain. gain ≡ gain_of net.now starts limit) }
{
    let search = Search {
        pass: start_pass(alloc, net, starts)?,
        seen: None,
        best: None,
    };
    gain_from(
        alloc,
        net.nodes.as_slice(),
        net.next.as_slice(),
        limit,
        search,
    )
}
