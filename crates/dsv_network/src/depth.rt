// What a depth shows.
ghost use Rattle.std.specs.Prelude.{◌≡◌, IfOk, None};
ghost use Rattle.dsv_network.specs.Gains.{ranges_from, ranges_of};

use crate::ends::{Ends, SampleEnds};
use crate::network::Network;
use crate::pass::{Pass, add_sample};
use crate::ranges::{Ranges, hulls, hulls_after};
use crate::signal::Signal;
use crate::starts::start_pass;
use dsv_base::NoMemory;
use std::alloc::Global;

/// The ranges of so many samples and one more, in runs from registers of zeros, and of the last of
/// them after any registers in their ranges.
fn ranges_from(
    alloc: Global,
    nodes: &[Signal],
    next: &[u32],
    depth: u32,
    pass: Pass,
) -> Result<Option<Ranges>, NoMemory>
    ensures { IfOk result
        (λ ranges. ranges ≡ ranges_from nodes.now next.now depth pass None) }
{
    let mut pass = pass;
    let mut seen = None;
    for _ in 0..depth {
        let SampleEnds { run, .. } = add_sample(alloc, nodes, next, &mut pass)?;
        let Ends::Words(now) = run else {
            return Ok(None);
        };
        seen = Some(hulls_after(alloc, seen, now)?);
    }
    let SampleEnds { run, step } = add_sample(alloc, nodes, next, &mut pass)?;
    let Ends::Words(now) = run else {
        return Ok(None);
    };
    let Ends::Words(last) = step else {
        return Ok(None);
    };
    let all = hulls_after(alloc, seen, now)?;
    Ok(Some(hulls(alloc, &all, &last)?))
}

/// What a depth shows of the runs of a network, from registers whose symbols have these ranges:
/// the ranges of what a sample shows, if they are ranges of words. It takes one pass over as many
/// samples as the depth and one more.
pub fn ranges_of(
    alloc: Global,
    net: &Network,
    starts: Ranges,
    depth: u32,
) -> Result<Option<Ranges>, NoMemory>
    ensures { IfOk result (λ ranges. ranges ≡ ranges_of net.now starts depth) }
{
    let pass = start_pass(alloc, net, starts)?;
    ranges_from(
        alloc,
        net.nodes.as_slice(),
        net.next.as_slice(),
        depth,
        pass,
    )
}
