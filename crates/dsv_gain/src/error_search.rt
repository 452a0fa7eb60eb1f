// Offers of boxes and depths, found by passes over differences. Nothing is claimed of them: what an
// offer shows is decided by `error_of`.
ghost use Rattle.std.specs.Prelude.{◌≡◌, ◌<◌, IfOk, IfSome, Some};
ghost use Rattle.dsv_gain.specs.Errors.{error_of};

use crate::error_ranges::{differences_in, differences_network, error_of, ranges_from, symbols_of};
use crate::roundoff::ErrorBound;
use dsv_base::{Items, NoMemory};
use dsv_linear::Range;
use dsv_netlist::{Netlist, Node};
use dsv_network::{
    Ends, Network, Pass, Ranges, SampleEnds, add_sample, has_settled, hulls, hulls_after,
    start_pass,
};
use dsv_roundoff::{RoundoffOffer, WordRange};
use dsv_word::Format;
use std::alloc::Global;

/// The first sample after which it is looked whether ranges still grow.
const FIRST_MARK: u32 = 16;

/// A box of no differences.
fn empty_box(alloc: Global, count: u32) -> Result<Items<WordRange>, NoMemory> {
    let mut list = Items::new(alloc);
    for _ in 0..count {
        list.push(WordRange { low: 0, high: 0 })?;
    }
    Ok(list)
}

/// Whether two lists have the same ranges.
fn are_same(a: &[Range], b: &[Range]) -> bool {
    if a.len() != b.len() {
        return false;
    }
    for i in 0..a.len() {
        if a[i] != b[i] {
            return false;
        }
    }
    true
}

/// The ranges of what is fitted up to one more sample, of runs from registers without differences,
/// if they are known.
fn seen_after(
    alloc: Global,
    network: &Network,
    pass: &mut Pass,
    seen: Option<Ranges>,
) -> Result<Option<Ranges>, NoMemory> {
    let (nodes, next) = (network.nodes.as_slice(), network.next.as_slice());
    let SampleEnds { run, .. } = add_sample(alloc, nodes, next, pass)?;
    match run {
        Ends::Words(now) => Ok(Some(hulls_after(alloc, seen, now)?)),
        Ends::Leaves(_) => Ok(None),
    }
}

/// The ranges of the differences of all that is fitted, in runs from registers without differences,
/// over so many samples that they didn't grow in the later half of them.
fn grown_ranges(
    alloc: Global,
    net: &Netlist,
    network: &Network,
    limit: u32,
) -> Result<Option<Ranges>, NoMemory> {
    let list = empty_box(alloc, net.registers())?;
    let starts = symbols_of(alloc, list.as_slice())?;
    let mut pass = start_pass(alloc, network, starts)?;
    let mut seen: Option<Ranges> = None;
    let mut before = Ranges::new(alloc);
    let mut mark = FIRST_MARK;
    for sample in 0..limit {
        let Some(all) = seen_after(alloc, network, &mut pass, seen)? else {
            return Ok(None);
        };
        if sample == mark {
            if are_same(all.as_slice(), before.as_slice()) {
                return Ok(Some(all));
            }
            before = Ranges::from_slice(alloc, all.as_slice())?;
            mark = mark.saturating_mul(2);
        }
        seen = Some(all);
    }
    Ok(seen)
}

/// The ranges of registers that are loaded from one another as well.
fn register_ranges(
    alloc: Global,
    ranges: &[Range],
    nodes: &[Node],
    next: &[u32],
) -> Result<Option<Ranges>, NoMemory> {
    let mut list = Ranges::new(alloc);
    for _ in next {
        list.push(Range::between(&0, &0))?;
    }
    for _ in next {
        let known = differences_in(list.as_slice(), ranges);
        let Some(loaded) = known.loaded_ranges(alloc, nodes, next)? else {
            return Ok(None);
        };
        if are_same(loaded.as_slice(), list.as_slice()) {
            return Ok(Some(list));
        }
        list = loaded;
    }
    Ok(Some(list))
}

/// A range with an eighth of its width and one word more at both ends, as far as there are words;
/// one of no difference stays.
fn widened_range(format: &Format, range: &Range) -> WordRange {
    let (low, high) = (range.low.get(), range.high.get());
    if low == 0 && high == 0 {
        return WordRange { low: 0, high: 0 };
    }
    let more = high.saturating_sub(low) / 8 + 1;
    let least = i128::from(format.lo()).max(low.min(0).saturating_sub(more));
    let greatest = i128::from(format.hi()).min(high.max(0).saturating_add(more));
    WordRange {
        low: i64::try_from(least).unwrap_or(0),
        high: i64::try_from(greatest).unwrap_or(0),
    }
}

/// The box of these ranges.
fn widened_box(
    alloc: Global,
    format: &Format,
    ranges: &[Range],
) -> Result<Items<WordRange>, NoMemory> {
    let mut list = Items::new(alloc);
    for range in ranges {
        list.push(widened_range(format, range))?;
    }
    Ok(list)
}

/// What a box is tested with: the format and the sample of a netlist, the network of its
/// differences, and the box.
#[derive(Clone, Copy)]
struct BoxTest<'a> {
    format: Format,
    network: &'a Network,
    nodes: &'a [Node],
    next: &'a [u32],
    ranges: &'a [Range],
}

/// The search for a depth between two samples.
#[derive(Drop)]
struct DepthSearch {
    /// The pass over differences from the box.
    pass: Pass,
    /// The ranges of what is fitted in runs from registers without differences.
    seen: Option<Ranges>,
    /// The last sample so far after which differences from the box are in it again.
    depth: Option<u32>,
}

/// What a sample comes to.
#[derive(Drop)]
enum DepthTurn {
    Over(Option<u32>),
    Next(DepthSearch),
}

impl BoxTest<'_> {
    /// Whether the box holds what registers are loaded with, where these are the ranges of runs so
    /// far and of the sample after the box.
    fn is_kept(&self, alloc: Global, seen: &Ranges, last: &Ranges) -> Result<bool, NoMemory> {
        let both = hulls(alloc, seen, last)?;
        let known = differences_in(self.ranges, both.as_slice());
        Ok(known.is_kept(&self.format, self.nodes, self.next))
    }

    /// One sample.
    fn turn(&self, alloc: Global, sample: u32, search: DepthSearch) -> Result<DepthTurn, NoMemory> {
        let DepthSearch {
            mut pass,
            seen,
            depth,
        } = search;
        let signals = self.network.nodes.as_slice();
        let next = self.network.next.as_slice();
        let SampleEnds { run, step } = add_sample(alloc, signals, next, &mut pass)?;
        let now = match run {
            Ends::Words(now) => now,
            Ends::Leaves(_) => return Ok(DepthTurn::Over(depth)),
        };
        let seen = hulls_after(alloc, seen, now)?;
        let last = match step {
            Ends::Words(last) => last,
            Ends::Leaves(_) => {
                return Ok(DepthTurn::Next(DepthSearch {
                    pass,
                    seen: Some(seen),
                    depth,
                }));
            }
        };
        let is_kept = self.is_kept(alloc, &seen, &last)?;
        let depth = if is_kept { Some(sample) } else { depth };
        if has_settled(signals, &pass) {
            return Ok(DepthTurn::Over(depth));
        }
        Ok(DepthTurn::Next(DepthSearch {
            pass,
            seen: Some(seen),
            depth,
        }))
    }

    /// The last of the samples below the limit after which differences from the box are in it
    /// again.
    fn depth(&self, alloc: Global, pass: Pass, limit: u32) -> Result<Option<u32>, NoMemory> {
        let mut search = DepthSearch {
            pass,
            seen: None,
            depth: None,
        };
        for sample in 0..limit {
            match self.turn(alloc, sample, search)? {
                DepthTurn::Over(depth) => return Ok(depth),
                DepthTurn::Next(later) => search = later,
            }
        }
        Ok(search.depth)
    }
}

/// The last sample up to which differences settle that are in the box after it, where there is one.
fn kept_depth(
    alloc: Global,
    net: &Netlist,
    network: &Network,
    list: &[WordRange],
    limit: u32,
) -> Result<Option<u32>, NoMemory> {
    let pass = start_pass(alloc, network, symbols_of(alloc, list)?)?;
    let ranges = ranges_from(alloc, list)?;
    let test = BoxTest {
        format: net.format(),
        network,
        nodes: net.nodes(),
        next: net.next_nodes(),
        ranges: ranges.as_slice(),
    };
    test.depth(alloc, pass, limit)
}

/// An offer for a netlist, by the samples below the limit, where one is found.
fn offer_of(alloc: Global, net: &Netlist, limit: u32) -> Result<Option<RoundoffOffer>, NoMemory>
    ensures { IfOk result (λ offer. IfSome offer (λ it. it.depth < limit)) }
{
    let (nodes, next) = (net.nodes(), net.next_nodes());
    let network = differences_network(alloc, net)?;
    let Some(grown) = grown_ranges(alloc, net, &network, limit)? else {
        return Ok(None);
    };
    let Some(list) = register_ranges(alloc, grown.as_slice(), nodes, next)? else {
        return Ok(None);
    };
    let ranges = widened_box(alloc, &net.format(), list.as_slice())?;
    match kept_depth(alloc, net, &network, ranges.as_slice(), limit)? {
        Some(depth) if depth < limit => Ok(Some(RoundoffOffer { depth, ranges })),
        _ => Ok(None),
    }
}

/// How far the output of a netlist's runs is from that of its exact run, where the samples below
/// the limit show a bound.
pub fn error_bound(alloc: Global, net: &Netlist, limit: u32) -> Result<Option<ErrorBound>, NoMemory>
    ensures found { IfOk result
        (λ bound. IfSome bound (λ it. error_of net.now it.offer ≡ Some it.output)) }
    ensures within { IfOk result (λ bound. IfSome bound (λ it. it.offer.depth < limit)) }
{
    let Some(offer) = offer_of(alloc, net, limit)? else {
        return Ok(None);
    };
    match error_of(alloc, net, &offer)? {
        Some(output) => Ok(Some(ErrorBound { offer, output })),
        None => Ok(None),
    }
}
