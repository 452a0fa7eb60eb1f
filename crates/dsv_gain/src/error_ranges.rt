// What a box of differences and a depth show of the output's difference.
ghost use Rattle.std.specs.Prelude.{◌≡◌, map, IfOk};
ghost use Rattle.dsv_network.specs.Gains.{none_range};
ghost use Rattle.dsv_gain.specs.Gains.{symbol_of_range};
ghost use Rattle.dsv_gain.specs.Errors.{range_from, differences_network, kept_range, error_of};

use crate::boxes::Known;
use crate::networks::{Quantity, network_of};
use crate::ranges::symbol_of;
use dsv_base::NoMemory;
use dsv_linear::Range;
use dsv_netlist::{Netlist, Node};
use dsv_network::{Network, Ranges, ranges_of};
use dsv_roundoff::{RoundoffOffer, WordRange};
use std::alloc::Global;

/// These ranges, as ranges of any numbers.
pub(crate) fn ranges_from(alloc: Global, list: &[WordRange]) -> Result<Ranges, NoMemory>
    ensures { IfOk result (λ ranges. ranges ≡ map range_from list.now) }
{
    let mut ranges = Ranges::new(alloc);
    for it in list {
        let range = Range::between(&i128::from(it.low), &i128::from(it.high));
        ranges.push(range)?;
    }
    Ok(ranges)
}

/// The ranges of the symbols of registers whose differences lie in these.
pub(crate) fn symbols_of(alloc: Global, list: &[WordRange]) -> Result<Ranges, NoMemory>
    ensures { IfOk result (λ ranges. ranges
        ≡ map symbol_of_range (map range_from list.now)) }
{
    let mut symbols = Ranges::new(alloc);
    for it in list {
        symbols.push(symbol_of(it.low, it.high))?;
    }
    Ok(symbols)
}

/// The network of a netlist's differences, of which an input has none.
pub(crate) fn differences_network(alloc: Global, net: &Netlist) -> Result<Network, NoMemory>
    ensures { IfOk result (λ it. it ≡ differences_network net.now) }
{
    network_of(alloc, net, Quantity::Differences, &symbol_of(0, 0))
}

/// What is known of the differences of a sample: an input has none.
pub(crate) fn differences_in<'a>(registers: &'a [Range], fitted: &'a [Range]) -> Known<'a>
    ensures input { result.input ≡ none_range }
    ensures registers { result.registers.now ≡ registers.now }
    ensures fitted { result.fitted.now ≡ fitted.now }
{
    Known {
        input: Range::between(&0, &0),
        registers,
        fitted,
    }
}

/// The range of the output's difference, where the box is kept.
fn kept_range(
    net: &Netlist,
    list: &[Range],
    ranges: &[Range],
    nodes: &[Node],
    next: &[u32],
) -> Option<Range>
    requires nodes { nodes.now ≡ net.now.nodes }
    requires next { next.now ≡ net.now.next }
    ensures { result ≡ kept_range net.now list.now ranges.now }
{
    let known = differences_in(list, ranges);
    if known.is_kept(&net.format(), nodes, next) {
        known.range_in(nodes, net.output())
    } else {
        None
    }
}

/// What an offer shows of a netlist: a range of words that holds how far its output is from that of
/// its exact run, in every sample of every run in which no exact value leaves the words. It takes
/// one pass over as many samples as the depth and one more.
pub fn error_of(
    alloc: Global,
    net: &Netlist,
    offer: &RoundoffOffer,
) -> Result<Option<Range>, NoMemory>
    ensures { IfOk result (λ range. range ≡ error_of net.now offer.now) }
{
    let (nodes, next) = (net.nodes(), net.next_nodes());
    let network = differences_network(alloc, net)?;
    let starts = symbols_of(alloc, offer.ranges.as_slice())?;
    let Some(ranges) = ranges_of(alloc, &network, starts, offer.depth)? else {
        return Ok(None);
    };
    let list = ranges_from(alloc, offer.ranges.as_slice())?;
    let (list, ranges) = (list.as_slice(), ranges.as_slice());
    Ok(kept_range(net, list, ranges, nodes, next))
}
