// Registers that are any words.
ghost use Rattle.std.specs.Prelude.{◌≡◌, ◌≤◌, length, IfOk};
ghost use Rattle.dsv_gain.specs.Gains.{is_past, gives_past, hold_inputs, pasts};
ghost use Rattle.dsv_gain.specs.Gains.{register_symbols, words_network};

use crate::networks::{Quantity, network_of};
use crate::ranges::{past_symbol, push_copies, symbol_of};
use dsv_base::NoMemory;
use dsv_netlist::{Netlist, Node};
use dsv_network::{Network, Ranges};
use dsv_realise::RangedNetlist;
use std::alloc::Global;

/// Whether a node gives the input, or one of the first so many registers.
fn is_past(forward: u32, node: &Node) -> bool
    ensures { result ≡ is_past forward node.now }
{
    match node {
        Node::Input => true,
        Node::Reg(register) => *register < forward,
        _ => false,
    }
}

/// Whether the node of this number is such a one.
fn gives_past(forward: u32, nodes: &[Node], id: u32) -> bool
    ensures { result ≡ gives_past forward nodes.now id }
{
    match nodes.get(id as usize) {
        Some(node) => is_past(forward, node),
        None => false,
    }
}

/// Whether the first so many registers are loaded with inputs and from one another.
fn hold_inputs(forward: u32, nodes: &[Node], next: &[u32]) -> bool
    requires { forward ≤ length next.now }
    ensures { result ≡ hold_inputs forward nodes.now next.now }
{
    let first = &next[..forward as usize];
    first.iter().all(|id| gives_past(forward, nodes, *id))
}

/// How many of the first registers hold inputs of samples before, or 0.
fn pasts(net: &Netlist) -> u32
    ensures value { result ≡ pasts net.now }
    ensures few { result ≤ length net.now.next }
{
    let _count = net.len(); // its range, for the proof
    let forward = net.feed_forward();
    if hold_inputs(forward, net.nodes(), net.next_nodes()) {
        forward
    } else {
        0
    }
}

/// The ranges of the registers' symbols, where the first so many hold past inputs.
fn register_symbols(
    alloc: Global,
    net: &Netlist,
    count: u32,
    low: i64,
    high: i64,
) -> Result<Ranges, NoMemory>
    requires value { count ≡ pasts net.now }
    requires few { count ≤ length net.now.next }
    ensures { IfOk result (λ ranges. ranges ≡ register_symbols net.now low high) }
{
    let format = net.format();
    let mut ranges = Ranges::new(alloc);
    push_copies(&mut ranges, count, &past_symbol(low, high))?;
    push_copies(
        &mut ranges,
        net.registers() - count,
        &symbol_of(format.lo(), format.hi()),
    )?;
    Ok(ranges)
}

/// The ranges of the symbols of a subject's registers, which are words, or past inputs.
pub(crate) fn word_starts(alloc: Global, subject: &RangedNetlist) -> Result<Ranges, NoMemory>
    ensures { IfOk result (λ ranges. ranges
        ≡ register_symbols subject.now.net.now subject.now.low subject.now.high) }
{
    let count = pasts(subject.net);
    register_symbols(alloc, subject.net, count, subject.low, subject.high)
}

/// The network of a subject's runs in words, over inputs in its range.
pub(crate) fn words_network(alloc: Global, subject: &RangedNetlist) -> Result<Network, NoMemory>
    ensures { IfOk result
        (λ it. it ≡ words_network subject.now.net.now subject.now.low subject.now.high) }
{
    let input = symbol_of(subject.low, subject.high);
    network_of(alloc, subject.net, Quantity::Words, &input)
}
