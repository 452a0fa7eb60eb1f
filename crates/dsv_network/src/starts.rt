// Registers that are symbols of their own.
ghost use Rattle.std.specs.Prelude.{◌≡◌, ◌++◌, IfOk};
ghost use Rattle.dsv_network.specs.Gains.{symbol_registers, first_ranges, sample_symbols};
ghost use Rattle.dsv_network.specs.Gains.{start_pass};

use crate::network::Network;
use crate::pass::Pass;
use crate::ranges::Ranges;
use crate::signal::Signal;
use dsv_base::{Items, NoMemory};
use dsv_linear::{Form, Range, unit};
use std::alloc::Global;

/// What is known of so many registers that are symbols of their own.
#[tactic(auto, using(crate::proofs::Loops::symbols_more))]
fn symbol_registers(alloc: Global, count: usize) -> Result<Items<Form>, NoMemory>
    ensures { IfOk result (λ registers. registers ≡ symbol_registers count) }
{
    let mut registers = Items::new(alloc);
    for i in 0..count {
        registers.push(unit(alloc, i)?)?;
    }
    Ok(registers)
}

/// The range of the symbol that a node brings, as far as it is known before the first sample.
fn push_first_range(ranges: &mut Ranges, node: &Signal) -> Result<(), NoMemory>
    ensures { IfOk result (λ u. ranges.new ≡ ranges.old ++ first_ranges node.now) }
{
    match node {
        Signal::Outer(range) => ranges.push(*range),
        Signal::Near(_) => ranges.push(Range::between(&0, &0)),
        _ => Ok(()),
    }
}

/// The ranges of the symbols that nodes bring, as far as they are known before the first sample.
fn push_sample_symbols(ranges: &mut Ranges, nodes: &[Signal]) -> Result<(), NoMemory>
    ensures { IfOk result (λ u. ranges.new ≡ ranges.old ++ sample_symbols nodes.now) }
{
    for node in nodes {
        push_first_range(ranges, node)?;
    }
    Ok(())
}

/// Before the first sample: a symbol for each register, in these ranges.
pub fn start_pass(alloc: Global, net: &Network, starts: Ranges) -> Result<Pass, NoMemory>
    ensures { IfOk result (λ pass. pass ≡ start_pass net.now starts) }
{
    let mut ranges = starts;
    push_sample_symbols(&mut ranges, net.nodes.as_slice())?;
    Ok(Pass {
        format: net.format,
        count: net.next.len(),
        is_first: true,
        registers: symbol_registers(alloc, net.next.len())?,
        weights: Items::new(alloc),
        ranges,
        forms: Items::new(alloc),
    })
}
