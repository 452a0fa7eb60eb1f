// Netlists and their steps.
ghost use Rattle.dsv_word.specs.Words.{IsWord};
ghost use Rattle.std.specs.Prelude.{◌≡◌, ◌<◌, ◌↔◌, [], length, pos, slice_get};
ghost use Rattle.std.specs.Prelude.{slice_index, Some, IsSome, IfSome, ◌<ℤ◌};
ghost use Rattle.std.specs.List.{All};
ghost use Rattle.dsv_netlist.specs.Nodes.{net_from, step_of};
ghost use Rattle.dsv_netlist.specs.Bounds.{bounds_of};
ghost use Rattle.dsv_netlist.specs.Conditions.{IsNetlist};
ghost use Rattle.dsv_netlist.specs.Counts.{counts_of};
ghost use Rattle.dsv_netlist.specs.Limits.{bound_limit};

use crate::bounds::bounds_of;
use crate::conditions::{all_name_back, all_name_words, all_read_below, fits_in, names_word};
use crate::node::Node;
use crate::step::{load, run_nodes, word_of};
use crate::{MOST_NODES, MOST_REGISTERS};
use dsv_system::{ExactList, MOST_EXACT};
use dsv_word::Format;
use std::marker::Model;

/// How many operations a sample takes: products by a coefficient, sums and differences, and
/// registers loaded.
#[derive(Clone, Copy, Debug, PartialEq, Eq)]
pub struct OpCounts {
    pub products: u32,
    pub sums: u32,
    pub moves: u32,
}

/// Nodes that refer backwards, a node whose value is the output, and for each register the node
/// that it is loaded from; beside them, the nodes' bounds. No output leads to the first
/// `feed_forward` registers; `new` takes that as given.
#[derive(Drop)]
pub struct Netlist {
    nodes: Vec<Node>,
    next: Vec<u32>,
    output: u32,
    feed_forward: u32,
    format: Format,
    bounds: [u128; MOST_NODES],
}

impl Model for Netlist {
    ghost use Rattle.dsv_netlist.specs.Nodes.{Net};

    ghost Value = { Net };

    ghost use Rattle.dsv_netlist.specs.Inside.{view_of, IsInside};

    ghost view = { view_of };

    ghost invariant = { IsInside };
}

impl Netlist {
    /// The netlist of these nodes, or None where they make none. It takes no memory.
    pub fn new(
        nodes: Vec<Node>,
        next: Vec<u32>,
        output: u32,
        feed_forward: u32,
        format: Format,
    ) -> Option<Netlist>
        ensures exact { IsSome result
            ↔ IsNetlist (net_from nodes.items next.items output feed_forward format) }
        ensures same { IfSome result (λ net. net
            ≡ net_from nodes.items next.items output feed_forward format) }
    {
        if nodes.len() > MOST_NODES
            || next.len() > MOST_REGISTERS
            || fits_in(&nodes) > MOST_EXACT
            || feed_forward as usize > next.len()
        {
            return None;
        }
        if !all_name_back(&nodes) || !all_read_below(&nodes, next.len()) {
            return None;
        }
        if !names_word(&nodes, output) || !all_name_words(&nodes, &next) {
            return None;
        }
        let bounds = bounds_of(&format, &nodes)?;
        Some(Netlist {
            nodes,
            next,
            output,
            feed_forward,
            format,
            bounds,
        })
    }

    /// The node of this number, from 0 on.
    pub fn node(&self, i: u32) -> Node
        requires { i < length self.now.nodes }
        ensures { slice_get self.now.nodes i ≡ Some result }
    {
        self.nodes[i as usize]
    }

    /// The nodes, in their order.
    pub fn nodes(&self) -> &[Node]
        ensures { result.now ≡ self.now.nodes }
    {
        self.nodes.as_slice()
    }

    /// The numbers of the nodes that the registers are loaded from, in their order.
    pub fn next_nodes(&self) -> &[u32]
        ensures { result.now ≡ self.now.next }
    {
        self.next.as_slice()
    }

    /// How many nodes there are.
    pub fn len(&self) -> u32
        ensures value { result ≡ length self.now.nodes }
        ensures netlist { IsNetlist self.now }
    {
        self.nodes.len() as u32
    }

    /// The number of the node that this register is loaded from.
    pub fn next(&self, reg: u32) -> u32
        requires { reg < length self.now.next }
        ensures { slice_get self.now.next reg ≡ Some result }
    {
        self.next[reg as usize]
    }

    /// How many registers there are.
    pub fn registers(&self) -> u32
        ensures { result ≡ length self.now.next }
    {
        self.next.len() as u32
    }

    /// The number of the node whose value is the output.
    pub fn output(&self) -> u32
        ensures { result ≡ self.now.output }
    {
        self.output
    }

    /// How many of the first registers no output leads to.
    pub fn feed_forward(&self) -> u32
        ensures { result ≡ self.now.feed_forward }
    {
        self.feed_forward
    }

    /// The format of the words.
    pub fn format(&self) -> Format
        ensures { result ≡ self.now.format }
    {
        self.format
    }

    /// The bound of the node of this number: from registers and an input that are words its value
    /// isn't greater in size.
    pub fn bound(&self, i: u32) -> i128
        requires { i < length self.now.nodes }
        ensures value { result ≡ pos (slice_index (bounds_of self.now.format self.now.nodes) i) }
        ensures small { result <ℤ pos bound_limit }
    {
        self.bounds[i as usize] as i128
    }

    /// How many operations a sample takes.
    pub fn counts(&self) -> OpCounts
        ensures { result ≡ counts_of self.now }
    {
        let nodes = self.nodes.as_slice();
        OpCounts {
            products: nodes.iter().filter(|node| node.is_product()).count() as u32,
            sums: nodes.iter().filter(|node| node.is_sum()).count() as u32,
            moves: self.next.len() as u32,
        }
    }

    /// One sample: answers the output, loads the registers, and appends the exact values, one for
    /// each Fit node in the order of the nodes: the value before it is fitted. Registers and input
    /// are words. It takes no memory.
    pub fn step(&self, regs: &mut [i64], x: i64, exact: &mut ExactList) -> i64
        requires registers { length regs.old ≡ length self.now.next }
        requires words { All (IsWord self.now.format) regs.old }
        requires input { IsWord self.now.format x }
        requires empty { exact.old.items ≡ [] }
        ensures output { result ≡ (step_of self.now regs.old x).y }
        ensures registers { regs.new ≡ (step_of self.now regs.old x).past }
        ensures exact { exact.new.items ≡ (step_of self.now regs.old x).exact }
        ensures word { IsWord self.now.format result }
        ensures words { All (IsWord self.now.format) regs.new }
    {
        let nodes = self.nodes.as_slice();
        let count = nodes.len();
        let values = run_nodes(&self.format, nodes, regs, &x, exact);
        let done = &values[..count];
        load(&self.format, self.next.as_slice(), done, regs);
        word_of(&self.format, &done[self.output as usize])
    }
}
