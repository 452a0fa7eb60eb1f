// Boxes of registers, and whether a sample keeps them.
ghost use Rattle.std.specs.Prelude.{◌≡◌, ◌<◌, ◌≤◌, ◌-◌, ◌^◌, ◌&&◌, if◌then◌else◌, suc};
ghost use Rattle.std.specs.Prelude.{length, drop, IfOk};
ghost use Rattle.dsv_netlist.specs.Conditions.{is_fit};
ghost use Rattle.dsv_linear.specs.Known.{are_words};
ghost use Rattle.dsv_gain.specs.Boxes.{range_of, node_range, range_in, fits_before};
ghost use Rattle.dsv_network.specs.Gains.{none_range};
ghost use Rattle.dsv_gain.specs.Boxes.{is_inside, is_known_inside, is_kept};
ghost use Rattle.dsv_gain.specs.Narrowing.{all_of};

use dsv_base::NoMemory;
use dsv_linear::{Range, are_words};
use dsv_netlist::Node;
use dsv_network::Ranges;
use dsv_word::Format;
use std::alloc::Global;

/// What is known of a sample: the ranges of its input, of what its registers begin with, and of all
/// that it fits, in their order.
#[derive(Clone, Copy)]
pub(crate) struct Known<'a> {
    pub input: Range,
    pub registers: &'a [Range],
    pub fitted: &'a [Range],
}

/// The range of this number, where there is one.
fn range_of(ranges: &[Range], i: usize) -> Option<Range>
    ensures { result ≡ range_of ranges.now i }
{
    if i < ranges.len() {
        Some(ranges[i])
    } else {
        None
    }
}

/// Whether a node fits its value.
fn is_fit(node: &Node) -> bool
    ensures { result ≡ is_fit node.now }
{
    match node {
        Node::Fit(_) => true,
        _ => false,
    }
}

/// The count after a node, which counts where it fits its value.
fn count_after(count: usize, node: &Node) -> usize
    requires { count < 2 ^ 64 - 1 }
    ensures { result ≡ (if is_fit node.now then suc count else count) }
{
    if is_fit(node) { count + 1 } else { count }
}

/// How many of the first so many nodes fit their values.
fn fits_before(nodes: &[Node], i: usize) -> usize
    requires { i ≤ length nodes.now }
    ensures { result ≡ fits_before nodes.now i }
{
    let mut count = 0usize;
    for k in 0..i {
        count = count_after(count, &nodes[k]);
    }
    count
}

/// Whether every number of the one is in the other.
fn is_inside(r: &Range, s: &Range) -> bool
    ensures { result ≡ is_inside r.now s.now }
{
    !(r.low.get() < s.low.get()) && !(s.high.get() < r.high.get())
}

/// Whether a register's range has words as its ends, and holds 0 and what the register is loaded
/// with, where that is known.
fn holds_loaded(format: &Format, loaded: Option<Range>, r: &Range) -> bool
    ensures { result ≡ (are_words format.now r.now && is_inside none_range r.now
        && is_known_inside loaded r.now) }
{
    if !are_words(format, r) || !is_inside(&Range::between(&0, &0), r) {
        return false;
    }
    match loaded {
        Some(loaded) => is_inside(&loaded, r),
        None => false,
    }
}

impl Known<'_> {
    /// The range of what a node gives, where, of all that is fitted, the range of this number is
    /// the next.
    fn node_range(&self, place: usize, node: &Node) -> Option<Range>
        ensures { result ≡ node_range self.now.input self.now.registers.now
            (drop place self.now.fitted.now) node.now }
    {
        match node {
            Node::Input => Some(self.input),
            Node::Reg(register) => range_of(self.registers, *register as usize),
            Node::Fit(_) => range_of(self.fitted, place),
            _ => None,
        }
    }

    /// The range of what the node of this number gives, where it gives words.
    pub(crate) fn range_in(&self, nodes: &[Node], i: u32) -> Option<Range>
        ensures { result ≡ range_in self.now.input self.now.registers.now self.now.fitted.now
            nodes.now i }
    {
        let i = i as usize;
        if i < nodes.len() {
            self.node_range(fits_before(nodes, i), &nodes[i])
        } else {
            None
        }
    }

    /// The ranges of what registers are loaded with, where each is known.
    pub(crate) fn loaded_ranges(
        &self,
        alloc: Global,
        nodes: &[Node],
        next: &[u32],
    ) -> Result<Option<Ranges>, NoMemory>
        ensures { IfOk result (λ loaded. loaded ≡ all_of (range_in self.now.input
            self.now.registers.now self.now.fitted.now nodes.now) next.now) }
    {
        let mut loaded = Ranges::new(alloc);
        for i in next {
            let Some(range) = self.range_in(nodes, *i) else {
                return Ok(None);
            };
            loaded.push(range)?;
        }
        Ok(Some(loaded))
    }

    /// Whether each register's range holds 0 and what the register is loaded with.
    pub(crate) fn is_kept(&self, format: &Format, nodes: &[Node], next: &[u32]) -> bool
        ensures { result ≡ is_kept format.now self.now.input self.now.registers.now
            self.now.fitted.now nodes.now next.now self.now.registers.now }
    {
        if self.registers.len() != next.len() {
            return false;
        }
        for j in 0..next.len() {
            let loaded = self.range_in(nodes, next[j]);
            if !holds_loaded(format, loaded, &self.registers[j]) {
                return false;
            }
        }
        true
    }
}
