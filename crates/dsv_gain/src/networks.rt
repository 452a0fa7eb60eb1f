// The networks of netlists.
ghost use Rattle.std.specs.Prelude.{◌≡◌, map, IfOk};
ghost use Rattle.dsv_gain.specs.Networks.{near_of, shown_as, signal_of, network_of};

use dsv_algebra::NarrowInteger;
use dsv_base::{Items, NoMemory};
use dsv_linear::{Range, error_range, one, power};
use dsv_netlist::{Netlist, Node};
use dsv_network::{NearQuotient, Network, Signal};
use dsv_roundoff::{holds_at, multiples_of};
use dsv_word::Format;
use std::alloc::Global;

/// What the numbers of a netlist's network are.
#[derive(Clone, Copy, Debug, PartialEq, Eq)]
pub(crate) enum Quantity {
    /// Those of runs in words, which are whole numbers.
    Words,
    /// The differences of such runs from their exact runs.
    Differences,
}

/// A product rounded to a word, which has no error where it needs no rounding.
fn near_of(format: &Format, multiples: &[bool], of: u32) -> NearQuotient
    ensures { result ≡ near_of format.now multiples.now of }
{
    NearQuotient {
        of,
        divisor: power(format.frac_bits),
        bits: format.frac_bits,
        errors: if holds_at(multiples, of) {
            Range::between(&0, &0)
        } else {
            error_range(format)
        },
    }
}

/// What is fitted: words are checked, and differences aren't whole.
fn shown_as(quantity: Quantity, of: u32) -> Signal
    ensures { result ≡ shown_as quantity of }
{
    match quantity {
        Quantity::Words => Signal::Checked(of),
        Quantity::Differences => Signal::Shown(of),
    }
}

/// What a node gives, where an input's symbol has this range.
fn signal_of(
    format: &Format,
    quantity: Quantity,
    multiples: &[bool],
    input: &Range,
    node: &Node,
) -> Signal
    ensures { result ≡ signal_of format.now quantity multiples.now input.now node.now }
{
    match node {
        Node::Input => Signal::Outer(*input),
        Node::Reg(register) => Signal::Register(*register),
        Node::MulConst { coeff, of } => Signal::Product {
            coeff: NarrowInteger::from(*coeff),
            of: *of,
        },
        Node::Round(of) => Signal::Near(near_of(format, multiples, *of)),
        Node::Add(left, right) => Signal::Sum(*left, *right),
        Node::Sub(left, right) => Signal::Difference(*left, *right),
        Node::Fit(of) => shown_as(quantity, *of),
        Node::Scale(of) => Signal::Product {
            coeff: one(format),
            of: *of,
        },
    }
}

/// The network of a netlist, where an input's symbol has this range.
pub(crate) fn network_of(
    alloc: Global,
    net: &Netlist,
    quantity: Quantity,
    input: &Range,
) -> Result<Network, NoMemory>
    ensures { IfOk result (λ it. it ≡ network_of net.now quantity input.now) }
{
    let format = net.format();
    let multiples = multiples_of(alloc, &format, net.nodes())?;
    let mut nodes = Items::new(alloc);
    for node in net.nodes() {
        nodes.push(signal_of(&format, quantity, multiples.as_slice(), input, node))?;
    }
    Ok(Network {
        format,
        nodes,
        next: Items::from_slice(alloc, net.next_nodes())?,
    })
}
