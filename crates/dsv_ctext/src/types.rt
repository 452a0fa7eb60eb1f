// The types and the locals' numbers of nodes' expressions.
#![tactic(auto, using(dsv_algebra::proofs::Casts::casts))]

ghost use Rattle.std.specs.Prelude.{◌≡◌, ◌<◌, ◌≤◌, ◌^◌, ◌+◌, length};
ghost use Rattle.std.specs.Int.RustNames.{unsigned_abs};
ghost use Rattle.dsv_netlist.specs.Conditions.{NamesBelow};
ghost use Rattle.dsv_netlist.specs.Limits.{most_nodes};
ghost use Rattle.dsv_c.specs.Programs.{word_type};
ghost use Rattle.dsv_ctext.specs.Plans.{need_of, widened_type, node_type};
ghost use Rattle.dsv_ctext.specs.Plans.{AreTypes, AreLocals, AreSmall, locals_of_node};

use crate::nodes::{need_of, node_at};
use dsv_c::{CType, wider_type};
use dsv_netlist::{MOST_NODES, Netlist, Node};
use dsv_word::Format;

/// The type of words.
pub(crate) fn word_type(format: &Format) -> CType
    ensures { result ≡ word_type format.now }
{
    if format.width() < 33 {
        CType::Int32
    } else {
        CType::Int64
    }
}

/// The type of an expression that is made one of at least the type that is needed.
fn widened_type(need: CType, have: CType) -> CType
    ensures { result ≡ widened_type need have }
{
    match need {
        CType::Int64 => CType::Int64,
        _ => have,
    }
}

/// The type of a node's expression, over the types of those before it.
fn node_type(net: &Netlist, types: &[CType], node: &Node, i: u32) -> CType
    requires there { i < length net.now.nodes }
    requires before { i ≤ length types.now }
    requires back { NamesBelow i node.now }
    ensures { result ≡ node_type net.now types.now i node.now }
{
    match node {
        Node::Input | Node::Reg(_) | Node::Fit(_) => word_type(&net.format()),
        Node::Round(of) => wider_type(need_of(net, *of), types[*of as usize]),
        Node::MulConst { of, .. } | Node::Scale(of) => {
            widened_type(need_of(net, i), types[*of as usize])
        }
        Node::Add(left, right) | Node::Sub(left, right) => {
            wider_type(
                widened_type(need_of(net, i), types[*left as usize]),
                types[*right as usize],
            )
        }
    }
}

/// The types of all nodes' expressions, filled up with `Int`.
pub(crate) fn types_of(net: &Netlist) -> [CType; MOST_NODES]
    ensures { AreTypes net.now (length net.now.nodes) result }
{
    let mut types = [CType::Int; MOST_NODES];
    for i in 0..net.len() {
        let node = node_at(net, i);
        let made = node_type(net, &types, &node, i);
        types[i as usize] = made;
    }
    types
}

/// How many locals a node needs.
fn locals_of_node(node: &Node) -> u32
    ensures value { result ≡ locals_of_node node.now }
    ensures small { result ≤ 1 }
{
    match node {
        Node::Fit(_) => 1,
        _ => 0,
    }
}

/// How many locals stand before each node, filled up with 0.
pub(crate) fn locals_of(net: &Netlist) -> [u32; MOST_NODES]
    ensures value { AreLocals net.now (length net.now.nodes) result }
    ensures small { AreSmall (length net.now.nodes) result }
{
    let end = net.len();
    let mut locals = [0; MOST_NODES];
    let mut count = net.registers() + 1;
    for i in 0..end {
        let node = node_at(net, i);
        locals[i as usize] = count;
        count += locals_of_node(&node);
    }
    locals
}
