// Which netlists have a program.
#![tactic(auto, using(dsv_algebra::proofs::Casts::casts))]

ghost use Rattle.std.specs.Prelude.{◌≡◌, ◌<◌, ◌≤◌, ◌↔◌, cond, length, IsTrue, None, IfSome};
ghost use Rattle.dsv_netlist.specs.Conditions.{is_fit};
ghost use Rattle.dsv_c.specs.Codable.{IsCodable, HasConstant, HasRoom, IsCodableNode};
ghost use Rattle.dsv_c.specs.Codable.{IsWideValue, node_at};

use dsv_netlist::{Netlist, Node};

/// The node of this number.
fn node_at(net: &Netlist, i: u32) -> Node
    requires { i < length net.now.nodes }
    ensures { result ≡ node_at net.now i }
{
    net.node(i)
}

/// Whether a node's coefficient is a constant of C.
fn has_constant(node: &Node) -> bool
    ensures { IsTrue result ↔ HasConstant node.now }
{
    match node {
        Node::MulConst { coeff, .. } => coeff.unsigned_abs() < 1 << 63,
        _ => true,
    }
}

/// Whether a node's value needs no more than `int64_t`.
fn has_room(net: &Netlist, i: u32) -> bool
    requires { i < length net.now.nodes }
    ensures { IsTrue result ↔ HasRoom net.now i }
{
    let room = 1i128 << net.format().width();
    net.bound(i) + room < 1i128 << 63
}

/// Whether a node has an expression.
fn is_codable_node(net: &Netlist, i: u32) -> bool
    requires { i < length net.now.nodes }
    ensures { IsTrue result ↔ IsCodableNode net.now i }
{
    has_constant(&node_at(net, i)) && has_room(net, i)
}

/// How many values a node fits.
fn fits(node: &Node) -> u32
    ensures value { result ≡ cond (is_fit node.now) 1 0 }
    ensures small { result ≤ 1 }
{
    match node {
        Node::Fit(_) => 1,
        _ => 0,
    }
}

/// The number of the first value of a netlist that needs more than 64 bits, counted from 0 as
/// reports count values. A netlist without one has a program.
pub fn wide_value(net: &Netlist) -> Option<u32>
    ensures none { (result ≡ None) ↔ IsCodable net.now }
    ensures wide { IfSome result (IsWideValue net.now) }
{
    let mut count = 0;
    for i in 0..net.len() {
        if !is_codable_node(net, i) {
            return Some(count);
        }
        count += fits(&node_at(net, i));
    }
    None
}
