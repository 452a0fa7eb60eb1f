// The expressions of nodes, as text.
#![tactic(auto, using(dsv_algebra::proofs::Casts::casts))]

ghost use Rattle.std.specs.Prelude.{◌≡◌, ◌<◌, ◌≤◌, length, slice_index, pos, ◌^◌};
ghost use Rattle.dsv_base.specs.Taking.{Writes};
ghost use Rattle.dsv_netlist.specs.Bounds.{bounds_of};
ghost use Rattle.dsv_ctext.specs.Plans.{IsPlan, need_of, one_of, sum_head, head_of};
ghost use Rattle.dsv_c.specs.Codable.{node_at};
ghost use Rattle.dsv_ctext.specs.Plans.{arity_of, left_of, right_of, sign_of, tail_of, is_operand};
ghost use Rattle.dsv_c.specs.Programs.{codes_of, code_at};
ghost use Rattle.dsv_c.specs.Meaning.{wider_type};
ghost use Rattle.dsv_ctext.specs.Plans.{type_at};
ghost use Rattle.dsv_ctext.specs.Texts.{code_text, name_limit};
ghost use Rattle.dsv_netlist.specs.Limits.{most_registers};
ghost use Rattle.dsv_netlist.specs.Conditions.{NamesBelow, ReadsBelow};
ghost use Rattle.std.specs.List.{All};

use crate::fragments::{Fragment, put_fragments};
use crate::names::{
    Labels, cast_text, left_parenthesis, put_local, put_product_head, right_parenthesis,
    rounded_head,
};
use dsv_base::{Failed, Sink, put_all};
use dsv_c::{CType, wider_type};
use dsv_netlist::{Netlist, Node};

/// A netlist with the types of its nodes' expressions, the numbers of their locals (0 of nodes
/// that have none), and names.
#[derive(Clone, Copy)]
pub(crate) struct Plan<'a> {
    pub(crate) net: &'a Netlist,
    pub(crate) types: &'a [CType],
    pub(crate) locals: &'a [u32],
    pub(crate) names: Labels<'a>,
}

/// The type that a node's value needs.
pub(crate) fn need_of(net: &Netlist, i: u32) -> CType
    requires { i < length net.now.nodes }
    ensures { result ≡ need_of net.now i }
{
    let room = 1i128 << net.format().width();
    if net.bound(i) + room < 1i128 << 31 {
        CType::Int32
    } else {
        CType::Int64
    }
}

/// The type of the helper function for a node's value.
pub(crate) fn helper_type(plan: &Plan, of: u32) -> CType
    requires there { of < length plan.now.net.now.nodes }
    requires typed { of < length plan.now.types.now }
    ensures { result ≡ wider_type (need_of plan.now.net.now of) (type_at plan.now.types.now of) }
{
    wider_type(need_of(plan.net, of), plan.types[of as usize])
}

/// The word that stands for 1.
pub(crate) fn one_of(net: &Netlist) -> i128
    ensures { result ≡ one_of net.now }
{
    1i128 << net.format().frac_bits
}

/// Writes a sum up to its left operand.
fn put_sum_head<K: Sink>(sink: &mut K, inner: bool, need: CType, have: CType) -> Result<(), Failed>
    ensures { Writes (K.seen sink.old) (K.seen sink.new) result (sum_head inner need have) }
{
    put_fragments(
        sink,
        &[
            Fragment::Bytes(left_parenthesis(inner)),
            Fragment::Bytes(cast_text(need, have)),
        ],
    )
}

/// How many nodes a node's expression stands on.
#[derive(Clone, Copy, Debug, PartialEq, Eq)]
pub(crate) enum Arity {
    None,
    One,
    Two,
}

/// The operands that stand in a node's expression.
#[derive(Clone, Copy)]
pub(crate) struct Operands {
    pub(crate) arity: Arity,
    pub(crate) left: u32,
    pub(crate) right: u32,
}

/// The operands of a node.
pub(crate) fn operands_of(node: Node) -> Operands
    ensures arity { result.arity ≡ arity_of node }
    ensures left { result.left ≡ left_of node }
    ensures right { result.right ≡ right_of node }
{
    match node {
        Node::Input | Node::Reg(_) | Node::Fit(_) => Operands {
            arity: Arity::None,
            left: 0,
            right: 0,
        },
        Node::Round(of) | Node::MulConst { of, .. } | Node::Scale(of) => Operands {
            arity: Arity::One,
            left: of,
            right: 0,
        },
        Node::Add(left, right) | Node::Sub(left, right) => Operands {
            arity: Arity::Two,
            left,
            right,
        },
    }
}

/// What stands between two operands.
fn sign_of(node: Node) -> &'static [u8]
    ensures { result.now ≡ sign_of node }
{
    match node {
        Node::Add(..) => b" + ",
        Node::Sub(..) => b" - ",
        _ => b"",
    }
}

/// What stands after the last operand.
fn tail_of(node: Node, inner: bool) -> &'static [u8]
    ensures { result.now ≡ tail_of node inner }
{
    match node {
        Node::Input | Node::Reg(_) | Node::Fit(_) => b"",
        Node::Round(_) => b")",
        _ => right_parenthesis(inner),
    }
}

/// Whether the first operand is one of an operator.
fn is_operand(node: Node) -> bool
    ensures { result ≡ is_operand node }
{
    !matches!(node, Node::Round(_))
}

/// The node of this number.
pub(crate) fn node_at(net: &Netlist, i: u32) -> Node
    requires { i < length net.now.nodes }
    ensures value { result ≡ node_at net.now i }
    ensures back { NamesBelow i result }
    ensures reads { ReadsBelow most_registers result }
{
    let _count = net.len(); // that it is a netlist, for the proof
    net.node(i)
}

/// Writes the expression of a node up to its first operand.
fn put_head<K: Sink>(
    sink: &mut K,
    plan: &Plan,
    node: &Node,
    i: u32,
    inner: bool,
) -> Result<(), Failed>
    requires there { i < length plan.now.net.now.nodes }
    requires typed { i < length plan.now.types.now }
    requires numbered { i < length plan.now.locals.now }
    requires back { NamesBelow (length plan.now.types.now) node.now }
    requires reads { ReadsBelow most_registers node.now }
    requires small { slice_index plan.now.locals.now i < name_limit }
    ensures { Writes (K.seen sink.old) (K.seen sink.new) result (head_of plan.now.names
        plan.now.net.now plan.now.types.now plan.now.locals.now inner i node.now) }
{
    match node {
        Node::Input => put_local(sink, &plan.names, 0),
        Node::Reg(register) => put_local(sink, &plan.names, *register + 1),
        Node::Fit(_) => put_local(sink, &plan.names, plan.locals[i as usize]),
        Node::Round(_) => put_all(sink, rounded_head(plan.types[i as usize])),
        Node::MulConst { coeff, of } => {
            let coeff = (*coeff).into();
            put_product_head(
                sink,
                inner,
                &coeff,
                need_of(plan.net, i),
                plan.types[*of as usize],
            )
        }
        Node::Scale(of) => {
            let one = one_of(plan.net);
            put_product_head(
                sink,
                inner,
                &one,
                need_of(plan.net, i),
                plan.types[*of as usize],
            )
        }
        Node::Add(left, _) | Node::Sub(left, _) => put_sum_head(
            sink,
            inner,
            need_of(plan.net, i),
            plan.types[*left as usize],
        ),
    }
}

/// Writes the expression of a node.
pub(crate) fn put_node<K: Sink>(
    sink: &mut K,
    plan: &Plan,
    i: u32,
    inner: bool,
) -> Result<(), Failed>
    requires plan { IsPlan plan.now.net.now plan.now.types.now plan.now.locals.now }
    requires there { i < length plan.now.net.now.nodes }
    ensures { Writes (K.seen sink.old) (K.seen sink.new) result
        (code_text plan.now.names inner (code_at (codes_of plan.now.net.now) i).expr) }
{
    let node = node_at(plan.net, i);
    let operands = operands_of(node);
    match operands.arity {
        Arity::None => put_head(sink, plan, &node, i, inner),
        Arity::One => {
            put_head(sink, plan, &node, i, inner)?;
            put_node(sink, plan, operands.left, is_operand(node))?;
            put_all(sink, tail_of(node, inner))
        }
        Arity::Two => {
            put_head(sink, plan, &node, i, inner)?;
            put_node(sink, plan, operands.left, true)?;
            put_all(sink, sign_of(node))?;
            put_node(sink, plan, operands.right, true)?;
            put_all(sink, tail_of(node, inner))
        }
    }
}
