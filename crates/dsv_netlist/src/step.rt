// One sample of a netlist's nodes.
//
// A netlist is a directed graph without circles, but for the registers, whose nodes stand in an
// order in which each names earlier ones alone. So one pass over them computes a sample: each value
// is made of values that are there already, and the registers are loaded from their next nodes at
// the end. Values are exact and wide until a node fits them to words, which is where overflow can
// be seen.
ghost use Rattle.dsv_word.specs.Words.{IsWord};
ghost use Rattle.std.specs.Prelude.{◌≡◌, ◌+◌, ◌<◌, ◌≤◌, ◌++◌, [], length, take, map};
ghost use Rattle.std.specs.List.{All};
ghost use Rattle.std.specs.Int.RustNames.{unsigned_abs};
ghost use Rattle.dsv_netlist.specs.Nodes.{at, node_value, node_exact, sample_of};
ghost use Rattle.dsv_netlist.specs.Conditions.{NamesBelow, ReadsBelow};
ghost use Rattle.dsv_netlist.specs.Safety.{AreSafe};
ghost use Rattle.dsv_netlist.specs.Limits.{most_nodes, most_exact, bound_limit};

use crate::MOST_NODES;
use crate::node::{Node, one};
use dsv_system::ExactList;
use dsv_word::Format;

/// What a node gives, over the values of the nodes before it.
fn value_of(format: &Format, node: &Node, registers: &[i64], x: &i64, values: &[i128]) -> i128
    requires backwards { NamesBelow (length values.now) node.now }
    requires reads { ReadsBelow (length registers.now) node.now }
    requires bounded { All (λ v. unsigned_abs v < bound_limit) values.now }
    requires small { unsigned_abs (node_value format.now registers.now x.now values.now node.now)
        < bound_limit }
    ensures { result ≡ node_value format.now registers.now x.now values.now node.now }
{
    match node {
        Node::Input => (*x).into(),
        Node::Reg(register) => registers[*register as usize].into(),
        Node::MulConst { coeff, of } => {
            let coeff: i128 = (*coeff).into();
            coeff * values[*of as usize]
        }
        Node::Round(of) => format.round_shift(values[*of as usize]),
        Node::Add(left, right) => values[*left as usize] + values[*right as usize],
        Node::Sub(left, right) => values[*left as usize] - values[*right as usize],
        Node::Fit(of) => format.fit(values[*of as usize]).into(),
        Node::Scale(of) => i128::from(one(format)) * values[*of as usize],
    }
}

/// Appends the exact value of a node that fits one.
fn push_exact(node: &Node, values: &[i128], exact: &mut ExactList)
    requires backwards { NamesBelow (length values.now) node.now }
    requires room { length exact.old.items + length (node_exact values.now node.now) ≤ most_exact }
    ensures { exact.new.items ≡ exact.old.items ++ node_exact values.now node.now }
{
    if let Node::Fit(of) = node {
        exact.push(values[*of as usize]);
    }
}

/// Runs the nodes one after another: gives their values, filled up with 0, and appends the exact
/// values.
pub(crate) fn run_nodes(
    format: &Format,
    nodes: &[Node],
    registers: &[i64],
    x: &i64,
    exact: &mut ExactList,
) -> [i128; MOST_NODES]
    requires safe { AreSafe format.now registers.now x.now nodes.now
        (record { values = []; exact = [] }) }
    requires few { length nodes.now ≤ most_nodes }
    requires empty { exact.old.items ≡ [] }
    ensures values { take (length nodes.now) result
        ≡ (sample_of format.now registers.now x.now nodes.now).values }
    ensures exact { exact.new.items ≡ (sample_of format.now registers.now x.now nodes.now).exact }
{
    let mut values = [0; MOST_NODES];
    for (i, node) in nodes.iter().enumerate() {
        let done = &values[..i];
        let value = value_of(format, node, registers, x, done);
        push_exact(node, done, exact);
        values[i] = value;
    }
    values
}

/// A word that was computed wide.
pub(crate) fn word_of(format: &Format, value: &i128) -> i64
    requires { IsWord format.now value.now }
    ensures value { result ≡ value.now }
    ensures word { IsWord format.now result }
{
    *value as i64
}

/// Loads each register from its next node.
pub(crate) fn load(format: &Format, next: &[u32], values: &[i128], registers: &mut [i64])
    requires many { length registers.old ≡ length next.now }
    requires named { All (λ k. k < length values.now) next.now }
    requires words { All (λ k. IsWord format.now (at values.now k)) next.now }
    ensures { registers.new ≡ map (at values.now) next.now }
{
    for (k, id) in next.iter().enumerate() {
        let value = word_of(format, &values[*id as usize]);
        registers[k] = value;
    }
}
