// Bounds on the sizes of the nodes' values.
//
// Worst cases in one pass: a word has at most 2^(width - 1) in size, a product by a coefficient at
// most that coefficient's size times its operand's bound, a sum at most both bounds together, and
// rounding adds nothing. Below the limit 2^126 no value of a sample overflows 128 bits.
ghost use Rattle.std.specs.Prelude.{◌≡◌, ◌≤◌, ◌<◌, ◌↔◌, length, take, IsSome, IfSome};
ghost use Rattle.std.specs.List.{All};
ghost use Rattle.dsv_netlist.specs.Bounds.{word_bound, node_bound, bounds_of};
ghost use Rattle.dsv_netlist.specs.Conditions.{NamesBelow, AllNameBack};
ghost use Rattle.dsv_netlist.specs.Limits.{bound_limit, most_nodes};

use crate::node::{Node, one};
use crate::{BOUND_LIMIT, MOST_NODES};
use dsv_word::Format;

/// The greatest size of a word.
fn word_bound(format: &Format) -> u128
    ensures { result ≡ word_bound format.now }
{
    u128::from(format.lo().unsigned_abs())
}

/// The bound of a node, where it is below the limit. `bounds` are those of the nodes before.
fn bound_of(format: &Format, node: &Node, bounds: &[u128]) -> Option<u128>
    requires backwards { NamesBelow (length bounds.now) node.now }
    requires bounded { All (λ bound. bound < bound_limit) bounds.now }
    ensures exact { IsSome result ↔ (node_bound format.now bounds.now node.now < bound_limit) }
    ensures value { IfSome result (λ bound. bound ≡ node_bound format.now bounds.now node.now) }
{
    let bound = match node {
        Node::Input | Node::Reg(_) | Node::Fit(_) => word_bound(format),
        Node::MulConst { coeff, of } => {
            u128::from(coeff.unsigned_abs()).checked_mul(bounds[*of as usize])?
        }
        Node::Round(of) => bounds[*of as usize],
        Node::Scale(of) => u128::from(one(format)).checked_mul(bounds[*of as usize])?,
        Node::Add(left, right) | Node::Sub(left, right) => {
            bounds[*left as usize] + bounds[*right as usize]
        }
    };
    if bound < BOUND_LIMIT {
        Some(bound)
    } else {
        None
    }
}

/// The bounds of all nodes, where they are below the limit.
pub(crate) fn bounds_of(format: &Format, nodes: &[Node]) -> Option<[u128; MOST_NODES]>
    requires few { length nodes.now ≤ most_nodes }
    requires backwards { AllNameBack 0 nodes.now }
    ensures exact { IsSome result
        ↔ All (λ bound. bound < bound_limit) (bounds_of format.now nodes.now) }
    ensures value { IfSome result (λ bounds. take (length nodes.now) bounds
        ≡ bounds_of format.now nodes.now) }
{
    let mut bounds = [0; MOST_NODES];
    for (i, node) in nodes.iter().enumerate() {
        let bound = bound_of(format, node, &bounds[..i])?;
        bounds[i] = bound;
    }
    Some(bounds)
}
