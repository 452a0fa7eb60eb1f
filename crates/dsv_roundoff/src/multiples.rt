// Values that need no rounding.
ghost use Rattle.std.specs.Prelude.{◌≡◌, IfOk};
ghost use Rattle.dsv_roundoff.specs.Differences.{holds_at, is_multiple, multiples_of};

use dsv_base::{Items, NoMemory};
use dsv_linear::power;
use dsv_netlist::Node;
use dsv_word::Format;
use std::alloc::Global;

/// For each node of a sample, whether it gives a multiple of 2^frac_bits in every run.
pub type Multiples = Items<bool>;

/// Whether it says so of the node of this number.
pub fn holds_at(says: &[bool], of: u32) -> bool
    ensures { result ≡ holds_at says.now of }
{
    match says.get(of as usize) {
        Some(it) => *it,
        None => false,
    }
}

/// Whether a node gives such a multiple, where it says so of the nodes before it.
fn is_multiple(format: &Format, before: &[bool], node: &Node) -> bool
    ensures { result ≡ is_multiple format.now before.now node.now }
{
    match node {
        Node::MulConst { coeff, .. } => {
            i128::from(*coeff).rem_euclid(i128::from(power(format.frac_bits))) == 0
        }
        Node::Add(left, right) | Node::Sub(left, right) => {
            holds_at(before, *left) && holds_at(before, *right)
        }
        Node::Scale(_) => true,
        _ => false,
    }
}

/// Which of a sample's nodes give multiples of 2^frac_bits in every run.
pub fn multiples_of(alloc: Global, format: &Format, nodes: &[Node]) -> Result<Multiples, NoMemory>
    ensures { IfOk result (λ says. says ≡ multiples_of format.now nodes.now) }
{
    let mut says = Multiples::new(alloc);
    for node in nodes {
        let is = is_multiple(format, says.as_slice(), node);
        says.push(is)?;
    }
    Ok(says)
}
