// The netlist of two sections in series, by hand.
use crate::sections::{WIDE_HALF, cascade_of};
use dsv_cascade::cascade_net;
use dsv_netlist::{Netlist, Node};
use std::alloc::Global;

/// Twice y = 0.5 x + 0.5 y_1 with a wide accumulator, whose words are 2, 0 and 4, -2: section 1 has
/// node 9, the output of section 0, as its input, and the registers 2 and 3.
const NODES: [Node; 19] = [
    Node::Input,
    Node::Reg(0),
    Node::Reg(1),
    Node::MulConst { coeff: 2, of: 0 },
    Node::MulConst { coeff: 0, of: 1 },
    Node::Add(3, 4),
    Node::MulConst { coeff: -2, of: 2 },
    Node::Sub(5, 6),
    Node::Round(7),
    Node::Fit(8),
    Node::Reg(2),
    Node::Reg(3),
    Node::MulConst { coeff: 2, of: 9 },
    Node::MulConst { coeff: 0, of: 10 },
    Node::Add(12, 13),
    Node::MulConst { coeff: -2, of: 11 },
    Node::Sub(14, 15),
    Node::Round(16),
    Node::Fit(17),
];

/// The input of the cascade and the output of section 0, which is the input of section 1.
const NEXT: [u32; 4] = [0, 9, 9, 18];

/// The netlist of both.
fn net_of(alloc: Global) -> Option<Netlist> {
    let cascade = cascade_of(alloc, &[WIDE_HALF, WIDE_HALF])?.ok()?;
    cascade_net(alloc, &cascade).ok()
}

/// Whether it is the one by hand, with no register that is feed-forward.
fn is_joined(alloc: Global) -> Option<bool> {
    let net = net_of(alloc)?;
    Some(
        net.nodes() == NODES.as_slice()
            && net.next_nodes() == NEXT.as_slice()
            && net.output() == 18
            && net.feed_forward() == 0,
    )
}

#[test]
fn section_1_reads_the_output_of_section_0(rt: HostRuntime) {
    assert!(rt; is_joined(rt.alloc()) == Some(true));
}
