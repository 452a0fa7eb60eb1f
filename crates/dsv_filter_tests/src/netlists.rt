// Netlists of nodes: which nodes make one, and the bounds of their values.
use dsv_names::{OverflowMode, Rounding};
use dsv_netlist::{Netlist, Node};
use dsv_word::Format;
use std::alloc::Global;
use std::test::Fail;

/// What a netlist is made of, but for its format.
#[derive(Clone, Copy)]
struct Parts<'a> {
    nodes: &'a [Node],
    next: &'a [u32],
    output: u32,
    feed_forward: u32,
}

/// The parts of a netlist without registers.
fn without_registers(nodes: &[Node], output: u32) -> Parts<'_> {
    Parts {
        nodes,
        next: &[],
        output,
        feed_forward: 0,
    }
}

/// The netlist of these parts.
fn netlist(alloc: Global, parts: Parts, format: Format) -> Option<Netlist> {
    let nodes = Vec::from_slice(alloc, parts.nodes).ok()?;
    let next = Vec::from_slice(alloc, parts.next).ok()?;
    Netlist::new(nodes, next, parts.output, parts.feed_forward, format)
}

/// Whether these nodes make a netlist in words of four bits, two of them after the point: -8 to 7.
fn is_netlist(alloc: Global, parts: Parts) -> bool {
    match Format::new(2, 2, Rounding::Floor, OverflowMode::Wrap) {
        Ok(format) => netlist(alloc, parts, format).is_some(),
        Err(_) => false,
    }
}

/// Parts, and whether they make a netlist.
struct Offer {
    parts: Parts<'static>,
    is_netlist: bool,
}

/// A product of the input, of 66 bits.
const WIDE: Node = Node::MulConst {
    coeff: 1 << 62,
    of: 0,
};

const LINE: &[Node] = &[Node::Input, WIDE, Node::Round(1), Node::Fit(2)];

const OFFERS: [Offer; 13] = [
    Offer {
        parts: Parts {
            nodes: LINE,
            next: &[0, 3],
            output: 3,
            feed_forward: 2,
        },
        is_netlist: true,
    },
    // A register that isn't there, a node that refers to itself, and one that refers to a later
    // one.
    Offer {
        parts: Parts {
            nodes: &[Node::Reg(0)],
            next: &[],
            output: 0,
            feed_forward: 0,
        },
        is_netlist: false,
    },
    Offer {
        parts: Parts {
            nodes: &[Node::Input, Node::Fit(1)],
            next: &[],
            output: 1,
            feed_forward: 0,
        },
        is_netlist: false,
    },
    Offer {
        parts: Parts {
            nodes: &[Node::Add(0, 1), Node::Input],
            next: &[],
            output: 1,
            feed_forward: 0,
        },
        is_netlist: false,
    },
    // An entry of `next` and an output that are no nodes, or not words.
    Offer {
        parts: Parts {
            nodes: LINE,
            next: &[4],
            output: 3,
            feed_forward: 0,
        },
        is_netlist: false,
    },
    Offer {
        parts: Parts {
            nodes: LINE,
            next: &[],
            output: 4,
            feed_forward: 0,
        },
        is_netlist: false,
    },
    Offer {
        parts: Parts {
            nodes: LINE,
            next: &[2],
            output: 3,
            feed_forward: 0,
        },
        is_netlist: false,
    },
    Offer {
        parts: Parts {
            nodes: LINE,
            next: &[],
            output: 1,
            feed_forward: 0,
        },
        is_netlist: false,
    },
    // More feed-forward registers than registers.
    Offer {
        parts: Parts {
            nodes: LINE,
            next: &[0],
            output: 3,
            feed_forward: 2,
        },
        is_netlist: false,
    },
    // As many nodes and registers as may be, and one more.
    Offer {
        parts: Parts {
            nodes: &[Node::Input; 512],
            next: &[],
            output: 511,
            feed_forward: 0,
        },
        is_netlist: true,
    },
    Offer {
        parts: Parts {
            nodes: &[Node::Input; 513],
            next: &[],
            output: 511,
            feed_forward: 0,
        },
        is_netlist: false,
    },
    Offer {
        parts: Parts {
            nodes: &[Node::Input],
            next: &[0; 512],
            output: 0,
            feed_forward: 512,
        },
        is_netlist: true,
    },
    Offer {
        parts: Parts {
            nodes: &[Node::Input],
            next: &[0; 513],
            output: 0,
            feed_forward: 0,
        },
        is_netlist: false,
    },
];

/// Whether the offer makes a netlist exactly where it should.
fn is_judged(alloc: Global, offer: &Offer) -> bool {
    is_netlist(alloc, offer.parts) == offer.is_netlist
}

#[test]
fn nodes_that_make_a_netlist(rt: HostRuntime) -> Result<(), Fail> {
    let alloc = rt.alloc();
    let mut met = true;
    for offer in &OFFERS {
        met = met && is_judged(alloc, offer);
    }
    assert!(rt; met);
    Ok(())
}

#[test]
fn one_fitted_value_too_many(rt: HostRuntime) -> Result<(), Fail> {
    let alloc = rt.alloc();
    let mut fits = [Node::Fit(0); 162];
    fits[0] = Node::Input;
    let most = is_netlist(alloc, without_registers(&fits[..161], 160));
    let more = is_netlist(alloc, without_registers(&fits, 160));
    assert!(rt; most && !more);
    Ok(())
}

/// A product of `WIDE`, which is node 1.
const fn product_of_wide(coeff: i64) -> Node {
    Node::MulConst { coeff, of: 1 }
}

#[test]
fn bounds_stay_below_the_limit(rt: HostRuntime) -> Result<(), Fail> {
    let alloc = rt.alloc();
    // A word's bound is 2^3, and the limit is 2^126.
    let at = [Node::Input, WIDE, product_of_wide(-(1 << 61))];
    assert!(rt; !is_netlist(alloc, without_registers(&at, 0)));
    Ok(())
}

#[test]
fn bounds_are_told(rt: HostRuntime) -> Result<(), Fail> {
    let below = [Node::Input, WIDE, product_of_wide(1 - (1 << 61))];
    let format = Format::new(2, 2, Rounding::Floor, OverflowMode::Wrap)?;
    let Some(net) = netlist(rt.alloc(), without_registers(&below, 0), format) else {
        return Err(Fail::from("no netlist"));
    };
    let bound = if net.len() == 3 { net.bound(2) } else { 0 };
    assert_eq!(rt; bound, ((1 << 61) - 1) << 65);
    Ok(())
}
