// Limit cycles of netlists that are no controller's, in words of four bits, two of them after the
// point: from -8 to 7. The range of the inputs is -4 to 4, so the first start that is tried and
// isn't 0 has 4 in each register, and then come -4, 7 and -8.
ghost use Rattle.std.specs.Prelude.{◌<◌, ◌≤◌};

use dsv_bounded::netlist_cycle;
use dsv_hints::Searched;
use dsv_names::{OverflowMode, Rounding};
use dsv_netlist::{Netlist, Node};
use dsv_realise::RangedNetlist;
use dsv_word::Format;
use std::alloc::Global;

const CONFLICTS: u32 = 50_000;

const LOW: i64 = -4;

const HIGH: i64 = 4;

/// A limit cycle: its start, and the outputs of one period.
#[derive(Clone, Copy)]
struct Wanted {
    start: &'static [i64],
    outputs: &'static [i64],
}

/// A netlist, the greatest period that is asked for, and the cycle that is found; None where no
/// start has one.
#[derive(Clone, Copy)]
struct Row {
    nodes: &'static [Node],
    next: &'static [u32],
    output: u32,
    feed_forward: u32,
    overflow: OverflowMode,
    periods: u32,
    wanted: Option<Wanted>,
}

/// Two registers that exchange their words, one of them with its sign turned: a and b become -b and
/// a, then -a and -b, then b and -a, and after four samples they are back.
const TURNED: Row = Row {
    nodes: &[
        Node::Reg(0),
        Node::Reg(1),
        Node::MulConst { coeff: -4, of: 1 },
        Node::Round(2),
        Node::Fit(3),
    ],
    next: &[4, 0],
    output: 0,
    feed_forward: 0,
    overflow: OverflowMode::Saturate,
    periods: 6,
    wanted: Some(Wanted {
        start: &[4, 4],
        outputs: &[4, -4, -4, 4],
    }),
};

/// The same with both signs turned: a and b become -b and -a, and after two samples they are back.
const OPPOSITE: Row = Row {
    nodes: &[
        Node::Reg(0),
        Node::Reg(1),
        Node::MulConst { coeff: -4, of: 1 },
        Node::Round(2),
        Node::Fit(3),
        Node::MulConst { coeff: -4, of: 0 },
        Node::Round(5),
        Node::Fit(6),
    ],
    next: &[4, 7],
    wanted: Some(Wanted {
        start: &[4, 4],
        outputs: &[4, -4],
    }),
    ..TURNED
};

/// Two registers that keep their words, of which the second is the output.
const KEPT: Row = Row {
    nodes: &[Node::Reg(0), Node::Reg(1)],
    next: &[0, 1],
    output: 1,
    wanted: Some(Wanted {
        start: &[4, 4],
        outputs: &[4],
    }),
    ..TURNED
};

/// Netlists with a limit cycle.
const CYCLES: [Row; 6] = [
    TURNED,
    Row {
        periods: 4,
        ..TURNED
    },
    // -(-8) is 8, which wraps to -8: two of them come back after one sample.
    Row {
        overflow: OverflowMode::Wrap,
        periods: 3,
        wanted: Some(Wanted {
            start: &[-8, -8],
            outputs: &[-8],
        }),
        ..TURNED
    },
    OPPOSITE,
    KEPT,
    // The feed-forward register starts with 0.
    Row {
        feed_forward: 1,
        wanted: Some(Wanted {
            start: &[0, 4],
            outputs: &[4],
        }),
        ..KEPT
    },
];

/// Earlier inputs, which are gone after two samples without input.
const DELAYED: Row = Row {
    nodes: &[Node::Input, Node::Reg(0), Node::Reg(1)],
    next: &[0, 1],
    output: 2,
    feed_forward: 0,
    overflow: OverflowMode::Wrap,
    periods: 64,
    wanted: None,
};

/// A word that is kept, of which the output is always 0 times it.
const SILENT: Row = Row {
    nodes: &[
        Node::Reg(0),
        Node::MulConst { coeff: 0, of: 0 },
        Node::Round(1),
        Node::Fit(2),
    ],
    next: &[0],
    output: 3,
    periods: 2,
    ..DELAYED
};

/// The netlist of a row.
fn netlist(alloc: Global, row: &Row) -> Option<Netlist> {
    let format = Format::new(2, 2, Rounding::Floor, row.overflow).ok()?;
    let nodes = Vec::from_slice(alloc, row.nodes).ok()?;
    let next = Vec::from_slice(alloc, row.next).ok()?;
    Netlist::new(nodes, next, row.output, row.feed_forward, format)
}

/// Whether the cycle of a row is found, or none where it has none.
fn is_wanted(alloc: Global, row: &Row) -> Option<bool> {
    let net = netlist(alloc, row)?;
    let format = net.format();
    let periods = row.periods;
    if !format.fits(i128::from(LOW)) || !format.fits(i128::from(HIGH)) {
        return None;
    }
    if periods < 1 || periods > 64 {
        return None;
    }
    let subject = RangedNetlist::new(&net, LOW, HIGH);
    match netlist_cycle(alloc, &subject, periods, CONFLICTS).ok()? {
        Searched::Happens(cycle) => {
            let wanted = row.wanted?;
            Some(
                cycle.start.as_slice() == wanted.start
                    && cycle.period as usize == wanted.outputs.len()
                    && cycle.outputs.as_slice() == wanted.outputs,
            )
        }
        Searched::Never(_) => Some(row.wanted.is_none()),
        Searched::Spent(_) => None,
    }
}

#[test]
fn cycles_of_netlists_are_found(rt: HostRuntime) {
    for row in &CYCLES {
        assert!(rt; is_wanted(rt.alloc(), row) == Some(true));
    }
}

#[test]
fn a_delay_has_no_cycle(rt: HostRuntime) {
    assert!(rt; is_wanted(rt.alloc(), &DELAYED) == Some(true));
}

#[test]
fn a_netlist_whose_output_stays_0_has_no_cycle(rt: HostRuntime) {
    assert!(rt; is_wanted(rt.alloc(), &SILENT) == Some(true));
}
