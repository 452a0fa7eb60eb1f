// The overflow goal and the cycle goal of netlists in words of four bits, two of them after the
// point.
use crate::goals::{count_of, is_one, overflow_of};
use dsv_names::{OverflowMode, Rounding};
use dsv_netlist::{Netlist, Node};
use dsv_term::Goal;
use dsv_unroll::{cycle_goal, size};
use dsv_word::Format;
use std::alloc::Global;

/// What is asked of a netlist.
#[derive(Clone, Copy)]
enum Question {
    /// Whether inputs from the first number to the second break within so many samples.
    Overflow(i64, i64, u32),
    /// Whether a start has a cycle of at most such a period.
    Cycle(u32),
}

/// A netlist with its modes, a question, and at how many values of the inputs its root is 1.
#[derive(Clone, Copy)]
struct Row {
    nodes: &'static [Node],
    next: &'static [u32],
    output: u32,
    feed_forward: u32,
    rounding: Rounding,
    overflow: OverflowMode,
    question: Question,
    count: u32,
    /// The number of values at which the root is 1, if it is at some.
    at: u32,
}

/// y(n) = x(n) + y(n-1): b_0 = 1.0 and a_1 = -0.9, which becomes -1.0. Each product is rounded and
/// fitted, and so is the difference. Only 1.0 and 1.0, which are 4 and 4, break.
const SUMS: Row = Row {
    nodes: &[
        Node::Input,
        Node::Reg(0),
        Node::MulConst { coeff: 4, of: 0 },
        Node::Round(2),
        Node::Fit(3),
        Node::MulConst { coeff: -4, of: 1 },
        Node::Round(5),
        Node::Fit(6),
        Node::Sub(4, 7),
        Node::Fit(8),
    ],
    next: &[9],
    output: 9,
    feed_forward: 0,
    rounding: Rounding::Floor,
    overflow: OverflowMode::Wrap,
    question: Question::Overflow(-4, 4, 2),
    count: 1,
    at: 4 + 4 * 16,
};

/// The same sum, of the product and of y(n-1) times 4, which is rounded and fitted once. Of the 256
/// pairs 28 have a sum above 7 and 36 one below -8.
const EXACT_SUMS: Row = Row {
    nodes: &[
        Node::Input,
        Node::Reg(0),
        Node::MulConst { coeff: 4, of: 0 },
        Node::Scale(1),
        Node::Add(2, 3),
        Node::Round(4),
        Node::Fit(5),
    ],
    next: &[6],
    output: 6,
    feed_forward: 0,
    rounding: Rounding::Floor,
    overflow: OverflowMode::Wrap,
    question: Question::Overflow(-8, 7, 2),
    count: 64,
    at: 7 + 16,
};

/// y(n) = x(n) times 1.75, made whole: a netlist of order 0. 7 x / 4 is below -8 by the floor from
/// x = -5 on downwards, and above 7 from x = 5 on; the nearest of 31 / 4 is 8 at no x, and that of
/// -8.75 is -9. The word -8 is 8 as a value.
const SCALES: Row = Row {
    nodes: &[
        Node::Input,
        Node::MulConst { coeff: 7, of: 0 },
        Node::Round(1),
        Node::Fit(2),
    ],
    next: &[],
    output: 3,
    feed_forward: 0,
    rounding: Rounding::Floor,
    overflow: OverflowMode::Saturate,
    question: Question::Overflow(-8, 7, 1),
    count: 7,
    at: 8,
};

/// y(n) = x(n) + y(n-1) / 2: b_0 = 1.0 and a_1 = -0.5. By the floor -y(n-1) / 2 of 1 is -1, and
/// 0 - -1 is 1 again; by the nearest that of -1 is 1.
const HALVES: Row = Row {
    nodes: &[
        Node::Input,
        Node::Reg(0),
        Node::MulConst { coeff: 4, of: 0 },
        Node::Round(2),
        Node::Fit(3),
        Node::MulConst { coeff: -2, of: 1 },
        Node::Round(5),
        Node::Fit(6),
        Node::Sub(4, 7),
        Node::Fit(8),
    ],
    next: &[9],
    output: 9,
    feed_forward: 0,
    rounding: Rounding::Floor,
    overflow: OverflowMode::Saturate,
    question: Question::Cycle(1),
    count: 1,
    at: 1,
};

/// The same with x(n-1) in a register, which is feed-forward.
const WITH_INPUT: Row = Row {
    nodes: &[
        Node::Input,
        Node::Reg(1),
        Node::MulConst { coeff: -2, of: 1 },
        Node::Round(2),
        Node::Fit(3),
        Node::Sub(0, 4),
        Node::Fit(5),
    ],
    next: &[0, 6],
    output: 6,
    feed_forward: 1,
    rounding: Rounding::Floor,
    overflow: OverflowMode::Saturate,
    question: Question::Cycle(2),
    count: 1,
    at: 1,
};

const ROWS: [Row; 12] = [
    SUMS,
    Row {
        question: Question::Overflow(-4, 4, 1),
        count: 0,
        ..SUMS
    },
    // The first product, 4 y(n-1) for y(n-1) = -8, is no word when it is negated, and of the 256
    // pairs 28 + 36 have a sum above 7 or below -8; -8 as the first word breaks with each second
    // one.
    Row {
        question: Question::Overflow(-8, 7, 2),
        count: 72,
        at: 8,
        ..SUMS
    },
    Row {
        overflow: OverflowMode::Saturate,
        question: Question::Overflow(-8, 7, 2),
        count: 72,
        at: 8,
        ..SUMS
    },
    EXACT_SUMS,
    SCALES,
    Row {
        rounding: Rounding::Ceil,
        count: 6,
        ..SCALES
    },
    Row {
        rounding: Rounding::Nearest,
        ..SCALES
    },
    HALVES,
    Row {
        rounding: Rounding::Nearest,
        at: 15,
        ..HALVES
    },
    // A period of 1 is one of 3, and is found though only 2 and 3 are asked.
    Row {
        question: Question::Cycle(3),
        ..HALVES
    },
    WITH_INPUT,
];

/// The netlist of a row.
fn netlist(alloc: Global, row: &Row) -> Option<Netlist> {
    let format = Format::new(2, 2, row.rounding, row.overflow).ok()?;
    let nodes = Vec::from_slice(alloc, row.nodes).ok()?;
    let next = Vec::from_slice(alloc, row.next).ok()?;
    Netlist::new(nodes, next, row.output, row.feed_forward, format)
}

/// The goal of a question.
fn goal_of(alloc: Global, net: &Netlist, question: Question) -> Option<Goal> {
    match question {
        Question::Overflow(low, high, samples) => overflow_of(alloc, net, low, high, samples),
        Question::Cycle(periods) => cycle_goal(alloc, net, periods).ok(),
    }
}

/// Whether a goal is 1 at as many values as the row says, and at the one that it names.
fn is_met(alloc: Global, goal: &Goal, row: &Row) -> bool {
    count_of(alloc, goal, 4) == Some(row.count)
        && is_one(alloc, goal, 4, row.at) == Some(row.count > 0)
}

fn is_right(alloc: Global, row: &Row) -> Option<bool> {
    let net = netlist(alloc, row)?;
    let goal = goal_of(alloc, &net, row.question)?;
    Some(is_met(alloc, &goal, row))
}

#[test]
fn goals_of_netlists(rt: HostRuntime) {
    for row in &ROWS {
        assert!(rt; is_right(rt.alloc(), row) == Some(true));
    }
}

#[test]
fn the_size_of_a_job(rt: HostRuntime) {
    let found = match netlist(rt.alloc(), &SUMS) {
        Some(net) => size(&net, 2),
        None => 0,
    };
    assert!(rt; found == 64);
}
