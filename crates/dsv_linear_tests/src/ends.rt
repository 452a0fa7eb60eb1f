// Facts that are worked out by hand.
use dsv_linear::{Fact, facts_of};
use dsv_names::{OverflowMode, Rounding};
use dsv_netlist::{Netlist, Node};
use dsv_word::Format;
use std::alloc::Global;
use std::test::Fail;

/// y(n) = x(n) + y(n-1) in words with two bits after the point. Each product is rounded and fitted,
/// and so is the difference.
const SUMS: &[Node] = &[
    Node::Input,
    Node::Reg(0),
    Node::MulConst { coeff: 4, of: 0 },
    Node::Round(2),
    Node::Fit(3),
    Node::MulConst { coeff: -4, of: 1 },
    Node::Round(5),
    Node::Fit(6),
    Node::Sub(4, 7),
    Node::Fit(8),
];

/// y(n) = x(n) times 1.75, made whole.
const SCALES: &[Node] = &[
    Node::Input,
    Node::MulConst { coeff: 7, of: 0 },
    Node::Round(1),
    Node::Fit(2),
];

/// y(n) = 2 x(n) - x(n).
const TWICE: &[Node] = &[Node::Input, Node::Add(0, 0), Node::Sub(1, 0), Node::Fit(2)];

/// y(n) = x(n) times 1.75 and x(n), in one sum that is made whole once.
const WIDE_SUM: &[Node] = &[
    Node::Input,
    Node::MulConst { coeff: 7, of: 0 },
    Node::Scale(0),
    Node::Add(1, 2),
    Node::Round(3),
    Node::Fit(4),
];

/// y(n) = x(n) less x(n) times 1.0, in one difference that is made whole once.
const WIDE_DIFFERENCE: &[Node] = &[
    Node::Input,
    Node::Scale(0),
    Node::MulConst { coeff: 4, of: 0 },
    Node::Sub(1, 2),
    Node::Round(3),
    Node::Fit(4),
];

/// A netlist, its rounding, the range of its inputs, the samples, and the fact of each exact value.
#[derive(Clone, Copy)]
pub(crate) struct Row {
    pub nodes: &'static [Node],
    pub next: &'static [u32],
    pub output: u32,
    pub rounding: Rounding,
    pub low: i64,
    pub high: i64,
    pub samples: u32,
    pub facts: &'static [Fact],
}

// An error of the sum is a quarter of one from -3 to 0. The first output is x(0) + (e - f) / 4,
// where e and f are the errors of its products; the next has those of its own as well.
const SUM_FACTS: &[Fact] = &[
    Fact::Within { low: -2, high: 1 },
    Fact::Within { low: 0, high: 0 },
    Fact::Within { low: -2, high: 1 },
    Fact::Within { low: -2, high: 1 },
    Fact::Within { low: -2, high: 2 },
    Fact::Within { low: -5, high: 3 },
];

// The words are -8 to 7. 7 x and an error, over 4, are made whole inwards: by FLOOR 5 gives 8.75
// and -5 gives -9.5 at least, by CEIL -5 gives -8.75 at least. Twice a number less the number is
// the number, whose plain interval is three times as wide. The wide sum is 11 x and an error, over
// 4: of 2 and -2 by FLOOR at most 5.5 and at least -6.25, by CEIL 6.25 and -5.5, by NEAREST 6 and
// -5.75; of -3 by FLOOR -9 at least. The wide difference is its error, over 4, alone.
const ROWS: [Row; 18] = [
    Row {
        nodes: SUMS,
        next: &[9],
        output: 9,
        rounding: Rounding::Floor,
        low: -2,
        high: 1,
        samples: 2,
        facts: SUM_FACTS,
    },
    Row {
        nodes: SUMS,
        next: &[9],
        output: 9,
        rounding: Rounding::Floor,
        low: -2,
        high: 1,
        samples: 1,
        facts: &[
            Fact::Within { low: -2, high: 1 },
            Fact::Within { low: 0, high: 0 },
            Fact::Within { low: -2, high: 1 },
        ],
    },
    Row {
        nodes: SCALES,
        next: &[],
        output: 3,
        rounding: Rounding::Floor,
        low: -4,
        high: 3,
        samples: 1,
        facts: &[Fact::Within { low: -7, high: 5 }],
    },
    Row {
        nodes: SCALES,
        next: &[],
        output: 3,
        rounding: Rounding::Ceil,
        low: -4,
        high: 3,
        samples: 1,
        facts: &[Fact::Within { low: -7, high: 6 }],
    },
    Row {
        nodes: SCALES,
        next: &[],
        output: 3,
        rounding: Rounding::Nearest,
        low: -4,
        high: 3,
        samples: 1,
        facts: &[Fact::Within { low: -7, high: 5 }],
    },
    Row {
        nodes: SCALES,
        next: &[],
        output: 3,
        rounding: Rounding::Floor,
        low: -4,
        high: 4,
        samples: 1,
        facts: &[Fact::Within { low: -7, high: 7 }],
    },
    Row {
        nodes: SCALES,
        next: &[],
        output: 3,
        rounding: Rounding::Ceil,
        low: -5,
        high: 4,
        samples: 1,
        facts: &[Fact::Within { low: -8, high: 7 }],
    },
    Row {
        nodes: SCALES,
        next: &[],
        output: 3,
        rounding: Rounding::Floor,
        low: -5,
        high: 4,
        samples: 1,
        facts: &[Fact::Open],
    },
    Row {
        nodes: SCALES,
        next: &[],
        output: 3,
        rounding: Rounding::Ceil,
        low: -5,
        high: 5,
        samples: 1,
        facts: &[Fact::Open],
    },
    Row {
        nodes: TWICE,
        next: &[],
        output: 3,
        rounding: Rounding::Floor,
        low: -7,
        high: 6,
        samples: 1,
        facts: &[Fact::Inside],
    },
    Row {
        nodes: TWICE,
        next: &[],
        output: 3,
        rounding: Rounding::Floor,
        low: -8,
        high: 7,
        samples: 1,
        facts: &[Fact::Inside],
    },
    Row {
        nodes: TWICE,
        next: &[],
        output: 3,
        rounding: Rounding::Floor,
        low: -8,
        high: 8,
        samples: 1,
        facts: &[Fact::Open],
    },
    Row {
        nodes: TWICE,
        next: &[],
        output: 3,
        rounding: Rounding::Floor,
        low: -9,
        high: 7,
        samples: 1,
        facts: &[Fact::Open],
    },
    Row {
        nodes: WIDE_SUM,
        next: &[],
        output: 5,
        rounding: Rounding::Floor,
        low: -2,
        high: 2,
        samples: 1,
        facts: &[Fact::Within { low: -6, high: 5 }],
    },
    Row {
        nodes: WIDE_SUM,
        next: &[],
        output: 5,
        rounding: Rounding::Ceil,
        low: -2,
        high: 2,
        samples: 1,
        facts: &[Fact::Within { low: -5, high: 6 }],
    },
    Row {
        nodes: WIDE_SUM,
        next: &[],
        output: 5,
        rounding: Rounding::Nearest,
        low: -2,
        high: 2,
        samples: 1,
        facts: &[Fact::Within { low: -5, high: 6 }],
    },
    Row {
        nodes: WIDE_SUM,
        next: &[],
        output: 5,
        rounding: Rounding::Floor,
        low: -3,
        high: 2,
        samples: 1,
        facts: &[Fact::Open],
    },
    Row {
        nodes: WIDE_DIFFERENCE,
        next: &[],
        output: 5,
        rounding: Rounding::Floor,
        low: -2,
        high: 2,
        samples: 1,
        facts: &[Fact::Within { low: 0, high: 0 }],
    },
];

/// The netlist of a row, in words of so many bits before and after the point.
fn netlist(alloc: Global, row: &Row, int_bits: u32, frac_bits: u32) -> Option<Netlist> {
    let nodes = Vec::from_slice(alloc, row.nodes).ok()?;
    let next = Vec::from_slice(alloc, row.next).ok()?;
    let format = Format::new(int_bits, frac_bits, row.rounding, OverflowMode::Wrap).ok()?;
    Netlist::new(nodes, next, row.output, 0, format)
}

/// Whether the facts of a row are these.
fn are_right(alloc: Global, row: &Row, int_bits: u32, frac_bits: u32) -> Option<bool> {
    let net = netlist(alloc, row, int_bits, frac_bits)?;
    let facts = facts_of(alloc, &net, row.low, row.high, row.samples).ok()?;
    let list = facts.as_slice();
    let mut met = list.len() == row.facts.len();
    for (fact, wanted) in list.iter().zip(row.facts) {
        met = met && *fact == *wanted;
    }
    Some(met)
}

/// Whether the facts of all rows are these.
pub(crate) fn all_right(alloc: Global, rows: &[Row], int_bits: u32, frac_bits: u32) -> bool {
    let mut met = true;
    for row in rows {
        met = met && are_right(alloc, row, int_bits, frac_bits) == Some(true);
    }
    met
}

#[test]
fn facts_are_those_by_hand(rt: HostRuntime) -> Result<(), Fail> {
    let alloc = rt.alloc();
    assert!(rt; all_right(alloc, &ROWS, 2, 2));
    Ok(())
}
