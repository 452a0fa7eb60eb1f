// The goals of candidate sets, at all values of their inputs.
use crate::goals::count_of;
use dsv_names::{OverflowMode, Realisation, Rounding};
use dsv_netlist::Netlist;
use dsv_realise::realise;
use dsv_template::{Candidate, CoefficientList, Inequality, InequalityList, SetPart};
use dsv_term::Goal;
use dsv_test_setup::quantised_of;
use dsv_unroll::{InputRange, set_goal};
use dsv_word::Format;
use std::alloc::Global;

/// y(n) = x(n) + 0.5 y(n-1), where half of y(n-1) is made whole by the ceiling.
const FIRST: &str =
    "digital_system d = { .b = {1.0, 0.0}, .b_size = 2, .a = {1.0, -0.5}, .a_size = 2 };
implementation r = { .int_bits = 2, .frac_bits = 1, .max = 1.0, .min = -1.0 };";

/// An inequality over two registers: the coefficients, and the bound.
#[derive(Clone, Copy)]
struct Line([i64; 2], i64);

/// The second register is at most 1.
const LOW: &[Line] = &[Line([0, 1], 1)];

/// The second register is at most 2.
const BELOW: &[Line] = &[Line([0, 1], 2)];

/// The first register is negative.
const NEGATIVE: &[Line] = &[Line([1, 0], -1)];

const SLANTED: &[Line] = &[Line([3, -2], 4)];

/// No registers fulfil it.
const NONE: &[Line] = &[Line([0, 0], -1)];

/// No inequality.
const FREE: &[Line] = &[];

/// Inequalities, a depth, a sentence, and how many of the words break it where words wrap and where
/// they saturate.
#[derive(Clone, Copy)]
struct Row(&'static [Line], u32, SetPart, u32, u32);

// The registers are x(n-1) and y(n-1), the next ones are x(n) and y(n) = x(n) + c, and c, the
// ceiling of half of y(n-1), is -2, -1, -1, 0, 0, 1, 1, 2 for -4 to 3. Only 3 and an input 2 have a
// sum that is no word, with each of eight x(n-1). From at most 2 the next y is 3 for 1 or 2 and an
// input 2, and the one after that for ten pairs of y(n-1) and x(n). The slanted sum is x(n) - 2 c,
// and is over 4 for y(n-1) = -4 and inputs 1 and 2, where 3 x(n-1) + 8 is at most 4 for three
// words; where 4 wraps to -4, it is over 4 for y(n-1) = 3 and an input 2 as well, with each x(n-1).
const ROWS: [Row; 15] = [
    Row(FREE, 1, SetPart::Base, 0, 0),
    Row(FREE, 1, SetPart::Step, 0, 0),
    Row(FREE, 1, SetPart::Safe, 8, 8),
    Row(NONE, 1, SetPart::Base, 1, 1),
    Row(NONE, 1, SetPart::Step, 0, 0),
    Row(NONE, 1, SetPart::Safe, 0, 0),
    Row(NEGATIVE, 1, SetPart::Base, 1, 1),
    Row(NEGATIVE, 1, SetPart::Step, 96, 96),
    Row(NEGATIVE, 1, SetPart::Safe, 4, 4),
    Row(BELOW, 1, SetPart::Step, 16, 16),
    Row(BELOW, 1, SetPart::Safe, 0, 0),
    Row(BELOW, 2, SetPart::Step, 80, 80),
    Row(LOW, 1, SetPart::Base, 0, 0),
    Row(LOW, 2, SetPart::Base, 1, 1),
    Row(SLANTED, 1, SetPart::Step, 14, 6),
];

/// The inequality of a line.
fn inequality(line: &Line) -> Option<Inequality> {
    let mut coefficients = CoefficientList::new();
    coefficients.try_push(line.0[0]).ok()?;
    coefficients.try_push(line.0[1]).ok()?;
    Some(Inequality {
        coefficients,
        bound: line.1,
    })
}

/// The candidate of these inequalities.
fn candidate_of(lines: &[Line], depth: u32) -> Option<Candidate> {
    let mut inequalities = InequalityList::new();
    for line in lines {
        inequalities.try_push(inequality(line)?).ok()?;
    }
    Some(Candidate {
        inequalities,
        depth,
    })
}

/// The netlist of the controller.
fn netlist(alloc: Global, overflow: OverflowMode) -> Option<Netlist> {
    let format = Format::new(2, 1, Rounding::Floor, overflow).ok()?;
    let quantised = quantised_of(alloc, FIRST, format, Realisation::Dfi)?;
    realise(alloc, &quantised).ok()
}

/// The goal that a sentence of a candidate is broken, with inputs from -2 to 2.
fn goal_of(alloc: Global, net: &Netlist, candidate: &Candidate, part: SetPart) -> Option<Goal> {
    let format = net.format();
    if !candidate.is_shaped(net.registers()) || format.hi() < -2 || 2 < format.lo() {
        return None;
    }
    let range = InputRange { low: -2, high: 2 };
    set_goal(alloc, net, range, candidate, part).ok()
}

/// How many of the words break a sentence.
fn breaks_of(alloc: Global, overflow: OverflowMode, row: &Row) -> Option<u32> {
    let net = netlist(alloc, overflow)?;
    let candidate = candidate_of(row.0, row.1)?;
    let goal = goal_of(alloc, &net, &candidate, row.2)?;
    count_of(alloc, &goal, 3)
}

fn is_right(alloc: Global, row: &Row) -> bool {
    breaks_of(alloc, OverflowMode::Wrap, row) == Some(row.3)
        && breaks_of(alloc, OverflowMode::Saturate, row) == Some(row.4)
}

#[test]
fn goals_by_hand(rt: HostRuntime) {
    for row in &ROWS {
        assert!(rt; is_right(rt.alloc(), row));
    }
}
