// The goal of one sample of a netlist that adds its products exactly and rounds their sum once, in
// words of three bits: from all starts and at all inputs it is 1 where the sample breaks.
use crate::goals::{is_one, overflow_of};
use dsv_names::{OverflowMode, Rounding};
use dsv_netlist::{Netlist, Node};
use dsv_template::{Candidate, InequalityList, SetPart};
use dsv_term::{Goal, TermId};
use dsv_unroll::{InputRange, set_goal};
use dsv_word::Format;
use std::alloc::Global;

/// y(n) = 1.25 x(n) + 0.75 y(n-1) - y(n-2), with two bits after the point. In quarters the sum is 5
/// x(n) + 3 y(n-1) - 4 y(n-2). Register 0 is y(n-1), and register 1 is y(n-2).
const NODES: &[Node] = &[
    Node::Input,
    Node::Reg(0),
    Node::Reg(1),
    Node::MulConst { coeff: 5, of: 0 },
    Node::MulConst { coeff: 3, of: 1 },
    Node::Add(3, 4),
    Node::Scale(2),
    Node::Sub(5, 6),
    Node::Round(7),
    Node::Fit(8),
];

/// y(n) = x(n) - 0.75 y(n-1): in quarters 4 x(n) - 3 y(n-1).
const SHORT: &[Node] = &[
    Node::Input,
    Node::Reg(0),
    Node::Scale(0),
    Node::MulConst { coeff: 3, of: 1 },
    Node::Sub(2, 3),
    Node::Round(4),
    Node::Fit(5),
];

/// How a sum is rounded, and how its exact value becomes a word.
#[derive(Clone, Copy)]
struct Modes(Rounding, OverflowMode);

const MODES: [Modes; 6] = [
    Modes(Rounding::Floor, OverflowMode::Wrap),
    Modes(Rounding::Floor, OverflowMode::Saturate),
    Modes(Rounding::Ceil, OverflowMode::Wrap),
    Modes(Rounding::Ceil, OverflowMode::Saturate),
    Modes(Rounding::Nearest, OverflowMode::Wrap),
    Modes(Rounding::Nearest, OverflowMode::Saturate),
];

/// The least word, and the greatest.
const LOW: i64 = -4;

const HIGH: i64 = 3;

/// How many lists of three words there are.
const TRIPLES: u32 = 512;

/// The netlist of these nodes, whose output is the first entry of `next`.
fn netlist_of(alloc: Global, nodes: &[Node], next: &[u32], modes: Modes) -> Option<Netlist> {
    let Modes(rounding, overflow) = modes;
    let format = Format::new(1, 2, rounding, overflow).ok()?;
    let output = *next.first()?;
    let nodes = Vec::from_slice(alloc, nodes).ok()?;
    let next = Vec::from_slice(alloc, next).ok()?;
    Netlist::new(nodes, next, output, 0, format)
}

fn netlist(alloc: Global, modes: Modes) -> Option<Netlist> {
    netlist_of(alloc, NODES, &[9, 1], modes)
}

/// The word with this digit.
fn word_of(digit: u32) -> i64 {
    let word = i64::from(digit % 8);
    if word > HIGH { word - 8 } else { word }
}

/// The list of this number, the lowest digit for the first word.
fn words_of(number: u32) -> [i64; 3] {
    [word_of(number), word_of(number / 8), word_of(number / 64)]
}

/// The exact value of a sample by the equation, after the last output and the one before it.
fn exact_of(rounding: Rounding, last: i64, before: i64, x: i64) -> i64 {
    let products = x.saturating_mul(5).saturating_add(last.saturating_mul(3));
    let quarters = products.saturating_sub(before.saturating_mul(4));
    match rounding {
        Rounding::Floor => quarters >> 2,
        Rounding::Ceil => quarters.saturating_add(3) >> 2,
        Rounding::Nearest => quarters.saturating_add(2) >> 2,
    }
}

/// The goal that one sample breaks, from any registers.
fn sample_goal(alloc: Global, net: &Netlist) -> Option<Goal> {
    let format = net.format();
    let free = Candidate {
        inequalities: InequalityList::new(),
        depth: 1,
    };
    if !free.is_shaped(net.registers()) || format.hi() < LOW || HIGH < format.lo() {
        return None;
    }
    let range = InputRange {
        low: LOW,
        high: HIGH,
    };
    set_goal(alloc, net, range, &free, SetPart::Safe).ok()
}

/// Whether the goal of one sample is 1 exactly where it breaks.
fn samples_agree(alloc: Global, modes: Modes) -> Option<bool> {
    let net = netlist(alloc, modes)?;
    let goal = sample_goal(alloc, &net)?;
    let mut agree = true;
    for number in 0..TRIPLES {
        let [last, before, x] = words_of(number);
        let exact = exact_of(net.format().rounding, last, before, x);
        let broken = !net.format().fits(i128::from(exact));
        agree = agree && is_one(alloc, &goal, 3, number) == Some(broken);
    }
    Some(agree)
}

/// The width of the widest term of a goal.
fn widest_of(goal: &Goal) -> u32 {
    let mut widest = 0;
    for id in 0..goal.terms.len() {
        widest = goal.terms.width(TermId(id)).max(widest);
    }
    widest
}

/// The width of the widest term of one sample from any registers.
fn sample_width(alloc: Global, modes: Modes) -> Option<u32> {
    let net = netlist(alloc, modes)?;
    let goal = sample_goal(alloc, &net)?;
    Some(widest_of(&goal))
}

/// The width of the widest term of the short line's first sample, with inputs of two bits.
fn short_width(alloc: Global, modes: Modes) -> Option<u32> {
    let net = netlist_of(alloc, SHORT, &[6], modes)?;
    let goal = overflow_of(alloc, &net, -2, 1, 1)?;
    Some(widest_of(&goal))
}

#[test]
fn goals_of_samples_agree_with_the_equation(rt: HostRuntime) {
    for modes in &MODES {
        assert!(rt; samples_agree(rt.alloc(), *modes) == Some(true));
    }
}

// From registers and an input that are words the sum is from -44 to 40, and with what is added
// before it is rounded at most 43: seven bits.
#[test]
fn sums_of_products_have_no_bit_more(rt: HostRuntime) {
    for modes in &MODES {
        assert!(rt; sample_width(rt.alloc(), *modes) == Some(7));
    }
}

// Inputs of two bits have four in quarters, and the first sample's difference has one more.
#[test]
fn scaled_terms_have_no_second_sign(rt: HostRuntime) {
    let modes = Modes(Rounding::Floor, OverflowMode::Wrap);
    assert!(rt; short_width(rt.alloc(), modes) == Some(5));
}
