// Products by constants: sums of as many shifted copies as the constant has signed digits.
use dsv_rewrite::simplify;
use dsv_term::{Goal, MAX_WIDTH, TermNode, Terms};
use std::alloc::Global;

/// The greatest coefficient that is tried, and that of the least's size.
const GREATEST: i64 = 512;

/// Whether an input's product is equal to another input.
fn goal_of(alloc: Global, width: u32, coeff: i64) -> Option<Goal> {
    if width == 0 || width > MAX_WIDTH {
        return None;
    }
    let mut terms = Terms::new(alloc);
    let x = terms.input(width).ok()?;
    let answer = terms.input(width).ok()?;
    let product = terms.mul_const(x, coeff).ok()?;
    let root = terms.eq(product, answer).ok()?;
    Goal::new(alloc, terms, root).ok()
}

/// The goal made simpler.
fn simple_of(alloc: Global, width: u32, coeff: i64) -> Option<Goal> {
    let goal = goal_of(alloc, width, coeff)?;
    simplify(alloc, &goal).ok()
}

/// How many copies are added or taken away after the first, where no product is left.
fn count_of(goal: &Goal) -> Option<u32> {
    let mut count: u32 = 0;
    for node in goal.terms.nodes() {
        match node {
            TermNode::Add(_, _) | TermNode::Sub(_, _) => count = count.saturating_add(1),
            TermNode::MulConst { .. } => return None,
            _ => {}
        }
    }
    Some(count)
}

/// How many digits of the non-adjacent form below the width are not 0: digit i is where the bits
/// i + 1 of the number and of three times the number differ.
fn digits_of(width: u32, coeff: i64) -> u32 {
    let size = coeff.unsigned_abs().min(1024);
    let apart = (size ^ (3 * size)) >> 1;
    let below = apart & ((1 << width.min(63)) - 1);
    below.count_ones()
}

/// Whether the product has as many copies as the coefficient has digits.
fn is_right(alloc: Global, width: u32, coeff: i64) -> bool {
    let copies = digits_of(width, coeff).saturating_sub(1);
    match simple_of(alloc, width, coeff) {
        Some(goal) => count_of(&goal) == Some(copies),
        None => false,
    }
}

/// Whether the products by all coefficients have as many copies.
fn are_right(alloc: Global, width: u32) -> bool {
    for coeff in -GREATEST..=GREATEST {
        if !is_right(alloc, width, coeff) {
            return false;
        }
    }
    true
}

#[test]
fn products_at_six_and_at_twelve_bits(rt: HostRuntime) {
    assert!(rt; are_right(rt.alloc(), 6) && are_right(rt.alloc(), 12));
}

/// Whether a goal has no copies, and the constant 0.
fn has_nought(goal: &Goal, width: u32) -> bool {
    let zero = TermNode::Constant { width, value: 0 };
    count_of(goal) == Some(0) && goal.terms.nodes().contains(&zero)
}

/// Whether the product is the constant 0.
fn is_nought(alloc: Global, width: u32, coeff: i64) -> bool {
    match simple_of(alloc, width, coeff) {
        Some(goal) => has_nought(&goal, width),
        None => false,
    }
}

#[test]
fn a_coefficient_without_low_bits_gives_nought(rt: HostRuntime) {
    assert!(rt; is_nought(rt.alloc(), 6, -128) && is_nought(rt.alloc(), 4, 48));
}
