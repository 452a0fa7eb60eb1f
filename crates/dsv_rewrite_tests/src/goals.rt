// Goals of controllers, and goals that are constant.
use dsv_names::{OverflowMode, Realisation, Rounding};
use dsv_quantiser::Quantised;
use dsv_realise::realise;
use dsv_rewrite::simplify;
use dsv_term::{Goal, TermNode, Terms};
use dsv_test_setup::quantised_of;
use dsv_unroll::overflow_goal;
use dsv_word::Format;
use std::alloc::Global;

/// y(n) = x(n) + 0.9 y(n-1): after 1.0 and 1.0 the output is 1.9, and only that is no word.
const FIRST: &str = "digital_system d = { .b = {1.0}, .b_size = 1, .a = {1.0, -0.9}, .a_size = 2 };
implementation r = { .int_bits = 2, .frac_bits = 2, .max = 1.0, .min = -1.0, .delta = 1.0 };";

/// The quantised controller.
fn first_quantised(alloc: Global) -> Option<Quantised> {
    let format = Format::new(2, 2, Rounding::Floor, OverflowMode::Wrap).ok()?;
    quantised_of(alloc, FIRST, format, Realisation::Dfi)
}

/// The goal that its output breaks within two samples, made simpler.
fn overflow_of(alloc: Global, quantised: &Quantised) -> Option<Goal> {
    let net = realise(alloc, quantised).ok()?;
    let format = net.format();
    let low = quantised.xlo();
    let high = quantised.xhi();
    if format.hi() < low || high < format.lo() {
        return None;
    }
    let goal = overflow_goal(alloc, &net, low, high, 2).ok()?;
    simplify(alloc, &goal).ok()
}

/// The value of the root at these values of the inputs.
fn root_value(alloc: Global, goal: &Goal, values: &[u128]) -> Option<u128> {
    if !goal.terms.are_values(values) {
        return None;
    }
    let mut room = goal.terms.reserve_eval(alloc).ok()?;
    Some(goal.terms.eval(goal.root, values, &mut room))
}

/// Whether the root is 1 at the inputs 1.0 and 1.0 alone.
fn is_one_alone(alloc: Global, goal: &Goal) -> bool {
    for number in 0..256u32 {
        let values = [u128::from(number % 16), u128::from(number / 16)];
        if root_value(alloc, goal, &values) != Some(u128::from(number == 4 + 4 * 16)) {
            return false;
        }
    }
    true
}

fn is_found(alloc: Global) -> Option<bool> {
    let quantised = first_quantised(alloc)?;
    let goal = overflow_of(alloc, &quantised)?;
    Some(is_one_alone(alloc, &goal))
}

#[test]
fn an_overflow_is_found_as_before(rt: HostRuntime) {
    assert!(rt; is_found(rt.alloc()) == Some(true));
}

/// The goal that a term less itself is 0.
fn nought_of(alloc: Global) -> Option<Goal> {
    let mut terms = Terms::new(alloc);
    let x = terms.input(5).ok()?;
    let none = terms.sub(x, x).ok()?;
    let root = terms.eq(none, none).ok()?;
    Goal::new(alloc, terms, root).ok()
}

/// That goal made simpler.
fn simple_nought(alloc: Global) -> Option<Goal> {
    let goal = nought_of(alloc)?;
    simplify(alloc, &goal).ok()
}

/// Whether a node is the constant 1.
fn is_one(node: TermNode) -> bool {
    matches!(node, TermNode::Constant { width: 1, value: 1 })
}

/// Whether the root is the constant 1.
fn is_constant(alloc: Global, goal: &Goal) -> bool {
    is_one(goal.terms.node(goal.root)) && root_value(alloc, goal, &[3]) == Some(1)
}

#[test]
fn a_goal_that_always_holds_is_a_constant(rt: HostRuntime) {
    let right = match simple_nought(rt.alloc()) {
        Some(goal) => is_constant(rt.alloc(), &goal),
        None => false,
    };
    assert!(rt; right);
}
