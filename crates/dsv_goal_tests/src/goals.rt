// Goals, and their roots at all values of the inputs.
use dsv_netlist::Netlist;
use dsv_term::Goal;
use dsv_unroll::overflow_goal;
use std::alloc::Global;

/// The overflow goal of a netlist, where its range is one of words.
pub(crate) fn overflow_of(
    alloc: Global,
    net: &Netlist,
    low: i64,
    high: i64,
    samples: u32,
) -> Option<Goal> {
    let format = net.format();
    if format.hi() < low || high < format.lo() {
        return None;
    }
    overflow_goal(alloc, net, low, high, samples).ok()
}

/// Whether the root is 1 at the values of this number: its digits of so many bits, the lowest one
/// for the first input.
pub(crate) fn is_one(alloc: Global, goal: &Goal, bits: u32, number: u32) -> Option<bool> {
    let size = 1u128 << (bits % 8);
    let first = u128::from(number);
    let second = first / size;
    let third = second / size;
    let values = [first % size, second % size, third % size, third / size];
    let values = values.get(..goal.terms.inputs().len())?;
    if !goal.terms.are_values(values) {
        return None;
    }
    let mut room = goal.terms.reserve_eval(alloc).ok()?;
    Some(goal.terms.eval(goal.root, values, &mut room) == 1)
}

/// At how many values of its inputs, of so many bits each, the root of a goal is 1.
pub(crate) fn count_of(alloc: Global, goal: &Goal, bits: u32) -> Option<u32> {
    let inputs = goal.terms.inputs().len().min(4) as u32;
    let mut count: u32 = 0;
    for number in 0..1u32 << (inputs * bits.min(4)) {
        count = count.saturating_add(u32::from(is_one(alloc, goal, bits, number)?));
    }
    Some(count)
}
