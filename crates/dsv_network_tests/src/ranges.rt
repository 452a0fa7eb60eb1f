// Ranges of small networks, worked out by hand, in words from -8 to 7.
use dsv_algebra::NarrowInteger;
use dsv_base::Items;
use dsv_linear::{RANGE_SCALE, Range};
use dsv_names::{OverflowMode, Rounding};
use dsv_network::{NearQuotient, Network, Outlook, Ranges, Signal, gain_of, ranges_of};
use dsv_word::Format;
use std::alloc::Global;
use std::test::Fail;

/// The range of a symbol from one number to another.
fn symbol(low: i128, high: i128) -> Range {
    let scale = i128::from(RANGE_SCALE);
    Range::between(&low.saturating_mul(scale), &high.saturating_mul(scale))
}

/// A quotient of a node's value.
fn quotient(of: u32, divisor: u64, bits: u32, low: i128, high: i128) -> Signal {
    Signal::Near(NearQuotient {
        of,
        divisor,
        bits,
        errors: Range::between(&low, &high),
    })
}

/// A network of these nodes, whose registers are loaded from these.
fn network_of(alloc: Global, signals: &[Signal], loads: &[u32]) -> Option<Network> {
    let mut nodes = Items::new(alloc);
    for signal in signals {
        nodes.push(*signal).ok()?;
    }
    let mut next = Items::new(alloc);
    for load in loads {
        next.push(*load).ok()?;
    }
    Some(Network {
        format: Format::new(3, 1, Rounding::Floor, OverflowMode::Wrap).ok()?,
        nodes,
        next,
    })
}

/// Starts of so many registers that are any words.
fn any_words(alloc: Global, count: usize) -> Option<Ranges> {
    let mut starts = Ranges::new(alloc);
    for _ in 0..count {
        starts.push(symbol(-8, 7)).ok()?;
    }
    Some(starts)
}

/// Whether these are the ends of the ranges.
fn are_ends(ranges: &Ranges, ends: &[(i128, i128)]) -> bool {
    let ranges = ranges.as_slice();
    let mut met = ranges.len() == ends.len();
    for (range, end) in ranges.iter().zip(ends) {
        met = met && range.low.get() == end.0 && range.high.get() == end.1;
    }
    met
}

/// What is wanted of a gain.
#[derive(Clone, Copy)]
enum Wanted {
    /// Depth, the sample of the ranges, and their ends.
    Safe(u32, u32, &'static [(i128, i128)]),
    /// Sample and value.
    Leaves(u32, usize),
}

/// Whether a network's gain is the one that is wanted.
fn is_found(alloc: Global, signals: &[Signal], loads: &[u32], wanted: Wanted) -> Option<bool> {
    let net = network_of(alloc, signals, loads)?;
    let starts = any_words(alloc, loads.len())?;
    let found = gain_of(alloc, &net, starts, 64).ok()?;
    Some(match (found, wanted) {
        (Outlook::Safe(gain), Wanted::Safe(depth, settled, ends)) => {
            gain.depth == depth && gain.settled == settled && are_ends(&gain.ranges, ends)
        }
        (Outlook::Leaves { sample, value }, Wanted::Leaves(first, second)) => {
            sample == first && value == second
        }
        _ => false,
    })
}

/// An outer signal from 0 to 6, and what is near a third of it: up to 1 less, and no more.
fn third() -> [Signal; 4] {
    [
        Signal::Outer(symbol(0, 6)),
        quotient(0, 3, 0, -1, 0),
        Signal::Checked(1),
        Signal::Shown(1),
    ]
}

// The third is from -1 to 2. Its coefficient is rounded down, and what that loses counts one unit
// of 2^-7: so a whole number is at most 2, and any number at most 3.
#[test]
fn a_third_is_rounded_inward_and_outward(rt: HostRuntime) -> Result<(), Fail> {
    let wanted = Wanted::Safe(0, 0, &[(-1, 2), (-1, 3)]);
    assert!(rt; is_found(rt.alloc(), &third(), &[], wanted) == Some(true));
    Ok(())
}

/// Half of the sum of a register and an outer signal from 0 to 1, rounded down, is loaded again.
fn half() -> [Signal; 5] {
    [
        Signal::Outer(symbol(0, 1)),
        Signal::Register(0),
        Signal::Sum(0, 1),
        quotient(2, 2, 1, -1, 0),
        Signal::Checked(3),
    ]
}

// After t + 1 samples the register is r / 2^(t + 1), and from -1 + 2^-(t + 1) to 1 - 2^-(t + 1)
// more. From any word r it is from -4.5 to 4 in sample 0, which are words. What is left of r is
// 15 / 2^(t + 1) wide, less than a word from sample 3 on.
#[test]
fn a_half_settles(rt: HostRuntime) -> Result<(), Fail> {
    let wanted = Wanted::Safe(0, 3, &[(-1, 1)]);
    assert!(rt; is_found(rt.alloc(), &half(), &[4], wanted) == Some(true));
    Ok(())
}

/// Whether half shows a range with these ends at a depth.
fn is_half_shown(alloc: Global, depth: u32, end: (i128, i128)) -> Option<bool> {
    let net = network_of(alloc, &half(), &[4])?;
    let starts = any_words(alloc, 1)?;
    let ranges = ranges_of(alloc, &net, starts, depth).ok()??;
    Some(are_ends(&ranges, &[end]))
}

#[test]
fn a_depth_shows_its_sample(rt: HostRuntime) -> Result<(), Fail> {
    for (depth, end) in [(0, (-4, 4)), (1, (-2, 2)), (3, (-1, 1))] {
        assert!(rt; is_half_shown(rt.alloc(), depth, end) == Some(true));
    }
    Ok(())
}

// A sum of an outer signal from 0 to 1 is 8 in sample 7, and no word.
#[test]
fn a_sum_leaves_the_words(rt: HostRuntime) -> Result<(), Fail> {
    let sum = [
        Signal::Outer(symbol(0, 1)),
        Signal::Register(0),
        Signal::Sum(0, 1),
        Signal::Checked(2),
    ];
    assert!(rt; is_found(rt.alloc(), &sum, &[3], Wanted::Leaves(7, 0)) == Some(true));
    Ok(())
}

// What is measured is up to 1 beside an outer signal from 0 to 2, and its double and its difference
// from the signal are shown: the error comes once.
#[test]
fn an_error_comes_once(rt: HostRuntime) -> Result<(), Fail> {
    let measured = [
        Signal::Outer(symbol(0, 2)),
        quotient(0, 1, 0, -1, 1),
        Signal::Product {
            coeff: NarrowInteger::from(2i64),
            of: 1,
        },
        Signal::Difference(1, 0),
        Signal::Checked(1),
        Signal::Shown(2),
        Signal::Shown(3),
    ];
    let wanted = Wanted::Safe(0, 0, &[(-1, 3), (-2, 6), (-1, 1)]);
    assert!(rt; is_found(rt.alloc(), &measured, &[], wanted) == Some(true));
    Ok(())
}

// Nothing is known of a quotient by 0, nor of one with more bits than a word.
#[test]
fn unlawful_quotients_give_nothing(rt: HostRuntime) -> Result<(), Fail> {
    for near in [quotient(0, 0, 0, 0, 0), quotient(0, 1, 49, 0, 0)] {
        let nodes = [Signal::Outer(symbol(0, 1)), near, Signal::Shown(1)];
        assert!(rt; is_found(rt.alloc(), &nodes, &[], Wanted::Leaves(0, 0)) == Some(true));
    }
    Ok(())
}
