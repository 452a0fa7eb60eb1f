// The boxes that are built in.
ghost use Rattle.dsv_template.specs.Shapes.{IsLawful};
ghost use Rattle.std.specs.Prelude.{IfSome};

use crate::designs::{ALTERNATING, Bound, Design, HALVES, Offer, quantised_in};
use dsv_invariant::shape_of;
use dsv_names::{OverflowMode, Realisation};
use dsv_template::{BoxProposer, Candidate, Inequality, InvariantProposer, Shape};
use std::alloc::Global;

/// The shape of a quantised controller with two bits before the point, as the direct form I.
fn shape(alloc: Global, controller: &'static str, frac_bits: u32) -> Option<Shape>
    ensures { IfSome result IsLawful }
{
    let design = Design {
        controller,
        int_bits: 2,
        frac_bits,
        realisation: Realisation::Dfi,
        overflow: OverflowMode::Wrap,
    };
    let quantised = quantised_in(alloc, &design)?;
    Some(shape_of(&quantised))
}

/// The box after so many others.
fn box_after(alloc: Global, shape: &Shape, others: u32) -> Option<Candidate>
    requires { IsLawful shape.now }
{
    let mut proposer = BoxProposer::new();
    for _ in 0..others {
        let _other = proposer.propose(alloc, shape).ok()??;
    }
    proposer.propose(alloc, shape).ok()?
}

/// Whether so many boxes are offered, and none after them.
fn are_boxes(alloc: Global, controller: &'static str, frac_bits: u32, count: u32) -> bool {
    match shape(alloc, controller, frac_bits) {
        Some(shape) => {
            count > 0
                && box_after(alloc, &shape, count - 1).is_some()
                && box_after(alloc, &shape, count).is_none()
                && box_after(alloc, &shape, count.saturating_add(1)).is_none()
        }
        None => false,
    }
}

#[test]
fn sixteen_boxes_for_four_bits_and_thirty_two_for_sixteen(rt: HostRuntime) {
    let alloc = rt.alloc();
    assert!(rt; are_boxes(alloc, HALVES, 2, 16) && are_boxes(alloc, HALVES, 14, 32));
}

/// Whether an inequality is this one.
fn is_bound(inequality: &Inequality, bound: &Bound) -> bool {
    inequality.coefficients.as_slice() == bound.0 && inequality.bound == bound.1
}

/// Whether a candidate is this one.
fn is_offer(candidate: &Candidate, offer: &Offer) -> bool {
    candidate.depth == offer.1
        && candidate.inequalities.len() == offer.0.len()
        && candidate
            .inequalities
            .as_slice()
            .iter()
            .zip(offer.0)
            .all(|(inequality, bound)| is_bound(inequality, bound))
}

/// All words as outputs, and earlier inputs from 0 to 1.
const FIRST: Offer = Offer(
    &[
        Bound(&[1, 0], 4),
        Bound(&[-1, 0], 0),
        Bound(&[0, 1], 7),
        Bound(&[0, -1], 8),
    ],
    1,
);

/// The outputs -1 and 0, and earlier inputs from 0 to 1.
const LAST: Offer = Offer(
    &[
        Bound(&[1, 0], 4),
        Bound(&[-1, 0], 0),
        Bound(&[0, 1], 0),
        Bound(&[0, -1], 1),
    ],
    8,
);

/// Whether the box after so many others, for inputs from 0.25 to 1, is this one.
fn is_box(alloc: Global, others: u32, offer: &Offer) -> Option<bool> {
    let shape = shape(alloc, ALTERNATING, 2)?;
    Some(is_offer(&box_after(alloc, &shape, others)?, offer))
}

#[test]
fn boxes_of_a_range_without_zero_have_zero(rt: HostRuntime) {
    let first = is_box(rt.alloc(), 0, &FIRST) == Some(true);
    let last = is_box(rt.alloc(), 15, &LAST) == Some(true);
    assert!(rt; first && last);
}
