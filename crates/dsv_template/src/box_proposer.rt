// The proposer that is built in.
ghost use Rattle.std.specs.Prelude.{◌≡◌, ◌<◌, ◌≤◌, ◌+◌, ◌*◌, ◌^◌, neg_ℤ, true, false};
ghost use Rattle.std.specs.Prelude.{Some, None, [], pos, ◌≤ℤ◌};
ghost use Rattle.std.proofs.Common.{rules};
ghost use Rattle.dsv_template.specs.Boxes.{bits_of, sizes_of, or_less, or_more, upper_end};
ghost use Rattle.dsv_template.specs.Boxes.{lower_end, unit, inequality, ends_of, box_at, boxes};
ghost use Rattle.dsv_template.specs.Boxes.{boxes_from, box_before};
ghost use Rattle.dsv_template.specs.Shapes.{IsLawful};
ghost use Rattle.dsv_word.specs.Width.{widest_word};
ghost use Rattle.dsv_template.specs.declared.shape.Shape.{Shape};

use crate::candidate::{Candidate, CoefficientList, Inequality, InequalityList, bit_length};
use crate::proposer::InvariantProposer;
use crate::shape::Shape;
use crate::verdict::Why;
use dsv_base::NoMemory;
use std::alloc::Global;

/// Offers boxes, from the words down to those of a few bits, for the depths 1, 2, 4 and 8. It takes
/// no memory, and is dry after the last.
#[derive(Drop)]
pub struct BoxProposer {
    /// The place of the next box.
    place: u32,
    /// The shape that was asked last.
    asked: Option<Shape>,
    /// Whether the end was told.
    finished: bool,
}

/// How many bits the words have.
fn bits_of(shape: &Shape) -> u32
    requires { IsLawful shape.now }
    ensures value { result ≡ bits_of shape.now }
    ensures some { 2 ≤ result }
    ensures few { result ≤ 48 }
{
    bit_length(&shape.hi) + 1
}

/// How many sizes of boxes are tried at a depth.
fn sizes_of(shape: &Shape) -> u32
    requires { IsLawful shape.now }
    ensures value { result ≡ sizes_of shape.now }
    ensures some { 1 ≤ result }
    ensures few { result ≤ 8 }
    ensures no_more { result ≤ bits_of shape.now }
{
    bits_of(shape).min(8)
}

/// The number, or 0 where it is more.
fn or_less(z: &i64) -> i64
    ensures { result ≡ or_less z.now }
{
    if *z < 0 { *z } else { 0 }
}

/// The number, or 0 where it is less.
fn or_more(z: &i64) -> i64
    ensures { result ≡ or_more z.now }
{
    if 0 < *z { *z } else { 0 }
}

/// Two to that power.
#[tactic(auto, using(dsv_word::proofs::Powers::power_small))]
fn power(bits: u32) -> i64
    requires { bits ≤ widest_word }
    ensures value { result ≡ pos (2 ^ bits) }
    ensures small { result ≤ℤ pos (2 ^ widest_word) }
{
    1i64 << bits
}

/// The greatest word of a register in the box of 2^bits.
fn upper_end(shape: &Shape, bits: u32, register: u32) -> i64
    requires { bits ≤ 47 }
    ensures { result ≡ upper_end shape.now bits register }
{
    if register < shape.past_inputs {
        or_more(&shape.xhi)
    } else {
        power(bits) - 1
    }
}

/// Minus the least word of a register in the box of 2^bits.
fn lower_bound(shape: &Shape, bits: u32, register: u32) -> i64
    requires lawful { IsLawful shape.now }
    requires bits { bits ≤ 47 }
    ensures { result ≡ neg_ℤ (lower_end shape.now bits register) }
{
    if register < shape.past_inputs {
        -or_less(&shape.xlo)
    } else {
        power(bits)
    }
}

/// The coefficient at a place: c at one register, else 0.
fn unit(register: u32, c: &i64, place: u32) -> i64
    ensures { result ≡ unit register c.now place }
{
    if place == register { *c } else { 0 }
}

/// The inequality that a register, times c, is at most the bound.
fn inequality(shape: &Shape, register: u32, c: &i64, bound: i64) -> Inequality
    requires { IsLawful shape.now }
    ensures { result ≡ inequality shape.now register c.now bound }
{
    let mut coefficients = CoefficientList::new();
    for place in 0..shape.registers {
        coefficients.push(unit(register, c, place));
    }
    Inequality {
        coefficients,
        bound,
    }
}

/// The ends of all registers in the box of 2^bits: for each the upper end, then the lower one.
fn ends_of(shape: &Shape, bits: u32) -> InequalityList
    requires lawful { IsLawful shape.now }
    requires bits { bits ≤ 47 }
    ensures { result.items ≡ ends_of shape.now bits shape.now.registers }
{
    let mut inequalities = InequalityList::new();
    for register in 0..shape.registers {
        let upper = upper_end(shape, bits, register);
        inequalities.push(inequality(shape, register, &1, upper));
        let lower = lower_bound(shape, bits, register);
        inequalities.push(inequality(shape, register, &-1, lower));
    }
    inequalities
}

/// The box at a place of the list of all.
fn box_at(shape: &Shape, place: u32) -> Candidate
    requires lawful { IsLawful shape.now }
    requires place { place < 4 * sizes_of shape.now }
    ensures { result ≡ box_at shape.now place }
{
    let sizes = sizes_of(shape);
    let bits = bits_of(shape) - 1 - place % sizes;
    Candidate {
        inequalities: ends_of(shape, bits),
        depth: 2u32.pow(place / sizes),
    }
}

impl BoxProposer {
    /// A proposer that has offered nothing yet. It takes no memory.
    pub fn new() -> BoxProposer
        // It tells all boxes.
        ensures told { (shape : Shape)
            → ⟦<BoxProposer as InvariantProposer>⟧.to_come result shape ≡ Some (boxes shape) }
        ensures last { ⟦<BoxProposer as InvariantProposer>⟧.last result ≡ None }
        ensures dry { ⟦<BoxProposer as InvariantProposer>⟧.dry result ≡ false }
    {
        BoxProposer {
            place: 0,
            asked: None,
            finished: false,
        }
    }

    /// Whether there is no box left for this shape.
    fn is_done(&self, shape: &Shape) -> bool
        requires { IsLawful shape.now }
        ensures done { result ≡ true
            → boxes_from self.now.finished self.now.place shape.now ≡ [] }
        ensures open { result ≡ false → self.now.finished ≡ false }
        ensures place { result ≡ false → self.now.place < 4 * sizes_of shape.now }
    {
        self.finished || self.place >= 4 * sizes_of(shape)
    }
}

impl InvariantProposer for BoxProposer {
    ghost last = { λ p. box_before p.asked p.place };

    ghost dry = { λ p. p.finished };

    ghost to_come = { λ p shape. Some (boxes_from p.finished p.place shape) };

    // What it hears changes nothing.
    ghost heard = { λ _ _. Unit {0} };

    fn propose(&mut self, _alloc: Global, shape: &Shape) -> Result<Option<Candidate>, NoMemory> {
        if self.is_done(shape) {
            self.finished = true;
            return Ok(None);
        }
        let candidate = box_at(shape, self.place);
        self.place += 1;
        self.asked = Some(*shape);
        Ok(Some(candidate))
    }

    fn tell(&mut self, _verdict: &Why) {}

    ghost dry_is_empty = { λ x shape e. Prim.search rules };
}
