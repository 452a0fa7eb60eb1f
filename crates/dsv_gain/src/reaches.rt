// How far exact values are driven by inputs in a range, without rounding.
use dsv_base::NoMemory;
use dsv_netlist::{PULSE, Responses};
use dsv_realise::RangedNetlist;
use dsv_word::Format;
use std::alloc::Global;

/// Which end of the words a list of inputs drives a value to.
#[derive(Clone, Copy, Debug, PartialEq, Eq)]
pub(crate) enum Side {
    Upper,
    Lower,
}

/// The least and the greatest number that a value is driven to, times the pulse.
#[derive(Clone, Copy, Debug)]
pub(crate) struct Reach {
    least: i128,
    greatest: i128,
}

impl Reach {
    /// With one input more, to which the value answers so.
    fn with_answer(&self, subject: &RangedNetlist, answer: i128) -> Reach {
        let first = answer.saturating_mul(i128::from(subject.low));
        let last = answer.saturating_mul(i128::from(subject.high));
        Reach {
            least: self.least.saturating_add(first.min(last)),
            greatest: self.greatest.saturating_add(first.max(last)),
        }
    }

    /// How far it passes the greatest word, negative where it doesn't.
    fn excess_above(&self, format: &Format) -> i128 {
        let greatest = PULSE.saturating_mul(i128::from(format.hi()));
        self.greatest.saturating_sub(greatest)
    }

    /// How far it passes the least word, negative where it doesn't.
    fn excess_below(&self, format: &Format) -> i128 {
        let least = PULSE.saturating_mul(i128::from(format.lo()));
        least.saturating_sub(self.least)
    }
}

/// A value that a list of inputs may drive past the words.
#[derive(Clone, Copy, Debug, PartialEq, Eq, PartialOrd, Ord)]
pub(crate) struct Candidate {
    /// How far it passes the words, times the pulse.
    pub past: i128,
    /// Its number among the exact values of a sample.
    pub value: usize,
    /// Whether it passes the greatest word farther than the least one.
    pub upwards: bool,
}

impl Candidate {
    /// The side that it passes farther, and then the other.
    pub(crate) fn sides(&self) -> [Side; 2] {
        if self.upwards {
            [Side::Upper, Side::Lower]
        } else {
            [Side::Lower, Side::Upper]
        }
    }
}

/// How far values are driven by no input at all.
pub(crate) fn no_reaches(alloc: Global, values: usize) -> Result<Vec<Reach>, NoMemory> {
    let mut reaches = Vec::new(alloc);
    for _ in 0..values {
        reaches.push(Reach {
            least: 0,
            greatest: 0,
        })?;
    }
    Ok(reaches)
}

/// How far values are driven with one input more, which came so many samples before.
pub(crate) fn more_reaches(
    alloc: Global,
    subject: &RangedNetlist,
    responses: &Responses,
    reaches: &[Reach],
    after: u32,
) -> Result<Vec<Reach>, NoMemory> {
    let mut list = Vec::new(alloc);
    for (value, reach) in reaches.iter().enumerate() {
        list.push(reach.with_answer(subject, responses.answer(value, after)))?;
    }
    Ok(list)
}

/// The values, those last that are driven farthest past the words.
pub(crate) fn candidates(
    alloc: Global,
    format: &Format,
    reaches: &[Reach],
) -> Result<Vec<Candidate>, NoMemory> {
    let mut list = Vec::new(alloc);
    for (value, reach) in reaches.iter().enumerate() {
        let above = reach.excess_above(format);
        let below = reach.excess_below(format);
        list.push(Candidate {
            past: above.max(below),
            value,
            upwards: below <= above,
        })?;
    }
    list.sort()?;
    Ok(list)
}
