// What a sample shows of its values.
ghost use Rattle.std.specs.Prelude.{◌≡◌, ◌<◌, length, [], IfOk};
ghost use Rattle.dsv_network.specs.declared.ends.Ends.TheVariants.{Words, Leaves};
ghost use Rattle.dsv_network.specs.Samples.{with_ends, value_ends, value_range, weights_at};
ghost use Rattle.dsv_network.specs.Samples.{shown_by};

use crate::pass::Pass;
use crate::ranges::Ranges;
use crate::signal::Signal;
use crate::walk::Walk;
use dsv_base::NoMemory;
use dsv_linear::{Range, are_words};
use dsv_word::Format;
use std::alloc::Global;

/// What ranges show of a sample's values.
#[derive(Drop)]
pub enum Ends {
    /// The range of each, in their order; all ends are words.
    Words(Ranges),
    /// The number, from 0, of the first whose range isn't known or has an end that is no word.
    Leaves(usize),
}

/// What a sample shows of its values, by their ranges of either kind.
#[derive(Drop)]
pub struct SampleEnds {
    /// In runs from registers of zeros: the start's symbols are 0.
    pub run: Ends,
    /// After any registers in their ranges.
    pub step: Ends,
}

/// What is shown so far, where nothing is known of the values after it.
fn left(ends: Ends) -> Ends
    ensures { result ≡ with_ends ends (Leaves 0) }
{
    match ends {
        Ends::Words(list) => Ends::Leaves(list.len()),
        Ends::Leaves(value) => Ends::Leaves(value),
    }
}

/// What is shown so far, with a value of this range.
fn with_value(ends: Ends, format: &Format, range: Option<Range>) -> Result<Ends, NoMemory>
    ensures { IfOk result (λ now. now ≡ with_ends ends (value_ends format.now range)) }
{
    let mut list = match ends {
        Ends::Words(list) => list,
        Ends::Leaves(value) => return Ok(Ends::Leaves(value)),
    };
    match range {
        Some(range) if are_words(format, &range) => {
            list.push(range)?;
            Ok(Ends::Words(list))
        }
        _ => Ok(Ends::Leaves(list.len())),
    }
}

/// The range of the value of this number, where the first so many symbols are 0: of a whole one it
/// is rounded inward.
fn range_at(whole: bool, walk: &Walk, i: usize, count: usize) -> Option<Range>
    requires { i < length walk.now.weights }
    ensures { result
        ≡ value_range whole count walk.now.ranges (weights_at walk.now.weights i) }
{
    walk.weights.as_slice()[i].value_range(whole, walk.ranges.as_slice(), count)
}

impl SampleEnds {
    /// Of no value yet.
    pub(crate) fn new(alloc: Global) -> Self
        ensures run { result.run ≡ Words [] }
        ensures step { result.step ≡ Words [] }
    {
        SampleEnds {
            run: Ends::Words(Ranges::new(alloc)),
            step: Ends::Words(Ranges::new(alloc)),
        }
    }

    /// Where nothing is known of the values after them.
    pub(crate) fn left(self) -> Self
        ensures run { result.run ≡ with_ends self.run (Leaves 0) }
        ensures step { result.step ≡ with_ends self.step (Leaves 0) }
    {
        SampleEnds {
            run: left(self.run),
            step: left(self.step),
        }
    }

    /// With what a node shows, the value of this number, after which the walk has come so far,
    /// where the start has so many symbols.
    pub(crate) fn with_node(
        self,
        count: usize,
        pass: &Pass,
        walk: &Walk,
        i: usize,
        node: &Signal,
    ) -> Result<Self, NoMemory>
        requires { i < length walk.now.weights }
        ensures run { IfOk result (λ now. now.run
            ≡ with_ends self.run (shown_by count pass.now i node.now walk.now)) }
        ensures step { IfOk result (λ now. now.step
            ≡ with_ends self.step (shown_by 0 pass.now i node.now walk.now)) }
    {
        let whole = match node {
            Signal::Checked(_) => true,
            Signal::Shown(_) => false,
            _ => return Ok(self),
        };
        let run = range_at(whole, walk, i, count);
        let step = range_at(whole, walk, i, 0);
        Ok(SampleEnds {
            run: with_value(self.run, &pass.format, run)?,
            step: with_value(self.step, &pass.format, step)?,
        })
    }
}
