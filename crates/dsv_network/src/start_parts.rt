// How much of a sample's ranges is due to what the registers began with.
ghost use Rattle.std.specs.Prelude.{◌≡◌, take};
ghost use Rattle.dsv_network.specs.Gains.{start_part, is_under_word, value_part};
ghost use Rattle.dsv_network.specs.Gains.{node_has_settled, has_settled};

use crate::pass::Pass;
use crate::signal::Signal;
use crate::walk::form_at;
use dsv_algebra::NarrowInteger;
use dsv_base::Items;
use dsv_linear::{Form, RANGE_SCALE, Range, SCALE, extreme_sums};

/// What these symbols, the first ones, make of the range of a form: the scales times its width.
fn start_part(starts: &[Range], form: &Form) -> Option<NarrowInteger>
    ensures { result ≡ start_part starts.now form.now }
{
    let sums = extreme_sums(starts, form)?;
    sums.high.checked_sub(sums.low)
}

/// What they make of the range of the value of this number.
fn value_part(starts: &[Range], forms: &Items<Form>, i: u32) -> Option<NarrowInteger>
    ensures { result ≡ value_part starts.now forms.now i }
{
    start_part(starts, form_at(forms, i)?)
}

/// Whether a width is known and less than that of one word.
#[tactic(auto, using(dsv_linear::proofs::Scales::scales))]
fn is_under_word(part: Option<NarrowInteger>) -> bool
    ensures { result ≡ is_under_word part }
{
    match part {
        Some(width) => width.get() < i128::from(SCALE * RANGE_SCALE),
        None => false,
    }
}

/// Whether it is so of what a node shows, if it shows anything.
fn node_has_settled(starts: &[Range], forms: &Items<Form>, node: &Signal) -> bool
    ensures { result ≡ node_has_settled starts.now forms.now node.now }
{
    match node {
        Signal::Checked(of) | Signal::Shown(of) => is_under_word(value_part(starts, forms, *of)),
        _ => true,
    }
}

/// The ranges of the symbols that the registers begin with.
fn start_ranges(pass: &Pass) -> &[Range]
    ensures { result.now ≡ take pass.now.count pass.now.ranges }
{
    let ranges = pass.ranges.as_slice();
    let count = pass.count;
    if count < ranges.len() {
        &ranges[..count]
    } else {
        ranges
    }
}

/// Whether in each value that the sample before showed the part of the start's symbols is less than
/// one word.
pub fn has_settled(nodes: &[Signal], pass: &Pass) -> bool
    ensures { result ≡ has_settled nodes.now pass.now }
{
    let starts = start_ranges(pass);
    nodes
        .iter()
        .all(|node| node_has_settled(starts, &pass.forms, node))
}
