// The pass over samples.
ghost use Rattle.std.specs.Prelude.{◌≡◌, length, slice_index_or, [], IfOk};
ghost use Rattle.dsv_network.specs.Samples.{pass_ends, after_pass, walk_from, begun, loaded};

use crate::ends::SampleEnds;
use crate::ranges::Ranges;
use crate::signal::Signal;
use crate::walk::{Walk, form_at};
use crate::weights::Weights;
use dsv_base::{Items, NoMemory};
use dsv_linear::Form;
use dsv_word::Format;
use std::alloc::Global;

/// Between samples: what the next one starts with, and what is known so far.
#[derive(Drop)]
pub struct Pass {
    pub format: Format,
    /// How many symbols the registers begin with, the first ones.
    pub count: usize,
    /// Whether no sample has been.
    pub is_first: bool,
    /// The forms of the numbers in the registers.
    pub registers: Items<Form>,
    /// What the coefficients of the values of nodes come to over all samples so far.
    pub weights: Items<Weights>,
    /// The ranges of all symbols, those that the registers begin with and those of a sample.
    pub ranges: Ranges,
    /// The forms of the values of nodes in the sample before.
    pub forms: Items<Form>,
}

/// A sample.
#[derive(Drop)]
pub(crate) struct Sample {
    /// What it shows of its values.
    pub ends: SampleEnds,
    /// What is known after it, unless it was given up.
    pub walk: Option<Walk>,
}

/// A sample, where the start has so many symbols.
fn sample_of(alloc: Global, nodes: &[Signal], count: usize, pass: &Pass) -> Result<Sample, NoMemory>
    ensures walk { IfOk result (λ it. it.walk ≡ walk_from pass.now nodes.now (begun pass.now)) }
    ensures run { IfOk result (λ it. it.ends.run ≡ pass_ends count nodes.now pass.now) }
    ensures step { IfOk result (λ it. it.ends.step ≡ pass_ends 0 nodes.now pass.now) }
{
    let mut ends = SampleEnds::new(alloc);
    let mut walk = Walk::begin(alloc, pass)?;
    for node in nodes {
        let i = walk.weights.len();
        let Some(next) = walk.with_node(alloc, pass, node)? else {
            return Ok(Sample {
                ends: ends.left(),
                walk: None,
            });
        };
        ends = ends.with_node(count, pass, &next, i, node)?;
        walk = next;
    }
    Ok(Sample {
        ends,
        walk: Some(walk),
    })
}

/// The form of a node's value, for a register that is loaded from it.
fn loaded_form(alloc: Global, forms: &Items<Form>, i: u32) -> Result<Form, NoMemory>
    ensures { IfOk result (λ form. form ≡ slice_index_or forms.now i []) }
{
    match form_at(forms, i) {
        Some(form) => form.copy(alloc),
        None => Ok(Form::new(alloc)),
    }
}

/// The forms of registers that are loaded from these nodes.
fn loaded_forms(alloc: Global, next: &[u32], forms: &Items<Form>) -> Result<Items<Form>, NoMemory>
    ensures { IfOk result (λ registers. registers ≡ loaded next.now forms.now) }
{
    let mut registers = Items::new(alloc);
    for i in next {
        registers.push(loaded_form(alloc, forms, *i)?)?;
    }
    Ok(registers)
}

/// One sample more; answers what it shows of its values. A sample that is given up leaves the
/// pass as it was.
pub fn add_sample(
    alloc: Global,
    nodes: &[Signal],
    next: &[u32],
    pass: &mut Pass,
) -> Result<SampleEnds, NoMemory>
    ensures pass { IfOk result (λ u. pass.new ≡ after_pass nodes.now next.now pass.old) }
    ensures run { IfOk result
        (λ ends. ends.run ≡ pass_ends (length next.now) nodes.now pass.old) }
    ensures step { IfOk result (λ ends. ends.step ≡ pass_ends 0 nodes.now pass.old) }
{
    let Sample { ends, walk } = sample_of(alloc, nodes, next.len(), pass)?;
    if let Some(walk) = walk {
        pass.is_first = false;
        pass.registers = loaded_forms(alloc, next, &walk.forms)?;
        pass.weights = walk.weights;
        pass.ranges = walk.ranges;
        pass.forms = walk.forms;
    }
    Ok(ends)
}
