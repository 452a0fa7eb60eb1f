// The netlist of each realisation, in its parts.
ghost use Rattle.std.specs.Prelude.{◌≡◌, ◌≤◌, ◌+◌, length, IfOk};
ghost use Rattle.dsv_names.specs.declared.realisation.Realisation.TheVariants.{Dfi, Dfii, Tdfii};
ghost use Rattle.dsv_names.specs.declared.realisation.Realisation.TheVariants.{Ddfi, Ddfii, Tddfii};
ghost use Rattle.dsv_realise.specs.Netlists.{net_as, count, transposed_form};
ghost use Rattle.dsv_realise.specs.Netlists.{transposed_nodes, transposed_delta_nodes};
ghost use Rattle.dsv_meaning.specs.Equations.{order};
ghost use Rattle.dsv_realise.specs.Making.{made_at, chained_at, with_delta};
ghost use Rattle.dsv_realise.specs.Parts.{parts_as, most_line_nodes};
ghost use Rattle.dsv_realise.specs.Parts.{most_state_nodes, most_source_nodes};

use crate::forms::{first_form, second_form, second_form_state, transposed_form};
use crate::lines::line;
use crate::nodes::shift;
use crate::parts::Parts;
use crate::summands::{delta_line, transposed_line};
use dsv_base::NoMemory;
use dsv_netlist::Node;
use dsv_quantiser::Quantised;
use std::alloc::Global;

/// Direct form I: past inputs and outputs shift.
pub(crate) fn direct_form_one(alloc: Global, quantised: &Quantised) -> Result<Parts, NoMemory>
    ensures { IfOk result (λ parts. parts_as Dfi quantised.now parts ≡ net_as Dfi quantised.now) }
{
    let form = first_form(alloc, quantised)?;
    let order = quantised.order() as u32;
    let mut next = Vec::new(alloc);
    shift(&mut next, 0, 1, order)?;
    shift(&mut next, form.place, order + 1, order)?;
    Ok(Parts {
        nodes: form.nodes,
        next,
        output: form.place,
    })
}

/// Direct form II: states shift.
pub(crate) fn direct_form_two(alloc: Global, quantised: &Quantised) -> Result<Parts, NoMemory>
    ensures { IfOk result (λ parts. parts_as Dfii quantised.now parts ≡ net_as Dfii quantised.now) }
{
    let state = second_form_state(alloc, quantised)?;
    let mut nodes = state.nodes;
    let output = second_form(&mut nodes, quantised, state.place)?;
    let mut next = Vec::new(alloc);
    shift(&mut next, state.place, 1, quantised.order() as u32)?;
    Ok(Parts {
        nodes,
        next,
        output,
    })
}

/// The new words of the transposed direct form, after its output.
fn transposed_states(
    alloc: Global,
    nodes: &mut Vec<Node>,
    quantised: &Quantised,
    output: u32,
) -> Result<Vec<u32>, NoMemory>
    requires begun { made_at nodes.old.items output ≡ transposed_form quantised.now }
    requires few { length nodes.old.items ≤ most_line_nodes }
    ensures { IfOk result (λ next. chained_at nodes.new.items next.items
        ≡ transposed_nodes quantised.now) }
{
    let mut next = Vec::new(alloc);
    for i in 1..quantised.order() + 1 {
        let place = line(nodes, quantised, &transposed_line(quantised, i, output))?;
        next.push(place)?;
    }
    Ok(next)
}

/// Transposed direct form II: each state is made of the one after it.
pub(crate) fn transposed_form_two(alloc: Global, quantised: &Quantised) -> Result<Parts, NoMemory>
    ensures { IfOk result (λ parts. parts_as Tdfii quantised.now parts
        ≡ net_as Tdfii quantised.now) }
{
    let form = transposed_form(alloc, quantised)?;
    let mut nodes = form.nodes;
    let next = transposed_states(alloc, &mut nodes, quantised, form.place)?;
    Ok(Parts {
        nodes,
        next,
        output: form.place,
    })
}

/// New words of a chain of a delta form, each with delta times the old word before it: `before` is
/// the node of the word before the first one, and the old words are those of the nodes from `first`
/// on.
fn delta_states(
    nodes: &mut Vec<Node>,
    next: &mut Vec<u32>,
    quantised: &Quantised,
    before: u32,
    first: u32,
) -> Result<(), NoMemory>
    requires few { length nodes.old.items ≤ most_state_nodes }
    requires low { first ≤ most_source_nodes }
    ensures made { IfOk result (λ u. chained_at nodes.new.items next.new.items ≡
        with_delta quantised.now before (count first (order quantised.now))
        (chained_at nodes.old.items next.old.items)) }
    ensures few { IfOk result (λ u. length nodes.new.items ≤ length nodes.old.items + 80) }
{
    let end = first + quantised.order() as u32;
    let mut older = before;
    for node in first..end {
        let place = line(nodes, quantised, &delta_line(quantised, node, older))?;
        next.push(place)?;
        older = node;
    }
    Ok(())
}

/// Delta direct form I: past inputs and outputs, each with delta times the one before it.
pub(crate) fn delta_form_one(alloc: Global, quantised: &Quantised) -> Result<Parts, NoMemory>
    ensures { IfOk result (λ parts. parts_as Ddfi quantised.now parts ≡ net_as Ddfi quantised.now) }
{
    let form = first_form(alloc, quantised)?;
    let mut nodes = form.nodes;
    let mut next = Vec::new(alloc);
    delta_states(&mut nodes, &mut next, quantised, 0, 1)?;
    delta_states(
        &mut nodes,
        &mut next,
        quantised,
        form.place,
        quantised.order() as u32 + 1,
    )?;
    Ok(Parts {
        nodes,
        next,
        output: form.place,
    })
}

/// Delta direct form II: states, each with delta times the one before it.
pub(crate) fn delta_form_two(alloc: Global, quantised: &Quantised) -> Result<Parts, NoMemory>
    ensures { IfOk result (λ parts. parts_as Ddfii quantised.now parts
        ≡ net_as Ddfii quantised.now) }
{
    let state = second_form_state(alloc, quantised)?;
    let mut nodes = state.nodes;
    let output = second_form(&mut nodes, quantised, state.place)?;
    let mut next = Vec::new(alloc);
    delta_states(&mut nodes, &mut next, quantised, state.place, 1)?;
    Ok(Parts {
        nodes,
        next,
        output,
    })
}

/// The new words of the transposed delta form, after its output.
fn transposed_delta_states(
    alloc: Global,
    nodes: &mut Vec<Node>,
    quantised: &Quantised,
    output: u32,
) -> Result<Vec<u32>, NoMemory>
    requires begun { made_at nodes.old.items output ≡ transposed_form quantised.now }
    requires few { length nodes.old.items ≤ most_line_nodes }
    ensures { IfOk result (λ next. chained_at nodes.new.items next.items
        ≡ transposed_delta_nodes quantised.now) }
{
    let mut next = Vec::new(alloc);
    for i in 1..quantised.order() + 1 {
        let change = line(nodes, quantised, &transposed_line(quantised, i, output))?;
        let place = line(nodes, quantised, &delta_line(quantised, i as u32, change))?;
        next.push(place)?;
    }
    Ok(next)
}

/// Transposed delta direct form II: each state with delta times a line that is made of the one
/// after it.
pub(crate) fn transposed_delta_form_two(
    alloc: Global,
    quantised: &Quantised,
) -> Result<Parts, NoMemory>
    ensures { IfOk result (λ parts. parts_as Tddfii quantised.now parts
        ≡ net_as Tddfii quantised.now) }
{
    let form = transposed_form(alloc, quantised)?;
    let mut nodes = form.nodes;
    let next = transposed_delta_states(alloc, &mut nodes, quantised, form.place)?;
    Ok(Parts {
        nodes,
        next,
        output: form.place,
    })
}
