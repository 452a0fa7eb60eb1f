// The lines that two realisations share.
ghost use Rattle.std.specs.Prelude.{◌≡◌, ◌≤◌, length, IfOk};
ghost use Rattle.dsv_realise.specs.Making.{made_at};
ghost use Rattle.dsv_realise.specs.Netlists.{first_form, second_form_state};
ghost use Rattle.dsv_realise.specs.Netlists.{second_form, transposed_form};
ghost use Rattle.dsv_realise.specs.Parts.{line_made, most_line_nodes, most_second_line_nodes};

use crate::lines::line;
use crate::nodes::source_nodes;
use crate::parts::BuiltLine;
use crate::summands::{direct_summands, forward_summands, state_summands, transposed_output};
use dsv_base::NoMemory;
use dsv_netlist::Node;
use dsv_quantiser::Quantised;
use std::alloc::Global;

/// The output's line of both first forms.
pub(crate) fn first_form(alloc: Global, quantised: &Quantised) -> Result<BuiltLine, NoMemory>
    ensures made { IfOk result (λ form. line_made form ≡ first_form quantised.now) }
    ensures few { IfOk result (λ form. length form.nodes.items ≤ most_line_nodes) }
{
    let order = quantised.order() as u32;
    let mut nodes = source_nodes(alloc, order + order)?;
    let place = line(&mut nodes, quantised, &direct_summands(quantised))?;
    Ok(BuiltLine { nodes, place })
}

/// The first line of both second forms.
pub(crate) fn second_form_state(alloc: Global, quantised: &Quantised) -> Result<BuiltLine, NoMemory>
    ensures made { IfOk result (λ form. line_made form ≡ second_form_state quantised.now) }
    ensures few { IfOk result (λ form. length form.nodes.items ≤ most_line_nodes) }
{
    let mut nodes = source_nodes(alloc, quantised.order() as u32)?;
    let place = line(&mut nodes, quantised, &state_summands(quantised))?;
    Ok(BuiltLine { nodes, place })
}

/// The output's line of both second forms, after the first line.
pub(crate) fn second_form(
    nodes: &mut Vec<Node>,
    quantised: &Quantised,
    state: u32,
) -> Result<u32, NoMemory>
    requires begun { made_at nodes.old.items state ≡ second_form_state quantised.now }
    requires few { length nodes.old.items ≤ most_line_nodes }
    ensures made { IfOk result (λ place. made_at nodes.new.items place
        ≡ second_form quantised.now) }
    ensures few { IfOk result (λ place. length nodes.new.items ≤ most_second_line_nodes) }
{
    let _order = quantised.order(); // its range, for the proof
    line(nodes, quantised, &forward_summands(quantised, state))
}

/// The output's line of both transposed forms.
pub(crate) fn transposed_form(alloc: Global, quantised: &Quantised) -> Result<BuiltLine, NoMemory>
    ensures made { IfOk result (λ form. line_made form ≡ transposed_form quantised.now) }
    ensures few { IfOk result (λ form. length form.nodes.items ≤ most_line_nodes) }
{
    let mut nodes = source_nodes(alloc, quantised.order() as u32)?;
    let place = line(&mut nodes, quantised, &transposed_output(quantised))?;
    Ok(BuiltLine { nodes, place })
}
