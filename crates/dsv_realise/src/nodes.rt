// Nodes made one after another.
ghost use Rattle.std.specs.Prelude.{◌≡◌, ◌<◌, ◌≤◌, ◌+◌, ◌^◌, ◌++◌, length, IfOk};
ghost use Rattle.dsv_meaning.specs.declared.counts.TheConstants.{MOST_ORDER};
ghost use Rattle.dsv_realise.specs.Making.{put};
ghost use Rattle.dsv_realise.specs.Netlists.{sources, shift};
ghost use Rattle.dsv_realise.specs.Parts.{most_source_nodes};

use dsv_base::NoMemory;
use dsv_netlist::Node;
use std::alloc::Global;

/// A node more; answers its number.
pub(crate) fn put(nodes: &mut Vec<Node>, node: Node) -> Result<u32, NoMemory>
    requires { length nodes.old.items < 2 ^ 20 }
    ensures nodes { IfOk result (λ place. nodes.new.items ≡ put nodes.old.items node) }
    ensures place { IfOk result (λ place. place ≡ length nodes.old.items) }
{
    let place = nodes.len() as u32;
    nodes.push(node)?;
    Ok(place)
}

/// The nodes that every netlist of up to 16 registers begins with: the input, and then the
/// registers in their order.
pub fn source_nodes(alloc: Global, registers: u32) -> Result<Vec<Node>, NoMemory>
    requires { registers ≤ 16 }
    ensures made { IfOk result (λ nodes. nodes.items ≡ sources registers) }
    ensures few { IfOk result (λ nodes. length nodes.items ≡ registers + 1) }
{
    let mut nodes = Vec::new(alloc);
    nodes.push(Node::Input)?;
    for register in 0..registers {
        nodes.push(Node::Reg(register))?;
    }
    Ok(nodes)
}

/// Registers that shift: one node goes into the first, and those from `rest` on into the others.
pub(crate) fn shift(next: &mut Vec<u32>, first: u32, rest: u32, places: u32) -> Result<(), NoMemory>
    requires low { rest ≤ most_source_nodes }
    requires few { places ≤ MOST_ORDER }
    ensures { IfOk result (λ u. next.new.items ≡ next.old.items ++ shift first rest places) }
{
    if places == 0 {
        return Ok(());
    }
    next.push(first)?;
    for k in 0..places - 1 {
        next.push(rest + k)?;
    }
    Ok(())
}
