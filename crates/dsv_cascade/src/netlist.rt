// The netlist of a cascade.
ghost use Rattle.std.specs.Prelude.{◌≡◌, ◌<◌, ◌≤◌, length, IfOk};
ghost use Rattle.dsv_netlist.specs.Conditions.{IsNetlist, NamesBelow, ReadsBelow};
ghost use Rattle.dsv_netlist.specs.Counts.{counts_of};
ghost use Rattle.dsv_netlist.specs.Limits.{most_nodes, most_registers};
ghost use Rattle.dsv_cascade.specs.Cascades.{sections_of, cascade_of};
ghost use Rattle.dsv_cascade.specs.Netlists.{moved_place, moved, joined, wire, net_of_cascade};
ghost use Rattle.dsv_cascade.specs.Sizes.{sections_products};
ghost use Rattle.dsv_system.specs.Systems.{behaviour_of, Agree};
ghost use Rattle.dsv_netlist.specs.Systems.{runs_of};

use crate::cascade::Cascade;
use dsv_base::NoMemory;
use dsv_netlist::{Netlist, Node};
use dsv_realise::realise;
use dsv_word::Format;
use std::alloc::Global;

/// The number that a node gets after a netlist: node 0, the input, becomes the netlist's output.
fn place_after(first: &Netlist, place: u32) -> u32
    requires { place < most_nodes }
    ensures { result ≡ moved_place first.now place }
{
    if place == 0 {
        first.output()
    } else {
        first.len() + place - 1
    }
}

/// The node that a node becomes after a netlist.
fn node_after(first: &Netlist, node: Node) -> Node
    requires few { length first.now.next ≤ most_registers }
    requires names { NamesBelow most_nodes node }
    requires reads { ReadsBelow most_registers node }
    ensures { result ≡ moved first.now node }
{
    match node {
        Node::Input => Node::Input,
        Node::Reg(register) => Node::Reg(first.registers() + register),
        Node::MulConst { coeff, of } => Node::MulConst {
            coeff,
            of: place_after(first, of),
        },
        Node::Round(of) => Node::Round(place_after(first, of)),
        Node::Add(left, right) => Node::Add(place_after(first, left), place_after(first, right)),
        Node::Sub(left, right) => Node::Sub(place_after(first, left), place_after(first, right)),
        Node::Fit(of) => Node::Fit(place_after(first, of)),
        Node::Scale(of) => Node::Scale(place_after(first, of)),
    }
}

/// The nodes of a netlist, and then those of another without its input.
fn series_nodes(alloc: Global, first: &Netlist, second: &Netlist) -> Result<Vec<Node>, NoMemory>
    requires few { length first.now.next ≤ most_registers }
    ensures { IfOk result (λ nodes. nodes.items ≡ (joined first.now second.now).nodes) }
{
    let mut nodes = first.nodes().to_vec(alloc)?;
    for i in 1..second.len() {
        let node = second.node(i);
        nodes.push(node_after(first, node))?;
    }
    Ok(nodes)
}

/// The numbers of the nodes that load the registers of a netlist, and then those of another.
fn series_next(alloc: Global, first: &Netlist, second: &Netlist) -> Result<Vec<u32>, NoMemory>
    requires second { IsNetlist second.now }
    ensures { IfOk result (λ next. next.items ≡ (joined first.now second.now).next) }
{
    let mut next = first.next_nodes().to_vec(alloc)?;
    for k in 0..second.registers() {
        let place = second.next(k);
        next.push(place_after(first, place))?;
    }
    Ok(next)
}

/// Two netlists in series: the output of the first is the input of the second.
fn series_net(alloc: Global, first: &Netlist, second: &Netlist) -> Result<Netlist, NoMemory>
    requires second { IsNetlist second.now }
    requires both { IsNetlist (joined first.now second.now) }
    ensures { IfOk result (λ net. net ≡ joined first.now second.now) }
{
    let nodes = series_nodes(alloc, first, second)?;
    let next = series_next(alloc, first, second)?;
    let output = place_after(first, second.output());
    let net = Netlist::new(nodes, next, output, 0, first.format());
    Ok(net.unwrap())
}

/// The netlist without an operation, whose output is its input.
fn wire_net(alloc: Global, format: Format) -> Result<Netlist, NoMemory>
    ensures { IfOk result (λ net. net ≡ wire format) }
{
    let mut nodes = Vec::new(alloc);
    nodes.push(Node::Input)?;
    let net = Netlist::new(nodes, Vec::new(alloc), 0, 0, format);
    Ok(net.unwrap())
}

/// The netlist of a cascade: the input, and then the registers and operations of each section's
/// netlist, one after another. From every start its steps give the outputs, the exact values and
/// the registers of the sections' written equations in series.
pub fn cascade_net(alloc: Global, cascade: &Cascade) -> Result<Netlist, NoMemory>
    ensures net { IfOk result (λ net. net ≡ net_of_cascade cascade.now) }
    ensures runs { IfOk result
        (λ net. Agree (runs_of net) (behaviour_of (cascade_of cascade.now))) }
    ensures products { IfOk result
        (λ net. (counts_of net).products ≡ sections_products (sections_of cascade.now)) }
{
    let first = cascade.first_section();
    let wire = wire_net(alloc, first.format())?;
    let section = realise(alloc, first)?;
    let mut net = series_net(alloc, &wire, &section)?;
    for quantised in cascade.later_sections() {
        let section = realise(alloc, quantised)?;
        net = series_net(alloc, &net, &section)?;
    }
    Ok(net)
}
