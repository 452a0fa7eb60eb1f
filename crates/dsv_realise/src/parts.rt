// What a netlist is made of.
use dsv_netlist::Node;

/// Nodes, and the number of the one that has a line's value.
#[derive(Drop)]
pub(crate) struct BuiltLine {
    pub(crate) nodes: Vec<Node>,
    pub(crate) place: u32,
}

/// Nodes, and the numbers of those that load the registers and of the output.
#[derive(Drop)]
pub(crate) struct Parts {
    pub(crate) nodes: Vec<Node>,
    pub(crate) next: Vec<u32>,
    pub(crate) output: u32,
}
