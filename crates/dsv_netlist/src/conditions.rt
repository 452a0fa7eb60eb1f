// The conditions that make nodes a netlist, but for the bounds.
ghost use Rattle.std.specs.Prelude.{◌≡◌, ◌↔◌, count_by, IsTrue};
ghost use Rattle.std.specs.List.{All};
ghost use Rattle.dsv_netlist.specs.Conditions.{AllNameBack, ReadsBelow, names_word, is_fit};

use crate::node::Node;

/// Whether each node names nodes before it.
pub(crate) fn all_name_back(nodes: &[Node]) -> bool
    ensures { IsTrue result ↔ AllNameBack 0 nodes.now }
{
    for (i, node) in nodes.iter().enumerate() {
        if !node.names_below(i) {
            return false;
        }
    }
    true
}

/// Whether all registers that are read are among the first `count`.
pub(crate) fn all_read_below(nodes: &[Node], count: usize) -> bool
    ensures { IsTrue result ↔ All (ReadsBelow count) nodes.now }
{
    nodes.iter().all(|node| node.reads_below(count))
}

/// Whether there is a node of this number, and its value is a word.
pub(crate) fn names_word(nodes: &[Node], id: u32) -> bool
    ensures { result ≡ names_word nodes.now id }
{
    match nodes.get(id as usize) {
        Some(node) => node.gives_word(),
        None => false,
    }
}

/// Whether each of these is the number of a node whose value is a word.
pub(crate) fn all_name_words(nodes: &[Node], ids: &[u32]) -> bool
    ensures { IsTrue result ↔ All (λ k. IsTrue (names_word nodes.now k)) ids.now }
{
    ids.iter().all(|id| names_word(nodes, *id))
}

/// How many nodes fit a value.
pub(crate) fn fits_in(nodes: &[Node]) -> usize
    ensures { result ≡ count_by is_fit nodes.now }
{
    nodes.iter().filter(|node| node.is_fit()).count()
}
