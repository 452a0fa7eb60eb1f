// What the bounds of nodes mean.
ghost use Rattle.dsv_netlist.specs.Law.{ValuesAreBounded};

/// In every sample of every netlist, from registers and an input that are words, no node's value is
/// greater in size than its bound.
pub fn values_are_bounded()
    ensures { ValuesAreBounded }
{}
