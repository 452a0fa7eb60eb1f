// What questions about runs are asked of.
ghost use Rattle.std.specs.Prelude.{IfOk};
ghost use Rattle.dsv_realise.specs.SubjectView.{SubjectView};
ghost use Rattle.dsv_realise.specs.SubjectNetlists.{IsNetlistOf};

use crate::subject_netlist::SubjectNetlist;
use dsv_base::NoMemory;
use std::alloc::Global;

/// What runs in words, and becomes a netlist that runs as it does.
pub trait Subject {
    /// How it behaves by its equations, over which inputs, and by which netlist.
    ghost view: { Self → SubjectView };

    /// Its netlist with the range of its inputs.
    fn netlist(&self, alloc: Global) -> Result<SubjectNetlist, NoMemory>
        ensures { IfOk result (IsNetlistOf (view self.now)) };
}
