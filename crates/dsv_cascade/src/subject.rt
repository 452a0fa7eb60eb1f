// Cascades are subjects.
ghost use Rattle.dsv_cascade.specs.Subjects.{of_cascade};

use crate::cascade::Cascade;
use crate::netlist::cascade_net;
use dsv_base::NoMemory;
use dsv_realise::{Subject, SubjectNetlist};
use std::alloc::Global;

impl Subject for Cascade {
    ghost view = { of_cascade };

    fn netlist(&self, alloc: Global) -> Result<SubjectNetlist, NoMemory> {
        let net = cascade_net(alloc, self)?;
        Ok(SubjectNetlist::of_controller(net, self.first_section()))
    }
}
