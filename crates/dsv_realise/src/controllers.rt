// Quantised controllers are subjects.
ghost use Rattle.dsv_realise.specs.Controllers.{of_controller};

use crate::netlist::realise;
use crate::subject::Subject;
use crate::subject_netlist::SubjectNetlist;
use dsv_base::NoMemory;
use dsv_quantiser::Quantised;
use std::alloc::Global;

impl Subject for Quantised {
    ghost view = { of_controller };

    fn netlist(&self, alloc: Global) -> Result<SubjectNetlist, NoMemory> {
        let net = realise(alloc, self)?;
        Ok(SubjectNetlist::of_controller(net, self))
    }
}
