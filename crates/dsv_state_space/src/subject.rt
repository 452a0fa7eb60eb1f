// State-space controllers are subjects.
ghost use Rattle.dsv_state_space.specs.Subjects.{of_states};

use crate::netlist::state_net;
use crate::system::StateSystem;
use dsv_base::NoMemory;
use dsv_realise::{Subject, SubjectNetlist};
use std::alloc::Global;

impl Subject for StateSystem {
    ghost view = { of_states };

    fn netlist(&self, alloc: Global) -> Result<SubjectNetlist, NoMemory> {
        let net = state_net(alloc, self)?;
        Ok(SubjectNetlist::new(net, self.xlo(), self.xhi()))
    }
}
