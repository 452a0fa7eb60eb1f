// What is found of a controller's states.
ghost use Rattle.std.specs.Prelude.{IfOk, IfSome};
ghost use Rattle.dsv_state_table.specs.StateFindings.{IsStateFinding};

use crate::rows::{integer_rows, one_of};
use dsv_base::NoMemory;
use dsv_state_space::StateSystem;
use dsv_system_table::system_finding;
use dsv_table::TableFinding;
use std::alloc::Global;

/// What is found of the states of a controller without input, by the table of their polynomial:
/// that they fall to 0, or that they are kept away from it from some start. `None` if neither is
/// shown, which isn't proved never to come. It fails only for want of memory.
pub fn state_finding(system: &StateSystem, alloc: Global) -> Result<Option<TableFinding>, NoMemory>
    ensures { IfOk result (λ found. IfSome found (IsStateFinding system.now)) }
{
    let rows = integer_rows(system.a(), alloc)?;
    let one = one_of(system, alloc)?;
    let found = system_finding(rows.as_slice(), &one, alloc)?;
    Ok(found)
}
