// A trail that is worked out by hand.
ghost use Rattle.std.specs.Prelude.{◌≡◌, IfOk};
ghost use Rattle.dsv_solver_tests.specs.Worked.{worked};

use dsv_base::NoMemory;
use dsv_cnf::{Formula, Lit};
use dsv_trail::Trail;
use std::alloc::Global;

/// Over three variables with the one clause "not 0, or 1": decides 2, then 0, which implies 1.
fn worked_trail(alloc: Global) -> Result<Trail, NoMemory>
    ensures { IfOk result (λ t. t ≡ worked) }
{
    let mut formula = Formula::new(alloc, 3)?;
    formula.push_clause(&[Lit::new(0, false), Lit::new(1, true)])?;
    let mut trail = Trail::new(alloc, 3)?;
    trail.decide(Lit::new(2, true));
    trail.decide(Lit::new(0, true));
    trail.imply(Lit::new(1, true), 0, &formula);
    Ok(trail)
}

#[test]
fn an_implied_literal_has_its_value_reason_and_level(rt: HostRuntime) -> Result<(), NoMemory> {
    let trail = worked_trail(rt.alloc())?;
    let is_false = trail.value(Lit::new(1, false)) == Some(false);
    let has_reason = trail.reason(1) == Some(0);
    assert!(rt; is_false && has_reason && trail.level_of(1) == 2);
    Ok(())
}

#[test]
fn a_lower_level_keeps_its_literals_alone(rt: HostRuntime) -> Result<(), NoMemory> {
    let mut trail = worked_trail(rt.alloc())?;
    trail.back_to(1);
    let is_open = trail.value(Lit::new(0, true)).is_none();
    assert!(rt; is_open && trail.len() == 1);
    Ok(())
}
