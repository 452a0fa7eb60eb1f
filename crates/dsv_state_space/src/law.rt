// How many states there are.
ghost use Rattle.std.specs.Prelude.{◌≡◌};
ghost use Rattle.dsv_state_space.specs.StateView.{most_states};
ghost use Rattle.dsv_state_space.specs.declared.system.TheConstants.{MOST_STATES};

/// The law of [`MOST_STATES`](crate::MOST_STATES), for proofs: it is the limit that contracts name.
/// The call does nothing.
pub fn largest_system()
    ensures { MOST_STATES ≡ most_states }
{}
