// How many controllers are generated, and from which seed.
ghost use Rattle.std.specs.Prelude.{◌≤◌};
ghost use Rattle.dsv_command.specs.Limits.{most_controllers};

/// So many controllers, 1 to 1,000, of this seed.
#[derive(Clone, Copy)]
pub struct Generation {
    pub seed: u32,
    pub count: u32,
    ghost some: { 1 ≤ count },
    ghost few: { count ≤ most_controllers },
}
