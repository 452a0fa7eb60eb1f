// Questions about roots and runs, and how long a search for their answer may take.
ghost use Rattle.std.specs.Prelude.{◌≤◌};
ghost use Rattle.dsv_command.specs.Limits.{most_conflicts, most_controllers, most_samples};

use dsv_names::{RootProperty, RunProperty};

/// A question about a controller's roots.
#[derive(Clone, Copy)]
pub struct RootQuestion {
    pub property: RootProperty,
    /// Whether the Schur-Cohn form is offered before any proposer is asked, and tables decide if no
    /// form is accepted.
    pub schur_cohn: bool,
}

/// A question about a controller's runs over 1 to 64 samples.
#[derive(Drop)]
pub struct RunQuestion {
    pub property: RunProperty,
    pub samples: u32,
    ghost some: { 1 ≤ samples },
    ghost few: { samples ≤ most_samples },
}

/// How many samples a question is about: 1 to 64.
#[derive(Clone, Copy)]
pub(crate) struct Samples {
    pub count: u32,
    ghost some: { 1 ≤ count },
    ghost few: { count ≤ most_samples },
}

/// How many conflicts a search may have: 1 to 200,000.
#[derive(Clone, Copy)]
pub struct Budget {
    pub conflicts: u32,
    ghost some: { 1 ≤ conflicts },
    ghost few: { conflicts ≤ most_conflicts },
}

/// How many controllers are generated: 1 to 1,000.
#[derive(Clone, Copy)]
pub(crate) struct Controllers {
    pub count: u32,
    ghost some: { 1 ≤ count },
    ghost few: { count ≤ most_controllers },
}
