// What is found of generated controllers.
use dsv_base::Items;
use dsv_hints::Log;

/// How many controllers there are of each finding: of stability, of minimum phase and of overflow.
/// Those that aren't `stable` or of `minimum` phase have a form that is kept away from 0, or no
/// zeros; for those that are `spent` the search gave up.
#[derive(Clone, Copy, Debug, PartialEq, Eq)]
pub struct Tally {
    pub count: u32,
    pub stable: u32,
    pub unstable: u32,
    pub minimum: u32,
    pub nonminimum: u32,
    pub safe: u32,
    pub overflow: u32,
    pub spent: u32,
}

/// The log of a search that gave up, and the number of its controller, from 0 on.
#[derive(Drop)]
pub struct SpentLog {
    pub index: u32,
    pub log: Log,
}

/// The logs of searches that gave up, in the order of the controllers.
pub type SpentLogs = Items<SpentLog>;

/// What is found of the controllers that are generated from a seed.
#[derive(Drop)]
pub struct Generated {
    pub seed: u32,
    pub tally: Tally,
    pub spent: SpentLogs,
}
