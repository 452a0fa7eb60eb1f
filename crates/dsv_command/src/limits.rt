// Limits of the numbers of options, and what holds where none are given.

/// The most samples of a job.
pub const MOST_SAMPLES: u32 = 64;

/// How many samples a job has where no number is given.
pub(crate) const DEFAULT_SAMPLES: u32 = 10;

/// The most conflicts of a search.
pub const MOST_CONFLICTS: u32 = 200_000;

/// How many conflicts a search may have where no number is given.
pub(crate) const DEFAULT_CONFLICTS: u32 = 50_000;

/// The most controllers that are generated.
pub const MOST_CONTROLLERS: u32 = 1_000;

/// How many controllers are generated where no number is given.
pub(crate) const DEFAULT_CONTROLLERS: u32 = 40;

/// The most digits of an option's number.
pub(crate) const MOST_NUMBER_DIGITS: usize = 10;
