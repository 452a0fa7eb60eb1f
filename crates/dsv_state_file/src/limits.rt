// Limits of the numbers of a state-space controller's file.
/// The most states; there is one at least.
pub const MOST_STATES: usize = 8;

/// The most bits before the point; the least is 1.
pub(crate) const GREATEST_INT_BITS: u128 = 48;

/// The most bits after the point.
pub(crate) const GREATEST_FRAC_BITS: u128 = 47;

/// The fewest bits of a word.
pub(crate) const LEAST_WIDTH: u32 = 2;

/// The most bits of a word.
pub(crate) const GREATEST_WIDTH: u32 = 48;
