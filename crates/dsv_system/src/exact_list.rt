// The exact values of samples.
use arrayvec::ArrayVec;

/// The most exact values that a sample has.
pub const MOST_EXACT: usize = 160;

/// The exact values of one sample in the order of its operations: each is an operation's value
/// before it is fitted into a word.
pub type ExactList = ArrayVec<i128, MOST_EXACT>;
