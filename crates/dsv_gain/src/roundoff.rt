// How far the output of runs in words is from that of exact runs.
use dsv_linear::Range;
use dsv_roundoff::RoundoffOffer;

/// An offer, and the range that it shows.
#[derive(Drop)]
pub struct ErrorBound {
    pub offer: RoundoffOffer,
    /// In every sample of every run in which no exact value leaves the words, the output less that
    /// of the exact run lies in it, in words.
    pub output: Range,
}

/// What an offer shows: its depth, and the range.
#[derive(Clone, Copy, Debug, PartialEq, Eq)]
pub struct ShownError {
    /// The depth of the offer.
    pub depth: u32,
    /// In every sample of every run in which no exact value leaves the words, the output less that
    /// of the exact run lies in it, in words.
    pub output: Range,
}
