// What is offered to show how far the output of runs in words is from that of exact runs.
use dsv_base::Items;

/// The least and the greatest word of a range.
#[derive(Clone, Copy, Debug, PartialEq, Eq)]
pub struct WordRange {
    pub low: i64,
    pub high: i64,
}

/// What is offered to show how far the output of a netlist's runs in words is from that of its
/// exact run. Nobody has to trust it: `dsv_gain::error_of` decides what it shows.
#[derive(Drop)]
pub struct RoundoffOffer {
    /// The sample, counted from 0, after which differences that lie in the box lie in it again.
    pub depth: u32,
    /// The box: for each register the range of its difference, in words.
    pub ranges: Items<WordRange>,
}
