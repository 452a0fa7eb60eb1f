// What is found of runs of any length.
use crate::ranges::Ranges;

/// What is found of a network's runs of any length, from registers of zeros.
#[derive(Drop)]
pub enum Outlook {
    /// In no run a value leaves the words: each lies in its range.
    Safe(Gain),
    /// In this sample, counted from 0, the value of this number is the first whose range isn't
    /// known or has an end that is no word.
    Leaves { sample: u32, value: usize },
    /// At no sample below the limit do the ranges show that none leaves them.
    Deep,
}

/// For each value that a sample shows a range that holds in every sample of every run, and the
/// samples that showed it.
#[derive(Drop)]
pub struct Gain {
    /// The first sample, counted from 0, in which all ranges are ranges of words whatever numbers
    /// in their ranges the registers began with.
    pub depth: u32,
    /// The sample from whose values, after any such registers, the ranges are taken.
    pub settled: u32,
    /// The ranges of what a sample shows, in their order; their ends are words.
    pub ranges: Ranges,
}
