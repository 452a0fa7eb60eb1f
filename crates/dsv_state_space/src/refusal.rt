// Why a state file can't be made words.
use crate::place::Place;
use thiserror::Error;

/// The first reason for which a state file has no words. Rows and columns count from 0; b has one
/// column, and c one row; a number that stands alone is in row 0 and column 0.
#[derive(Clone, Copy, Debug, PartialEq, Eq, Error)]
pub enum StateQuantRefusal {
    /// The number's word lies outside the words of the format.
    #[error("the word {wanted} of {place:?} {row} {column} lies outside the words of the format")]
    CoefficientRange {
        place: Place,
        row: u32,
        column: u32,
        wanted: i128,
    },
    /// The number times two to the fraction's bits has a part of 2^127 or more in lowest terms.
    #[error("{place:?} {row} {column} has a part that is too wide")]
    FractionWide {
        place: Place,
        row: u32,
        column: u32,
    },
    /// No word lies in the range of the inputs, whose ends are given, each moved to the words of
    /// the format.
    #[error("no input lies in {lo} to {hi}")]
    RangeEmpty {
        lo: i128,
        hi: i128,
    },
}
