// Why a text is no state-space controller's file.
use thiserror::Error;

/// The first fault of a text, by its line, which count from 1. Of several faults of a line the one
/// that stands first here counts.
#[derive(Clone, Copy, Debug, PartialEq, Eq, Error)]
pub enum StateRefusal {
    /// The line begins with another word than wanted or has another number of pieces, or it is
    /// missing, or bytes follow the last line.
    #[error("line {line}: another line than wanted")]
    Line { line: u64 },
    /// The piece at this place isn't the wanted number, or it is out of its range. Places count
    /// from 0 after the line's first word.
    #[error("line {line}: another number than wanted at place {place}")]
    Number { line: u64, place: u32 },
    /// The bits before the point and after it aren't 2 to 48 together.
    #[error("line {line}: words of no width from 2 to 48")]
    Width { line: u64 },
}
