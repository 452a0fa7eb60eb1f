// Why a controller file is refused.
use dsv_base::NoMemory;
use dsv_names::{Field, Wanted};
use thiserror::Error;

/// Why a controller file is refused: its first fault, pass by pass over the whole file. Each offset
/// counts the file's bytes from 0.
#[derive(Clone, Copy, Debug, PartialEq, Eq, Error)]
pub enum FileRefusal {
    /// From this byte on the file isn't UTF-8.
    #[error("not UTF-8 from byte {at} on")]
    Utf8 { at: u64 },
    /// Here a piece begins that is no token.
    #[error("no token at byte {at}")]
    Token { at: u64 },
    /// The first token that can't go on, or the file's end where more is wanted.
    #[error("byte {at} has something else than is wanted there: {wanted:?}")]
    Unexpected { at: u64, wanted: Wanted },
    /// The dot of a field whose name its block has given already.
    #[error("a field stands a second time at byte {at}")]
    FieldTwice { at: u64 },
    /// The closing brace of a block that lacks a field.
    #[error("the block that is closed at byte {at} lacks its field {field:?}")]
    FieldMissing { at: u64, field: Field },
    /// A number that breaks the rule or the range of its field.
    #[error("the number at byte {at} breaks the rule of its field")]
    Number { at: u64 },
    /// The number of a size that isn't its list's length.
    #[error("the size at byte {at} isn't the length of its list")]
    SizeMismatch { at: u64 },
    /// The opening brace of a list of coefficients that hasn't one to nine numbers.
    #[error("the list at byte {at} hasn't one to nine numbers")]
    Length { at: u64 },
    /// The leading coefficient of the denominator, where it is 0.
    #[error("the leading coefficient at byte {at} is 0")]
    LeadingZero { at: u64 },
    /// A number whose value, or whose quotient by the leading coefficient, has a part of 2^127 or
    /// more.
    #[error("the number at byte {at} has parts that are too large")]
    FractionWide { at: u64 },
    /// The number of bits before the point, where the words have no lawful width.
    #[error("the word at byte {at} has no lawful width")]
    Width { at: u64 },
    #[error("out of memory")]
    NoMemory,
}

impl From<NoMemory> for FileRefusal {
    ghost use Rattle.std.specs.Prelude.{◌≡◌};
    ghost use Rattle.dsv_token.specs.declared.refusal.FileRefusal.TheVariants as refusal;

    ghost from_gives = { λ _ r. r ≡ refusal.NoMemory };

    fn from(_: NoMemory) -> Self {
        FileRefusal::NoMemory
    }
}
