// The numbers of pieces.
ghost use Rattle.std.specs.Prelude.{◌≡◌};
ghost use Rattle.dsv_certfile.specs.Numerals.{number_in, samples_of, id_of, literal_read};

use crate::limits::{
    GREATEST_BOUND, GREATEST_ENTRY, GREATEST_LITERAL, GREATEST_WHOLE, MOST_JOB_SAMPLES,
};
use dsv_cnf::Lit;
use dsv_lines::{integer_of, numeral_of, positive_of};
use dsv_text::has_byte;

/// Which numbers may stand at a place.
#[derive(Clone, Copy, Debug, PartialEq, Eq)]
pub(crate) enum NumberRange {
    /// From 0 to this one.
    UpTo(u32),
    /// From 1 to this one.
    Positive(u32),
    /// Those of an inequality, below 2^63 in size.
    Entry,
    /// Those that bound the outputs in an ellipsoid, below 2^62 in size.
    Bound,
    /// Any others, below 2^127 in size.
    Whole,
}

/// How many samples the piece says.
pub(crate) fn samples_of(piece: &[u8]) -> Option<u32>
    ensures { result ≡ samples_of piece.now }
{
    Some(positive_of(u128::from(MOST_JOB_SAMPLES), piece)? as u32)
}

/// The id of a clause that the piece is.
pub(crate) fn id_of(piece: &[u8]) -> Option<u64>
    ensures { result ≡ id_of piece.now }
{
    Some(positive_of(u128::from(u64::MAX), piece)? as u64)
}

/// The literal that the piece is: a variable, numbered from 1, after `-` where it is negated.
pub(crate) fn literal_of(piece: &[u8]) -> Option<Lit>
    ensures { result ≡ literal_read piece.now }
{
    let negated = has_byte(b'-', piece);
    let digits = &piece[usize::from(negated)..];
    let number = positive_of(u128::from(GREATEST_LITERAL), digits)?;
    Some(Lit::new(number as u32 - 1, !negated))
}

impl NumberRange {
    /// The number that the piece is, where it is one of the range.
    pub(crate) fn number_in(self, piece: &[u8]) -> Option<i128>
        ensures { result ≡ number_in self piece.now }
    {
        match self {
            NumberRange::UpTo(greatest) => Some(numeral_of(u128::from(greatest), piece)? as i128),
            NumberRange::Positive(greatest) => {
                Some(positive_of(u128::from(greatest), piece)? as i128)
            }
            NumberRange::Entry => integer_of(GREATEST_ENTRY, piece),
            NumberRange::Bound => integer_of(GREATEST_BOUND, piece),
            NumberRange::Whole => integer_of(GREATEST_WHOLE, piece),
        }
    }
}
