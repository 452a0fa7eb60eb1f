// Why a controller can't be made words.
use dsv_delta::DeltaWide;
use dsv_names::ListName;
use thiserror::Error;

/// The first reason for which a controller has no words in a format. The index is a coefficient's
/// place in its list, and 0 for a number that stands alone.
#[derive(Clone, Copy, Debug, PartialEq, Eq, Error)]
pub enum QuantRefusal {
    /// The number's word lies outside the words of the format.
    #[error("the word {wanted} of {list:?} {index} lies outside the words of the format")]
    CoefficientRange {
        list: ListName,
        index: u32,
        wanted: i128,
    },
    /// Delta's word isn't positive, or there is no delta, for which 0 is wanted.
    #[error("delta's word {wanted} isn't positive")]
    DeltaNotPositive {
        wanted: i128,
    },
    /// No word lies in the range of the inputs, whose ends are given, each moved to the words of
    /// the format.
    #[error("no input lies in {lo} to {hi}")]
    RangeEmpty {
        lo: i128,
        hi: i128,
    },
    /// The number times two to the fraction's bits has a part of 2^127 or more in lowest terms.
    #[error("{list:?} {index} has a part that is too wide")]
    FractionWide {
        list: ListName,
        index: u32,
    },
}

impl From<DeltaWide> for QuantRefusal {
    ghost use Rattle.std.specs.Prelude.{◌≡◌};
    ghost use Rattle.dsv_quantiser.specs.declared.refusal.QuantRefusal.TheVariants.{FractionWide};

    ghost from_gives = { λ wide refusal. refusal ≡ FractionWide wide.list wide.index };

    fn from(wide: DeltaWide) -> Self {
        QuantRefusal::FractionWide {
            list: wide.list,
            index: wide.index,
        }
    }
}
