// The range of the inputs.
#![tactic(auto, using(dsv_algebra::proofs::Casts::casts))]

ghost use Rattle.std.specs.Prelude.{◌≡◌, IfOk};
ghost use Rattle.dsv_quantiser.specs.Quantising.{range_of, clamped_range};
ghost use Rattle.dsv_quantiser.specs.Meaning.{IsRangeOf};
ghost use Rattle.dsv_quantiser.specs.Parts.{IsClamped};

use crate::refusal::QuantRefusal;
use crate::words::or_wide;
use dsv_fraction::Frac;
use dsv_names::ListName;
use dsv_word::Format;

/// The words from `lo` to `hi`.
#[derive(Clone, Copy, Debug, PartialEq, Eq)]
pub struct InputRange {
    pub lo: i64,
    pub hi: i64,
}

/// The words from the one end to the other, each end moved to the words of the format.
fn clamped_range(format: Format, low: i128, high: i128) -> Result<InputRange, QuantRefusal>
    ensures value { result ≡ clamped_range format low high }
    ensures meaning { IfOk result (IsClamped format low high) }
{
    let lo = low.max(i128::from(format.lo()));
    let hi = high.min(i128::from(format.hi()));
    if hi < lo {
        return Err(QuantRefusal::RangeEmpty { lo, hi });
    }
    Ok(InputRange {
        lo: lo as i64,
        hi: hi as i64,
    })
}

/// The words from `min` to `max`.
///
/// # Errors
///
/// `FractionWide` of `min`, else of `max`; `RangeEmpty` where there are no such words.
pub fn range_of(format: Format, min: &Frac, max: &Frac) -> Result<InputRange, QuantRefusal>
    ensures value { result ≡ range_of format min.now max.now }
    ensures meaning { IfOk result (IsRangeOf format min.now max.now) }
{
    let low = or_wide(ListName::Min, 0, format.ceil_frac(min))?;
    let high = or_wide(ListName::Max, 0, format.floor_frac(max))?;
    clamped_range(format, low, high)
}
