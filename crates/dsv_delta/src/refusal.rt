// Why a list can't be converted.
use dsv_names::ListName;
use thiserror::Error;

/// A coefficient of the converted list is too wide, or, at the index 0, the list has no common
/// denominator that is narrow enough.
#[derive(Clone, Copy, Debug, PartialEq, Eq, Error)]
#[error("the coefficient {index} of {list:?} in the delta operator is too wide")]
pub struct DeltaWide {
    pub list: ListName,
    pub index: u32,
}

/// A coefficient of the list is too wide once the powers of delta's denominator are taken out.
#[derive(Clone, Copy, Debug, PartialEq, Eq, Error)]
#[error("the coefficient {index} is too wide for a polynomial in z")]
pub struct PolyWide {
    pub index: u32,
}
