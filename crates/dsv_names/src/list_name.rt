// Where the numbers of a controller stand.
use crate::Named;

/// Where a number of a controller stands: in one of its two lists of coefficients, or alone.
#[derive(Clone, Copy, Debug, PartialEq, Eq)]
pub enum ListName {
    /// The numerator's coefficients.
    B,
    /// The denominator's coefficients.
    A,
    /// The delta of the delta forms.
    Delta,
    /// The least input.
    Min,
    /// The greatest input.
    Max,
}

impl Named for ListName {
    ghost use Rattle.dsv_names.specs.ListNames.{list_name, list_names};

    ghost name_of = { list_name };

    ghost all_values = { list_names };

    fn name(self) -> &'static str {
        match self {
            ListName::B => "b",
            ListName::A => "a",
            ListName::Delta => "delta",
            ListName::Min => "min",
            ListName::Max => "max",
        }
    }

    fn all() -> &'static [ListName] {
        &[
            ListName::B,
            ListName::A,
            ListName::Delta,
            ListName::Min,
            ListName::Max,
        ]
    }
}
