// The overflow modes.
use crate::Named;

/// How a number outside the words becomes a word.
#[derive(Clone, Copy, Debug, PartialEq, Eq)]
pub enum OverflowMode {
    /// The word that differs from it by a multiple of 2 to the width.
    Wrap,
    /// The nearest word.
    Saturate,
}

impl Named for OverflowMode {
    ghost use Rattle.dsv_names.specs.OverflowModes.{overflow_mode_name, overflow_modes};

    ghost name_of = { overflow_mode_name };

    ghost all_values = { overflow_modes };

    fn name(self) -> &'static str {
        match self {
            OverflowMode::Wrap => "WRAPAROUND",
            OverflowMode::Saturate => "SATURATE",
        }
    }

    fn all() -> &'static [OverflowMode] {
        &[OverflowMode::Wrap, OverflowMode::Saturate]
    }
}
