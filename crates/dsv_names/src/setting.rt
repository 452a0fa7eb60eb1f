// The settings of the hardware.
use crate::Named;

/// The fields of the block `hardware` that are read: the clock and what the parts of a sample cost.
#[derive(Clone, Copy, Debug, PartialEq, Eq)]
pub enum Setting {
    /// Cycles a second.
    Clock,
    /// Cycles of each sample.
    CostSample,
    /// Cycles of a multiplication.
    CostMul,
    /// Cycles of an addition.
    CostAdd,
    /// Cycles of a rounding.
    CostRound,
    /// Cycles of a fitting.
    CostFit,
    /// Cycles of loading a register.
    CostMoves,
}

impl Named for Setting {
    ghost use Rattle.dsv_names.specs.Settings.{setting_name, settings};

    ghost name_of = { setting_name };

    ghost all_values = { settings };

    fn name(self) -> &'static str {
        match self {
            Setting::Clock => "clock",
            Setting::CostSample => "cost_sample",
            Setting::CostMul => "cost_mul",
            Setting::CostAdd => "cost_add",
            Setting::CostRound => "cost_round",
            Setting::CostFit => "cost_fit",
            Setting::CostMoves => "cost_moves",
        }
    }

    fn all() -> &'static [Setting] {
        &[
            Setting::Clock,
            Setting::CostSample,
            Setting::CostMul,
            Setting::CostAdd,
            Setting::CostRound,
            Setting::CostFit,
            Setting::CostMoves,
        ]
    }
}
