// The properties.
use crate::Named;

/// A property of a controller's runs in words.
#[derive(Clone, Copy, Debug, PartialEq, Eq)]
pub enum RunProperty {
    /// An operation's exact value is no word.
    Overflow,
    /// Without input the registers come back, and the outputs on the way aren't all 0.
    LimitCycle,
}

/// A property of a controller's roots.
#[derive(Clone, Copy, Debug, PartialEq, Eq)]
pub enum RootProperty {
    /// All poles of the controller are inside the unit circle.
    Stability,
    /// All zeros of the controller are inside the unit circle.
    MinimumPhase,
}

/// A property of controllers.
#[derive(Clone, Copy, Debug, PartialEq, Eq)]
pub enum Property {
    OfRuns(RunProperty),
    OfRoots(RootProperty),
    /// What a sample takes is done before the next one comes.
    Timing,
}

impl Named for Property {
    ghost use Rattle.dsv_names.specs.Properties.{property_name, properties};

    ghost name_of = { property_name };

    ghost all_values = { properties };

    fn name(self) -> &'static str {
        match self {
            Property::OfRuns(RunProperty::Overflow) => "OVERFLOW",
            Property::OfRuns(RunProperty::LimitCycle) => "LIMIT_CYCLE",
            Property::OfRoots(RootProperty::Stability) => "STABILITY",
            Property::OfRoots(RootProperty::MinimumPhase) => "MINIMUM_PHASE",
            Property::Timing => "TIMING",
        }
    }

    fn all() -> &'static [Property] {
        &[
            Property::OfRuns(RunProperty::Overflow),
            Property::OfRuns(RunProperty::LimitCycle),
            Property::OfRoots(RootProperty::Stability),
            Property::OfRoots(RootProperty::MinimumPhase),
            Property::Timing,
        ]
    }
}
