// The roundings.
use crate::Named;

/// How a number between two neighbours becomes one of them.
#[derive(Clone, Copy, Debug, PartialEq, Eq)]
pub enum Rounding {
    /// The lower one.
    Floor,
    /// The upper one.
    Ceil,
    /// The nearer one, and the upper one halfway.
    Nearest,
}

impl Named for Rounding {
    ghost use Rattle.dsv_names.specs.Roundings.{rounding_name, roundings};

    ghost name_of = { rounding_name };

    ghost all_values = { roundings };

    fn name(self) -> &'static str {
        match self {
            Rounding::Floor => "FLOOR",
            Rounding::Ceil => "CEIL",
            Rounding::Nearest => "NEAREST",
        }
    }

    fn all() -> &'static [Rounding] {
        &[Rounding::Floor, Rounding::Ceil, Rounding::Nearest]
    }
}
