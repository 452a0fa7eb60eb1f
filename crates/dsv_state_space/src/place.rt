// Where the numbers of a state-space controller stand.
use dsv_names::Named;

/// What a number of a state-space controller is of.
#[derive(Clone, Copy, Debug, PartialEq, Eq)]
pub enum Place {
    /// The matrix of the states.
    A,
    /// What the input is multiplied by, one number for each state: N rows of one column.
    B,
    /// What the states are multiplied by in the output: one row of N columns.
    C,
    /// What the input is multiplied by in the output.
    D,
    /// The least input.
    Min,
    /// The greatest input.
    Max,
}

impl Named for Place {
    ghost use Rattle.dsv_state_space.specs.Places.{place_name, place_values};

    ghost name_of = { place_name };

    ghost all_values = { place_values };

    fn name(self) -> &'static str {
        match self {
            Place::A => "a",
            Place::B => "b",
            Place::C => "c",
            Place::D => "d",
            Place::Min => "min",
            Place::Max => "max",
        }
    }

    fn all() -> &'static [Place] {
        &[
            Place::A,
            Place::B,
            Place::C,
            Place::D,
            Place::Min,
            Place::Max,
        ]
    }
}
