// Why a text gives no inputs.
use dsv_base::NoMemory;
use thiserror::Error;

/// The first fault of a text of inputs.
#[derive(Clone, Copy, Debug, PartialEq, Eq, Error)]
pub enum InputsRefusal {
    /// The piece in this line isn't an optional `-` before 1 to 15 digits; lines count from 1.
    #[error("line {line}: not a whole number of at most 15 digits")]
    Number { line: u64 },
    /// A piece stands after the 65,536th number.
    #[error("more than 65536 numbers")]
    Many,
    /// There is no number.
    #[error("no numbers")]
    NoNumbers,
}

/// How reading inputs ended without them.
#[derive(Clone, Copy, Debug, PartialEq, Eq, Error)]
pub enum InputsEnd {
    /// The text isn't that of inputs.
    #[error("{0}")]
    Refused(InputsRefusal),
    #[error("out of memory")]
    NoMemory,
}

impl From<NoMemory> for InputsEnd {
    ghost use Rattle.std.specs.Prelude.{◌≡◌};
    ghost use Rattle.dsv_input_file.specs.declared.refusal.InputsEnd.TheVariants as end;

    ghost from_gives = { λ _ e. e ≡ end.NoMemory };

    fn from(_: NoMemory) -> Self {
        InputsEnd::NoMemory
    }
}

impl From<InputsRefusal> for InputsEnd {
    ghost use Rattle.std.specs.Prelude.{◌≡◌};
    ghost use Rattle.dsv_input_file.specs.declared.refusal.InputsEnd.TheVariants as end;

    ghost from_gives = { λ why e. e ≡ end.Refused why };

    fn from(refusal: InputsRefusal) -> Self {
        InputsEnd::Refused(refusal)
    }
}
