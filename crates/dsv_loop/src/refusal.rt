// Why a loop has no polynomial.
use dsv_base::NoMemory;
use thiserror::Error;

/// Why a controller and a plant have no loop; in the order in which these are tested.
#[derive(Clone, Copy, Debug, PartialEq, Eq, Error)]
pub enum LoopRefusal {
    /// A section of the controller is in delta direct form I and has registers: those that add up
    /// its inputs are poles of the loop at 1.
    #[error("the controller's realisation adds up its inputs in registers that nothing feeds back")]
    Realisation,
    /// The plant's sample time isn't the controller's.
    #[error("the plant's sample time is not the controller's")]
    SampleTimes,
    /// Controller and plant both answer an input at once.
    #[error("the loop is algebraic: controller and plant both answer at once")]
    Algebraic,
}

/// Why no polynomial of a loop is made.
#[derive(Clone, Copy, Debug, PartialEq, Eq, Error)]
pub enum LoopStop {
    /// Controller and plant have no loop.
    #[error("{0}")]
    Refused(LoopRefusal),
    /// There was no memory.
    #[error("out of memory")]
    NoMemory,
}

impl From<LoopRefusal> for LoopStop {
    ghost use Rattle.std.specs.Prelude.{◌≡◌};
    ghost use Rattle.dsv_loop.specs.declared.refusal.LoopStop.TheVariants.{Refused};

    ghost from_gives = { λ refusal stop. stop ≡ Refused refusal };

    fn from(refusal: LoopRefusal) -> Self {
        LoopStop::Refused(refusal)
    }
}

impl From<NoMemory> for LoopStop {
    ghost use Rattle.std.specs.Prelude.{◌≡◌};
    ghost use Rattle.dsv_loop.specs.declared.refusal.LoopStop.TheVariants as stop;

    ghost from_gives = { λ _ s. s ≡ stop.NoMemory };

    fn from(_: NoMemory) -> Self {
        LoopStop::NoMemory
    }
}
