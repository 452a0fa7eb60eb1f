// What the check of a certificate refuses.
use crate::line_numbers::kind_line;
use dsv_base::NoMemory;
use dsv_bounded::{BoundedRefusal, TooLarge};
use dsv_certfile::{CertWords, CheckFault};
use dsv_delta::PolyWide;
use dsv_loop::{LoopRefusal, LoopStop};
use dsv_quantiser::QuantRefusal;
use thiserror::Error;

/// Why a certificate doesn't show the property of its job.
#[derive(Clone, Copy, Debug, PartialEq, Eq, Error)]
pub enum CheckRefusal {
    /// What the line of this number claims isn't so. Lines count from 1.
    #[error("line {line}: {fault}")]
    Line { line: u64, fault: CheckFault },
    /// The controller has no words in the job's modes.
    #[error("{0}")]
    Quant(QuantRefusal),
    /// A number on the way to the polynomial is too wide, at this index.
    #[error("the polynomial is too wide at {index}")]
    Wide { index: u32 },
    /// The numerator's coefficients are all 0.
    #[error("all coefficients of the numerator are 0")]
    NoZeros,
    /// The controller has no loop with the plant.
    #[error("{0}")]
    Loop(LoopRefusal),
    /// The question of runs is larger than what is asked of formulas.
    #[error("the job's size is {size}")]
    JobSize { size: u64 },
    /// There is no memory for it, or a log has 2^32 - 1 steps or more.
    #[error("out of memory")]
    NoMemory,
}

impl CheckRefusal {
    ghost use Rattle.std.specs.Prelude.{◌≡◌};
    ghost use Rattle.dsv_certcheck.specs.LineNumbers.{kind_line};
    ghost use Rattle.dsv_certcheck.specs.declared.check_refusal.CheckRefusal.TheVariants as refusal;
    ghost use Rattle.dsv_certfile.specs.declared.fault.CheckFault.TheVariants as fault;

    /// The kind belongs to no such job, or a candidate's or a form's shape to no such controller,
    /// where the certificate says this of the words.
    pub(crate) fn misfit(words: CertWords) -> CheckRefusal
        ensures { result ≡ refusal.Line (kind_line words) fault.Shape }
    {
        CheckRefusal::Line {
            line: kind_line(words),
            fault: CheckFault::Shape,
        }
    }
}

impl From<NoMemory> for CheckRefusal {
    ghost use Rattle.std.specs.Prelude.{◌≡◌};
    ghost use Rattle.dsv_certcheck.specs.declared.check_refusal.CheckRefusal.TheVariants as refusal;

    ghost from_gives = { λ _ r. r ≡ refusal.NoMemory };

    fn from(_: NoMemory) -> Self {
        CheckRefusal::NoMemory
    }
}

impl From<QuantRefusal> for CheckRefusal {
    ghost use Rattle.std.specs.Prelude.{◌≡◌};
    ghost use Rattle.dsv_certcheck.specs.declared.check_refusal.CheckRefusal.TheVariants as refusal;

    ghost from_gives = { λ why r. r ≡ refusal.Quant why };

    fn from(refusal: QuantRefusal) -> Self {
        CheckRefusal::Quant(refusal)
    }
}

impl From<PolyWide> for CheckRefusal {
    ghost use Rattle.std.specs.Prelude.{◌≡◌};
    ghost use Rattle.dsv_certcheck.specs.declared.check_refusal.CheckRefusal.TheVariants as refusal;

    ghost from_gives = { λ wide r. r ≡ refusal.Wide wide.index };

    fn from(wide: PolyWide) -> Self {
        CheckRefusal::Wide { index: wide.index }
    }
}

impl From<LoopStop> for CheckRefusal {
    ghost use Rattle.std.specs.Prelude.{◌≡◌};
    ghost use Rattle.dsv_certcheck.specs.Refusals.{of_loop_stop};

    ghost from_gives = { λ why r. r ≡ of_loop_stop why };

    fn from(stop: LoopStop) -> Self {
        match stop {
            LoopStop::Refused(refusal) => CheckRefusal::Loop(refusal),
            LoopStop::NoMemory => CheckRefusal::NoMemory,
        }
    }
}

impl From<TooLarge> for CheckRefusal {
    ghost use Rattle.std.specs.Prelude.{◌≡◌};
    ghost use Rattle.dsv_certcheck.specs.declared.check_refusal.CheckRefusal.TheVariants as refusal;

    ghost from_gives = { λ job r. r ≡ refusal.JobSize job.size };

    fn from(job: TooLarge) -> Self {
        CheckRefusal::JobSize { size: job.size }
    }
}

impl From<BoundedRefusal> for CheckRefusal {
    ghost use Rattle.std.specs.Prelude.{◌≡◌};
    ghost use Rattle.dsv_certcheck.specs.Refusals.{of_bounded};

    ghost from_gives = { λ why r. r ≡ of_bounded why };

    fn from(refusal: BoundedRefusal) -> Self {
        match refusal {
            BoundedRefusal::JobSize { size } => CheckRefusal::JobSize { size },
            BoundedRefusal::NoMemory => CheckRefusal::NoMemory,
        }
    }
}
