// Why the command has no answer.
ghost use Rattle.std.specs.Prelude.{◌≡◌};
ghost use Rattle.dsv_report.specs.Stops.{stop_of_file};

use dsv_base::NoMemory;
use dsv_cascade::CascadeRefusal;
use dsv_certfile::{CertRefusal, CheckFault, TextFault, TextRefusal};
use dsv_ellipsoid::EllipsoidRefusal;
use dsv_input_file::{InputsEnd, InputsRefusal};
use dsv_loop::{LoopRefusal, LoopStop};
use dsv_quantiser::QuantRefusal;
use dsv_reader::FileRefusal;
use dsv_state_file::StateRefusal;
use dsv_state_space::StateQuantRefusal;

/// A file that the command reads.
#[derive(Clone, Copy, Debug, PartialEq, Eq)]
pub enum WhichFile {
    Controller,
    Certificate,
    /// That of this section of a cascade, 1 or more.
    Section(u32),
    /// That of the plant of a loop.
    Plant,
    /// That of the inputs of a run.
    Inputs,
}

/// What is wrong with a certificate.
#[derive(Clone, Copy, Debug, PartialEq, Eq)]
pub enum CertificateFault {
    /// The line isn't one of the text of a certificate.
    Text(TextFault),
    /// The line's claim isn't so.
    Check(CheckFault),
    /// The file has over 64 MiB.
    TooLong,
}

/// What is wrong with a file of inputs.
#[derive(Clone, Copy, Debug, PartialEq, Eq)]
pub enum InputsFault {
    /// The text isn't one of inputs.
    Text(InputsRefusal),
    /// The file has over 1 MiB.
    TooLong,
}

/// Why the command has no answer: a refusal, a fault of a read, or that there is no memory.
#[derive(Clone, Copy, Debug, PartialEq, Eq)]
pub enum Stop {
    /// The command line is not valid: its arguments ask for no job.
    Usage,
    /// The first fault of the file of a controller, of a section or of a plant.
    FileRefused {
        which: WhichFile,
        refusal: FileRefusal,
    },
    /// The file has over 65,536 bytes.
    FileTooLong {
        which: WhichFile,
    },
    /// The first number of the controller in this file that is no word, or the range of its inputs,
    /// where it is empty.
    QuantRefused {
        which: WhichFile,
        refusal: QuantRefusal,
    },
    /// The sections make no cascade.
    CascadeRefused(CascadeRefusal),
    /// The controller and the plant have no loop.
    LoopRefused(LoopRefusal),
    /// The first fault of a state-space controller's file.
    StateRefused(StateRefusal),
    /// The first number of a state-space controller that is no word, or the range of its inputs,
    /// where it is empty.
    StateQuantRefused(StateQuantRefusal),
    /// The first input of the job that is no word of the format, and its number from 0 on.
    InputRange {
        index: u32,
        value: i128,
    },
    /// The job is too large: samples times products times the square of a word's bits.
    JobSize {
        size: u64,
    },
    /// The first value that needs more than 64 bits in C, counted from 0.
    WideCode {
        value: u32,
    },
    /// The first line of the certificate that is wrong, counted from 1, and 0 for the whole file.
    CertificateRefused {
        line: u64,
        fault: CertificateFault,
    },
    /// The first fault of the text of an ellipsoid.
    EllipsoidText(TextRefusal),
    /// The first test that refuses an ellipsoid.
    EllipsoidRefused(EllipsoidRefusal),
    /// What is wrong with the file of a run's inputs.
    InputsRefused(InputsFault),
    /// The file couldn't be read.
    ReadFault(WhichFile),
    NoMemory,
}

impl From<NoMemory> for Stop {
    ghost use Rattle.std.specs.Prelude.{◌≡◌};
    ghost use Rattle.dsv_report.specs.declared.stop.Stop.TheVariants as stop;

    ghost from_gives = { λ _ e. e ≡ stop.NoMemory };

    fn from(_: NoMemory) -> Self {
        Stop::NoMemory
    }
}

impl Stop {
    /// Why there is no answer where the text of this file is refused so: that there was no memory
    /// is no fault of the file.
    pub fn of_file(which: WhichFile, refusal: FileRefusal) -> Stop
        ensures { result ≡ stop_of_file which refusal }
    {
        match refusal {
            FileRefusal::NoMemory => Stop::NoMemory,
            refusal => Stop::FileRefused { which, refusal },
        }
    }
}

impl From<CascadeRefusal> for Stop {
    ghost use Rattle.std.specs.Prelude.{◌≡◌};
    ghost use Rattle.dsv_report.specs.declared.stop.Stop.TheVariants as stop;

    ghost from_gives = { λ refusal e. e ≡ stop.CascadeRefused refusal };

    fn from(refusal: CascadeRefusal) -> Self {
        Stop::CascadeRefused(refusal)
    }
}

impl From<LoopStop> for Stop {
    ghost use Rattle.std.specs.Prelude.{◌≡◌};
    ghost use Rattle.dsv_report.specs.Stops.{stop_of_loop};

    ghost from_gives = { λ why e. e ≡ stop_of_loop why };

    fn from(why: LoopStop) -> Self {
        match why {
            LoopStop::Refused(refusal) => Stop::LoopRefused(refusal),
            LoopStop::NoMemory => Stop::NoMemory,
        }
    }
}

impl From<StateRefusal> for Stop {
    ghost use Rattle.std.specs.Prelude.{◌≡◌};
    ghost use Rattle.dsv_report.specs.declared.stop.Stop.TheVariants as stop;

    ghost from_gives = { λ refusal e. e ≡ stop.StateRefused refusal };

    fn from(refusal: StateRefusal) -> Self {
        Stop::StateRefused(refusal)
    }
}

impl From<StateQuantRefusal> for Stop {
    ghost use Rattle.std.specs.Prelude.{◌≡◌};
    ghost use Rattle.dsv_report.specs.declared.stop.Stop.TheVariants as stop;

    ghost from_gives = { λ refusal e. e ≡ stop.StateQuantRefused refusal };

    fn from(refusal: StateQuantRefusal) -> Self {
        Stop::StateQuantRefused(refusal)
    }
}

impl From<TextRefusal> for Stop {
    ghost use Rattle.std.specs.Prelude.{◌≡◌};
    ghost use Rattle.dsv_report.specs.declared.stop.Stop.TheVariants as stop;

    ghost from_gives = { λ refusal e. e ≡ stop.EllipsoidText refusal };

    fn from(refusal: TextRefusal) -> Self {
        Stop::EllipsoidText(refusal)
    }
}

impl From<InputsEnd> for Stop {
    ghost use Rattle.std.specs.Prelude.{◌≡◌};
    ghost use Rattle.dsv_report.specs.Stops.{stop_of_inputs};

    ghost from_gives = { λ why e. e ≡ stop_of_inputs why };

    fn from(why: InputsEnd) -> Self {
        match why {
            InputsEnd::Refused(refusal) => Stop::InputsRefused(InputsFault::Text(refusal)),
            InputsEnd::NoMemory => Stop::NoMemory,
        }
    }
}

impl From<EllipsoidRefusal> for Stop {
    ghost use Rattle.std.specs.Prelude.{◌≡◌};
    ghost use Rattle.dsv_report.specs.declared.stop.Stop.TheVariants as stop;

    ghost from_gives = { λ refusal e. e ≡ stop.EllipsoidRefused refusal };

    fn from(refusal: EllipsoidRefusal) -> Self {
        Stop::EllipsoidRefused(refusal)
    }
}

impl From<CertRefusal> for Stop {
    ghost use Rattle.std.specs.Prelude.{◌≡◌};
    ghost use Rattle.dsv_report.specs.Stops.{stop_of_text};

    ghost from_gives = { λ refusal e. e ≡ stop_of_text refusal };

    fn from(refusal: CertRefusal) -> Self {
        match refusal {
            CertRefusal::Text { line, fault } => Stop::CertificateRefused {
                line,
                fault: CertificateFault::Text(fault),
            },
            CertRefusal::NoMemory => Stop::NoMemory,
        }
    }
}
