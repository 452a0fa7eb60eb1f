// Why a text is no certificate.
ghost use Rattle.std.specs.Prelude.{◌≡◌};
ghost use Rattle.dsv_certfile.specs.Answers.{at_line};
ghost use Rattle.dsv_certfile.specs.Faults.{code_of, check_code_of};

use dsv_base::NoMemory;
use std::alloc::AllocFailed;
use thiserror::Error;

/// What is wrong with a line. Where several things are, the one that stands first here counts, but
/// `End` comes before all.
#[derive(Clone, Copy, Debug, PartialEq, Eq, Error)]
pub enum TextFault {
    /// The first line isn't that of a version that is known.
    #[error("another version")]
    Version,
    /// The job line or the kind line has a name that is none, or the kind belongs to no such job.
    #[error("no such job or kind")]
    Kind,
    /// A piece that has to be a number isn't one, or is out of its range.
    #[error("no number, or one that is out of its range")]
    Number,
    /// Another word or number of pieces than wanted.
    #[error("another line than wanted")]
    Line,
    /// The text ends before the line feed of a wanted line, or goes on after the last line.
    #[error("another end than wanted")]
    End,
}

impl TextFault {
    /// The number of the fault in reports.
    pub fn code(self) -> u8
        ensures { result ≡ code_of self }
    {
        match self {
            TextFault::Version => 1,
            TextFault::Kind => 2,
            TextFault::Number => 3,
            TextFault::Line => 4,
            TextFault::End => 5,
        }
    }
}

/// What is wrong with the claim of a line that reads well: it isn't so.
#[derive(Clone, Copy, Debug, PartialEq, Eq, Error)]
pub enum CheckFault {
    /// A step that doesn't follow, or the end of a log that hasn't added the empty clause.
    #[error("a step that doesn't follow, or an end too early")]
    Step,
    /// A form or its squares don't show what they have to.
    #[error("a form that doesn't show what it has to")]
    Form,
    /// A candidate's numbers aren't as they have to be for the controller, a form hasn't the order
    /// of the polynomial, or there is none, or the kind belongs to no such job.
    #[error("a certificate of another shape than the controller's")]
    Shape,
    /// The certificate says another format of the words than the controller has, or says none where
    /// the controller's words have more than `NARROW_WORD_BITS` bits.
    #[error("words of another format than the controller's")]
    Format,
    /// Some range isn't known to be one of words at a gain's depth, nor before it.
    #[error("a depth at which the ranges aren't ones of words")]
    Gain,
    /// A box isn't one that differences from exact runs stay in, as the depth of an offer says.
    #[error("a box that differences from exact runs aren't known to stay in")]
    Error,
    /// A coefficient isn't the polynomial's, or the first number of a row of its table isn't
    /// positive.
    #[error("another polynomial, or one whose table has a first number that isn't positive")]
    Table,
}

impl CheckFault {
    /// The number of the fault in reports.
    pub fn code(self) -> u8
        ensures { result ≡ check_code_of self }
    {
        match self {
            CheckFault::Step => 6,
            CheckFault::Form => 7,
            CheckFault::Shape => 8,
            CheckFault::Format => 10,
            CheckFault::Gain => 11,
            CheckFault::Error => 12,
            CheckFault::Table => 13,
        }
    }
}

/// Why a line wasn't read.
#[derive(Clone, Copy, Debug, PartialEq, Eq)]
pub(crate) enum LineRefusal {
    Fault(TextFault),
    NoMemory,
}

impl From<TextFault> for LineRefusal {
    ghost use Rattle.std.specs.Prelude.{◌≡◌};
    ghost use Rattle.dsv_certfile.specs.declared.fault.LineRefusal.TheVariants as line_refusal;

    ghost from_gives = { λ why r. r ≡ line_refusal.Fault why };

    fn from(fault: TextFault) -> Self {
        LineRefusal::Fault(fault)
    }
}

impl From<NoMemory> for LineRefusal {
    ghost use Rattle.std.specs.Prelude.{◌≡◌};
    ghost use Rattle.dsv_certfile.specs.declared.fault.LineRefusal.TheVariants as line_refusal;

    ghost from_gives = { λ _ r. r ≡ line_refusal.NoMemory };

    fn from(_: NoMemory) -> Self {
        LineRefusal::NoMemory
    }
}

impl<T: Drop> From<AllocFailed<T>> for LineRefusal {
    ghost use Rattle.std.specs.Prelude.{◌≡◌};
    ghost use Rattle.dsv_certfile.specs.declared.fault.LineRefusal.TheVariants as line_refusal;

    ghost from_gives = { λ _ r. r ≡ line_refusal.NoMemory };

    fn from(_: AllocFailed<T>) -> Self {
        LineRefusal::NoMemory
    }
}

/// Why a text isn't read: its first fault, and the number of its line.
#[derive(Clone, Copy, Debug, PartialEq, Eq, Error)]
#[error("line {line}: {fault}")]
pub struct TextRefusal {
    /// The number of the line; lines count from 1.
    pub line: u64,
    /// What is wrong with the line.
    pub fault: TextFault,
}

/// Why a text is no certificate: its first fault, and the number of its line. Lines count from 1.
#[derive(Clone, Copy, Debug, PartialEq, Eq, Error)]
pub enum CertRefusal {
    #[error("line {line}: {fault}")]
    Text { line: u64, fault: TextFault },
    #[error("out of memory")]
    NoMemory,
}

impl From<NoMemory> for CertRefusal {
    ghost use Rattle.std.specs.Prelude.{◌≡◌};
    ghost use Rattle.dsv_certfile.specs.declared.fault.CertRefusal.TheVariants as refusal;

    ghost from_gives = { λ _ r. r ≡ refusal.NoMemory };

    fn from(_: NoMemory) -> Self {
        CertRefusal::NoMemory
    }
}

impl From<TextRefusal> for CertRefusal {
    ghost use Rattle.std.specs.Prelude.{◌≡◌};
    ghost use Rattle.dsv_certfile.specs.Answers.{cert_refusal};

    ghost from_gives = { λ why r. r ≡ cert_refusal why };

    fn from(refusal: TextRefusal) -> Self {
        CertRefusal::Text {
            line: refusal.line,
            fault: refusal.fault,
        }
    }
}

impl LineRefusal {
    ghost use Rattle.std.specs.Prelude.{◌≡◌};
    ghost use Rattle.dsv_certfile.specs.Answers.{refusal_at};

    /// The refusal of a text whose line of this number wasn't read.
    pub(crate) fn at_line(self, line: u64) -> CertRefusal
        ensures { result ≡ refusal_at line self }
    {
        match self {
            LineRefusal::Fault(fault) => CertRefusal::Text { line, fault },
            LineRefusal::NoMemory => CertRefusal::NoMemory,
        }
    }
}

/// What a line of this number says, or its fault there.
pub(crate) fn at_line<T>(line: u64, answer: Result<T, TextFault>) -> Result<T, TextRefusal>
    ensures { result ≡ at_line line answer }
{
    match answer {
        Ok(value) => Ok(value),
        Err(fault) => Err(TextRefusal { line, fault }),
    }
}
