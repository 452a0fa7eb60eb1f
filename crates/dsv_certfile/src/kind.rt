// The kinds of certificates, and their line.
ghost use Rattle.std.specs.Prelude.{◌≡◌, IfOk};
ghost use Rattle.dsv_certfile.specs.Headings.{kind_in, head_in, of_job};
ghost use Rattle.dsv_certfile.specs.Heads.{IsHead};
ghost use Rattle.dsv_certfile.specs.Kinds.{is_kind_of};
ghost use Rattle.dsv_certfile.specs.declared.kind.Kind.TheVariants as kind;
ghost use Rattle.dsv_lines.specs.Pieces.{pieces_of};

use crate::fault::TextFault;
use crate::job::{CertifiedJob, Size};
use crate::keyword::Keyword;
use crate::limits::{MOST_BOX_RANGES, MOST_COEFFICIENTS, MOST_GAIN_DEPTH};
use crate::numbers::NumberRange;
use crate::pieces::{begin, next_named};
use crate::places::{Place, read_numbers};
use dsv_forms::GREATEST_ORDER;
use dsv_lines::Pieces;
use dsv_names::{Named, Property, RootProperty, RunProperty};
use dsv_template::MOST_INEQUALITIES;

/// What shows the property of a job.
#[derive(Clone, Copy, Debug, PartialEq, Eq)]
pub(crate) enum Kind {
    /// A log that refutes the formula that some run breaks.
    Hints,
    /// A set of registers that no run leaves, with a log for each of its sentences.
    Invariant,
    /// How many samples after any words in the registers all ranges are words.
    Gain,
    /// The same, and a box that the registers' differences from exact runs stay in.
    Error,
    /// A form that falls.
    Falls,
    /// The polynomial whose table shows that all its roots are inside the unit circle.
    Table,
}

impl Named for Kind {
    ghost use Rattle.dsv_certfile.specs.Kinds.{kind_name, kinds};

    ghost name_of = { kind_name };

    ghost all_values = { kinds };

    fn name(self) -> &'static str {
        match self {
            Kind::Hints => "hints",
            Kind::Invariant => "invariant",
            Kind::Gain => "gain",
            Kind::Error => "error",
            Kind::Falls => "falls",
            Kind::Table => "table",
        }
    }

    fn all() -> &'static [Kind] {
        &[
            Kind::Hints,
            Kind::Invariant,
            Kind::Gain,
            Kind::Error,
            Kind::Falls,
            Kind::Table,
        ]
    }
}

impl Kind {
    /// Whether certificates of this kind show such a job.
    pub(crate) fn is_of(self, job: &CertifiedJob) -> bool
        ensures { result ≡ is_kind_of job.now self }
    {
        match (job.property, job.size, self) {
            (Property::OfRuns(_), Size::Samples(_), Kind::Hints) => true,
            (Property::OfRuns(RunProperty::Overflow), Size::Unbounded, Kind::Invariant) => true,
            (Property::OfRuns(RunProperty::Overflow), Size::Unbounded, Kind::Gain) => true,
            (Property::OfRuns(RunProperty::Overflow), Size::Unbounded, Kind::Error) => true,
            (Property::OfRoots(_), Size::NoSize, Kind::Falls) => true,
            (Property::OfRoots(_), Size::NoSize, Kind::Table) => true,
            (Property::OfRoots(RootProperty::Stability), Size::OfLoop, Kind::Table) => true,
            (_, _, _) => false,
        }
    }
}

/// The kind of a certificate, with the numbers of its line.
#[derive(Clone, Copy, Debug, PartialEq, Eq)]
pub(crate) enum KindHead {
    Hints,
    Invariant {
        depth: u32,
        count: u32,
    },
    Gain {
        depth: u32,
    },
    Error {
        depth: u32,
        error_depth: u32,
        count: u32,
    },
    Falls {
        places: u32,
    },
    Table {
        count: u32,
    },
}

/// The kind, where it belongs to the job.
fn of_job(job: &CertifiedJob, kind: Kind) -> Result<Kind, TextFault>
    ensures { result ≡ of_job job.now kind }
{
    if kind.is_of(job) {
        Ok(kind)
    } else {
        Err(TextFault::Kind)
    }
}

/// Reads the numbers after the name of a gain with a box.
fn read_error_head(pieces: Pieces) -> Result<KindHead, TextFault>
    ensures answer { result ≡ head_in kind.Error pieces.entry }
    ensures within { IfOk result IsHead }
{
    let depth = Place::Number(NumberRange::UpTo(MOST_GAIN_DEPTH));
    let count = Place::Number(NumberRange::UpTo(MOST_BOX_RANGES));
    let numbers = read_numbers(&[depth, depth, count], pieces)?;
    Ok(KindHead::Error {
        depth: numbers.count_at(0),
        error_depth: numbers.count_at(1),
        count: numbers.count_at(2),
    })
}

/// Reads the numbers after a kind's name.
fn read_head(kind: Kind, pieces: Pieces) -> Result<KindHead, TextFault>
    ensures answer { result ≡ head_in kind pieces.entry }
    ensures within { IfOk result IsHead }
{
    match kind {
        Kind::Hints => {
            read_numbers(&[], pieces)?;
            Ok(KindHead::Hints)
        }
        Kind::Invariant => {
            let depth = Place::Number(NumberRange::UpTo(u32::MAX));
            let count = Place::Number(NumberRange::UpTo(MOST_INEQUALITIES as u32));
            let numbers = read_numbers(&[depth, count], pieces)?;
            Ok(KindHead::Invariant {
                depth: numbers.count_at(0),
                count: numbers.count_at(1),
            })
        }
        Kind::Gain => {
            let depth = Place::Number(NumberRange::UpTo(MOST_GAIN_DEPTH));
            let numbers = read_numbers(&[depth], pieces)?;
            Ok(KindHead::Gain {
                depth: numbers.count_at(0),
            })
        }
        Kind::Error => read_error_head(pieces),
        Kind::Falls => {
            let places = Place::Number(NumberRange::UpTo(GREATEST_ORDER as u32));
            let numbers = read_numbers(&[places], pieces)?;
            Ok(KindHead::Falls {
                places: numbers.count_at(0),
            })
        }
        Kind::Table => {
            let count = Place::Number(NumberRange::Positive(MOST_COEFFICIENTS));
            let numbers = read_numbers(&[count], pieces)?;
            Ok(KindHead::Table {
                count: numbers.count_at(0),
            })
        }
    }
}

/// Reads the kind line of a certificate for the job.
pub(crate) fn read_kind(job: &CertifiedJob, line: &[u8]) -> Result<KindHead, TextFault>
    ensures answer { result ≡ kind_in job.now (pieces_of line.now) }
    ensures within { IfOk result IsHead }
{
    let mut pieces = Pieces::new(line);
    begin(&mut pieces, Keyword::Kind)?;
    let kind: Kind = next_named(&mut pieces)?;
    let kind = of_job(job, kind)?;
    read_head(kind, pieces)
}
