// The words of lines.
ghost use Rattle.std.specs.Prelude.{◌≡◌};
ghost use Rattle.std.specs.Str.{bytes_eq};
ghost use Rattle.dsv_certfile.specs.Keywords.{keyword_text, version_text, unbounded_text};
ghost use Rattle.dsv_certfile.specs.Keywords.{plant_text, ellipsoid_version, deletion_text};
ghost use Rattle.dsv_certfile.specs.Keywords.{zero_text};

use crate::job::Version;

/// A word that lines begin with.
#[derive(Clone, Copy, Debug, PartialEq, Eq)]
pub(crate) enum Keyword {
    Job,
    Format,
    Kind,
    Inequality,
    Base,
    Step,
    Safe,
    Box,
    Coefficient,
    Form,
    Positive,
    Square,
    Rest,
    Fall,
    States,
    Level,
    Lambda,
    Mu,
    First,
    End,
}

impl Keyword {
    fn name(self) -> &'static str
        ensures { result.now ≡ keyword_text self }
    {
        match self {
            Keyword::Job => "job",
            Keyword::Format => "format",
            Keyword::Kind => "kind",
            Keyword::Inequality => "ineq",
            Keyword::Base => "base",
            Keyword::Step => "step",
            Keyword::Safe => "safe",
            Keyword::Box => "box",
            Keyword::Coefficient => "coefficient",
            Keyword::Form => "form",
            Keyword::Positive => "positive",
            Keyword::Square => "square",
            Keyword::Rest => "rest",
            Keyword::Fall => "fall",
            Keyword::States => "states",
            Keyword::Level => "level",
            Keyword::Lambda => "lambda",
            Keyword::Mu => "mu",
            Keyword::First => "first",
            Keyword::End => "end",
        }
    }

    /// The word as it stands in a text.
    pub(crate) fn text(self) -> &'static [u8]
        ensures { result.now ≡ keyword_text self }
    {
        self.name().as_bytes()
    }
}

/// Whether the line is the first one of each certificate of the version.
pub(crate) fn is_version(line: &[u8], version: Version) -> bool
    ensures { result ≡ bytes_eq line.now (version_text version) }
{
    match version {
        Version::One => line == "dsv-certificate 1".as_bytes(),
        Version::Two => line == "dsv-certificate 2".as_bytes(),
    }
}

/// Whether the line is the first one of each text that offers an ellipsoid.
pub(crate) fn is_ellipsoid_version(line: &[u8]) -> bool
    ensures { result ≡ bytes_eq line.now ellipsoid_version }
{
    line == "dsv-ellipsoid 1".as_bytes()
}

/// Whether the piece says that there is no bound on the samples.
pub(crate) fn is_unbounded(piece: &[u8]) -> bool
    ensures { result ≡ bytes_eq piece.now unbounded_text }
{
    piece == "unbounded".as_bytes()
}

/// Whether the piece says that the property is that of the loop with a plant.
pub(crate) fn is_plant(piece: &[u8]) -> bool
    ensures { result ≡ bytes_eq piece.now plant_text }
{
    piece == "plant".as_bytes()
}

/// Whether the piece says that a step is a deletion.
pub(crate) fn is_deletion(piece: &[u8]) -> bool
    ensures { result ≡ bytes_eq piece.now deletion_text }
{
    piece == "d".as_bytes()
}

/// Whether the piece ends a list of a step.
pub(crate) fn is_list_end(piece: &[u8]) -> bool
    ensures { result ≡ bytes_eq piece.now zero_text }
{
    piece == "0".as_bytes()
}
