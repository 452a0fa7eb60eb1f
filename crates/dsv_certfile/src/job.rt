// What a certificate is about, and its line.
ghost use Rattle.std.specs.Prelude.{◌≡◌};
ghost use Rattle.dsv_certfile.specs.Headings.{format_in, job_in, size_in, size_of, version_in};
ghost use Rattle.dsv_lines.specs.Pieces.{pieces_of};

use crate::fault::TextFault;
use crate::keyword::{Keyword, is_plant, is_unbounded, is_version};
use crate::limits::{GREATEST_FRAC_BITS, GREATEST_INT_BITS, NARROW_WORD_BITS};
use crate::numbers::{NumberRange, samples_of};
use crate::pieces::{begin, end, next_named};
use crate::places::{Place, read_numbers};
use dsv_lines::Pieces;
use dsv_names::{Design, OverflowMode, Property, Realisation, Rounding};

/// What a job is about: how many samples, or the loop with a plant.
#[derive(Clone, Copy, Debug, PartialEq, Eq)]
pub enum Size {
    /// The property isn't one of runs.
    NoSize,
    /// So many, from 1 to `MOST_JOB_SAMPLES`.
    Samples(u32),
    /// Any number of them.
    Unbounded,
    /// The property is that of the loop with a plant.
    OfLoop,
}

/// What a certificate says of the format of the controller's words.
#[derive(Clone, Copy, Debug, PartialEq, Eq)]
pub enum CertWords {
    /// Nothing: they have at most `NARROW_WORD_BITS` bits.
    Unsaid,
    /// So many bits before the point, from 1 to 48, and after it, from 0 to 47.
    Said { int_bits: u32, frac_bits: u32 },
}

impl CertWords {
    ghost use Rattle.std.specs.Prelude.{◌≡◌, ◌≤◌};
    ghost use Rattle.dsv_certfile.specs.Lawful.{IsWords};
    ghost use Rattle.dsv_certfile.specs.Limits.{greatest_int_bits, greatest_frac_bits};
    ghost use Rattle.dsv_certfile.specs.Words.{words_for};

    /// What certificates of a controller say whose words have so many bits before the point and
    /// after it.
    pub fn of_format(int_bits: u32, frac_bits: u32) -> CertWords
        ensures words { result ≡ words_for int_bits frac_bits }
        ensures lawful { 1 ≤ int_bits → int_bits ≤ greatest_int_bits
            → frac_bits ≤ greatest_frac_bits → IsWords result }
    {
        if u64::from(int_bits) + u64::from(frac_bits) <= u64::from(NARROW_WORD_BITS) {
            CertWords::Unsaid
        } else {
            CertWords::Said {
                int_bits,
                frac_bits,
            }
        }
    }
}

/// What a certificate is about: a property of a controller that is realised by a design.
#[derive(Clone, Copy, Debug, PartialEq, Eq)]
pub struct CertifiedJob {
    pub property: Property,
    pub design: Design,
    /// What the certificate says of the controller's words.
    pub words: CertWords,
    pub size: Size,
}

/// Which lines a certificate begins with.
#[derive(Clone, Copy, Debug, PartialEq, Eq)]
pub(crate) enum Version {
    /// The format of the words isn't said.
    One,
    /// The format of the words stands on a line after that of the job.
    Two,
}

/// The version that the first line says.
pub(crate) fn read_version(line: &[u8]) -> Result<Version, TextFault>
    ensures { result ≡ version_in line.now }
{
    if is_version(line, Version::One) {
        return Ok(Version::One);
    }
    if is_version(line, Version::Two) {
        Ok(Version::Two)
    } else {
        Err(TextFault::Version)
    }
}

/// The size that a piece says.
fn size_of_piece(piece: &[u8]) -> Result<Size, TextFault>
    ensures { result ≡ size_of piece.now }
{
    if is_unbounded(piece) {
        return Ok(Size::Unbounded);
    }
    if is_plant(piece) {
        return Ok(Size::OfLoop);
    }
    match samples_of(piece) {
        Some(samples) => Ok(Size::Samples(samples)),
        None => Err(TextFault::Number),
    }
}

/// The size that the pieces after the names say.
fn read_size(mut pieces: Pieces) -> Result<Size, TextFault>
    ensures { result ≡ size_in pieces.entry }
{
    let Some(piece) = pieces.next_piece() else {
        return Ok(Size::NoSize);
    };
    let size = size_of_piece(piece)?;
    end(&pieces)?;
    Ok(size)
}

/// Reads the job line. It says nothing of the words.
pub(crate) fn read_job(line: &[u8]) -> Result<CertifiedJob, TextFault>
    ensures { result ≡ job_in (pieces_of line.now) }
{
    let mut pieces = Pieces::new(line);
    begin(&mut pieces, Keyword::Job)?;
    let property: Property = next_named(&mut pieces)?;
    let realisation: Realisation = next_named(&mut pieces)?;
    let rounding: Rounding = next_named(&mut pieces)?;
    let overflow: OverflowMode = next_named(&mut pieces)?;
    let size = read_size(pieces)?;
    let design = Design {
        realisation,
        rounding,
        overflow,
    };
    Ok(CertifiedJob {
        property,
        design,
        words: CertWords::Unsaid,
        size,
    })
}

/// Reads the line of the words' format.
pub(crate) fn read_format(line: &[u8]) -> Result<CertWords, TextFault>
    ensures { result ≡ format_in (pieces_of line.now) }
{
    let word = Place::Word(Keyword::Format);
    let int_bits = Place::Number(NumberRange::Positive(GREATEST_INT_BITS));
    let frac_bits = Place::Number(NumberRange::UpTo(GREATEST_FRAC_BITS));
    let numbers = read_numbers(&[word, int_bits, frac_bits], Pieces::new(line))?;
    Ok(CertWords::Said {
        int_bits: numbers.count_at(0),
        frac_bits: numbers.count_at(1),
    })
}
