// Reading a certificate from its text.
ghost use Rattle.std.specs.Prelude.{IfOk};
ghost use Rattle.dsv_lines.specs.Readings.{Reads};
ghost use Rattle.dsv_certfile.specs.Answers.{Gives, ReadsText};
ghost use Rattle.dsv_certfile.specs.Heads.{IsHead};
ghost use Rattle.dsv_certfile.specs.Lawful.{IsLawful};
ghost use Rattle.dsv_certfile.specs.Reading.{body_in, certificate_in, heading_in, words_in};

use crate::certificate::Certificate;
use crate::falls::read_falls;
use crate::fault::{CertRefusal, TextRefusal, at_line};
use crate::invariant::read_invariant;
use crate::job::{CertWords, CertifiedJob, Version, read_format, read_job, read_version};
use crate::keyword::Keyword;
use crate::kind::{KindHead, read_kind};
use crate::lines::{end, next_line, next_numbers};
use crate::places::Place;
use crate::roundoff_reader::read_roundoff;
use crate::steps::read_log;
use crate::table_reader::read_table;
use dsv_lines::Lines;
use std::alloc::Global;

/// What the lines up to that of the kind say.
#[derive(Clone, Copy)]
struct Heading {
    job: CertifiedJob,
    kind: KindHead,
}

/// Reads what the certificate says of the words' format, where its version says it.
fn read_words(lines: &mut Lines, version: Version) -> Result<CertWords, TextRefusal>
    ensures { Reads result lines.new (words_in version lines.old) }
{
    match version {
        Version::One => Ok(CertWords::Unsaid),
        Version::Two => {
            let line = next_line(lines)?;
            at_line(line.number, read_format(line.text))
        }
    }
}

fn read_heading(lines: &mut Lines) -> Result<Heading, TextRefusal>
    ensures answer { Reads result lines.new (heading_in lines.old) }
    ensures within { IfOk result (λ heading. IsHead heading.kind) }
{
    let line = next_line(lines)?;
    let version = at_line(line.number, read_version(line.text))?;
    let line = next_line(lines)?;
    let job = at_line(line.number, read_job(line.text))?;
    let words = read_words(lines, version)?;
    let job = CertifiedJob { words, ..job };
    let line = next_line(lines)?;
    let kind = at_line(line.number, read_kind(&job, line.text))?;
    Ok(Heading { job, kind })
}

/// Reads what follows the kind line, the last line among it.
fn read_body(alloc: Global, lines: &mut Lines, heading: Heading) -> Result<Certificate, CertRefusal>
    requires { IsHead heading.kind }
    ensures { ReadsText result lines.new (body_in heading.job heading.kind lines.old) }
{
    let job = heading.job;
    match heading.kind {
        KindHead::Hints => Ok(Certificate::Hints {
            job,
            log: read_log(alloc, lines, Keyword::End)?,
        }),
        KindHead::Invariant { depth, count } => {
            let proof = read_invariant(alloc, lines, depth, count)?;
            Ok(Certificate::Invariant {
                job,
                candidate: proof.candidate,
                logs: proof.logs,
            })
        }
        KindHead::Gain { depth } => {
            let _ = next_numbers(lines, &[Place::Word(Keyword::End)])?;
            Ok(Certificate::Gain {
                job,
                depth,
                offer: None,
            })
        }
        KindHead::Error {
            depth,
            error_depth,
            count,
        } => Ok(Certificate::Gain {
            job,
            depth,
            offer: Some(read_roundoff(alloc, lines, error_depth, count)?),
        }),
        KindHead::Falls { places } => Ok(Certificate::Falls {
            job,
            offer: read_falls(lines, places)?,
        }),
        KindHead::Table { count } => Ok(Certificate::Table {
            job,
            coefficients: read_table(alloc, lines, count)?,
        }),
    }
}

/// Reads the text of a certificate, or answers its first fault. All numbers of a certificate that
/// was read are in the ranges of the text. It takes time in proportion to the text, and memory in
/// proportion to what it keeps.
pub fn read(alloc: Global, bytes: &[u8]) -> Result<Certificate, CertRefusal>
    ensures answer { Gives result (certificate_in bytes.now) }
    ensures lawful { IfOk result IsLawful }
{
    let mut lines = Lines::new(bytes);
    let heading = read_heading(&mut lines)?;
    let certificate = read_body(alloc, &mut lines, heading)?;
    end(&lines)?;
    Ok(certificate)
}
