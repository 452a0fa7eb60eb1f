// Checks the certificate in a file against what is in others.
ghost use Rattle.std.specs.Prelude.{◌≡◌, [], map, true, option_copied, IfOk, MatchBool, Ok};
ghost use Rattle.dsv_certfile.specs.Texts.{job_of};
ghost use Rattle.dsv_command.specs.Table.{is_checked, kind_of, tells_words};
ghost use Rattle.dsv_command.specs.Views.{files_view};
ghost use Rattle.dsv_cli.specs.Causes.{IsPlain};
ghost use Rattle.dsv_cli.specs.Checking.{stop_of_check};
ghost use Rattle.dsv_base.specs.Seen.{AreKept};
ghost use Rattle.dsv_cli.specs.JobRows.{ChecksTo, IsOfCheck};
ghost use Rattle.dsv_cli.specs.Stages.{IsCheckBeside, kind_in};
ghost use Rattle.dsv_cli.specs.Told.{told_by};
ghost use Rattle.dsv_cli.specs.Words.{JobWords, BecomeJobWords};
ghost use Rattle.dsv_files.specs.Digests.{digest_view};
ghost use Rattle.dsv_files.specs.Views.{texts_view};

use crate::in_words::words_of;
use crate::told::told_lines;
use dsv_base::{Bytes, Files, NoMemory};
use dsv_certcheck::{CheckRefusal, check};
use dsv_certfile::{Certificate, CheckFault};
use dsv_command::{JobFiles, Task};
use dsv_files::{Digests, FileDigest, Texts, read_certificate, read_texts};
use dsv_reader::{Controller, Plant};
use dsv_report::{Answer, CertificateFault, Stop, WhichFile};
use std::alloc::Global;

/// The line of a certificate's job.
const JOB_LINE: u64 = 2;

/// Why there is no answer where the check of a certificate refuses it.
pub(crate) fn check_stop(refusal: CheckRefusal) -> Stop
    ensures { result ≡ stop_of_check refusal }
{
    match refusal {
        CheckRefusal::Line { line, fault } => Stop::CertificateRefused {
            line,
            fault: CertificateFault::Check(fault),
        },
        CheckRefusal::Wide { .. } | CheckRefusal::NoZeros => Stop::CertificateRefused {
            line: JOB_LINE,
            fault: CertificateFault::Check(CheckFault::Shape),
        },
        CheckRefusal::Loop(refusal) => Stop::LoopRefused(refusal),
        CheckRefusal::Quant(refusal) => Stop::QuantRefused {
            which: WhichFile::Controller,
            refusal,
        },
        CheckRefusal::JobSize { size } => Stop::JobSize { size },
        CheckRefusal::NoMemory => Stop::NoMemory,
    }
}

/// What the check of a certificate against a controller, in a loop with the plant if there is one,
/// comes to.
fn certificate_answer(
    alloc: Global,
    controller: &Controller,
    plant: Option<&Plant>,
    certificate: &Certificate,
) -> Result<Answer, Stop>
    ensures found { ChecksTo controller.now (option_copied plant.entry) certificate.now result }
    ensures plain { IsPlain result }
{
    match check(alloc, controller, plant, certificate) {
        Ok(error) => Ok(Answer::Checked {
            certified: *certificate.job(),
            error,
        }),
        Err(refusal) => Err(check_stop(refusal)),
    }
}

/// What the check of a certificate against what files have comes to.
fn texts_check(alloc: Global, texts: &Texts, certificate: &Certificate) -> Result<Answer, Stop>
    requires { is_checked (kind_in (texts_view texts.now)) ≡ true }
    ensures found { IsOfCheck (texts_view texts.now) certificate.now result }
    ensures plain { IsPlain result }
{
    match texts {
        Texts::Controller(controller) => certificate_answer(alloc, controller, None, certificate),
        Texts::Loop { controller, plant } => {
            certificate_answer(alloc, controller, Some(plant), certificate)
        }
        _ => unreachable!(),
    }
}

/// The lines that tell the words of the design of a certificate that was accepted, if they are
/// asked for.
fn accepted_lines(
    alloc: Global,
    worded: bool,
    digests: &[FileDigest],
    texts: &Texts,
    certificate: &Certificate,
) -> Result<Bytes, NoMemory>
    requires { (found : Answer) × IsOfCheck (texts_view texts.now) certificate.now (Ok found) }
    ensures { IfOk result (λ lines. MatchBool worded
        ((words : JobWords) × BecomeJobWords (job_of certificate.now).design (texts_view texts.now)
        words × (lines ≡ told_by (map digest_view digests.now) (texts_view texts.now) words
        tells_words)) (lines ≡ [])) }
{
    match words_of(alloc, texts, certificate.job().design) {
        Ok(subject) => told_lines(alloc, worded, digests, &Task::TellWords, &subject),
        Err(_) => unreachable!(),
    }
}

/// A certificate that was accepted.
#[derive(Drop)]
pub(crate) struct Passed {
    pub answer: Answer,
    /// The lines of its report that tell words.
    pub lines: Bytes,
}

/// What the check of the certificate in the file of this name comes to, for what is in the files
/// that are named, which are read first; the flag: whether its report tells words.
pub(crate) fn check_outcome<'a, F: Files>(
    alloc: Global,
    named: &JobFiles<'a>,
    certificate: &'a str,
    worded: bool,
    files: &mut F,
) -> Result<Passed, Stop>
    requires { is_checked (kind_of (files_view named.now)) ≡ true }
    ensures row { IsCheckBeside (F.seen files.old) (F.seen files.new) (files_view named.now)
        certificate.now worded result }
    ensures kept { AreKept (F.seen files.old) (F.seen files.new) }
    ensures plain { IfOk result (λ found. IsPlain (Ok found.answer)) }
{
    let mut digests = Digests::new(alloc);
    let texts = read_texts(alloc, named, files, &mut digests)?;
    let certificate = read_certificate(alloc, certificate, files, &mut digests)?;
    let answer = texts_check(alloc, &texts, &certificate)?;
    let lines = accepted_lines(alloc, worded, digests.as_slice(), &texts, &certificate)?;
    Ok(Passed { answer, lines })
}
