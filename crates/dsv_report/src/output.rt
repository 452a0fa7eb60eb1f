// Writes what is asked for of an answer, with no memory.
ghost use Rattle.std.specs.Prelude.{◌≡◌, Some, IfSome, IfOk, Ok, OnOk, option_map};
ghost use Rattle.dsv_base.specs.Taking.{Writes};
ghost use Rattle.dsv_certfile.specs.Lawful.{IsSize, IsWords};
ghost use Rattle.dsv_certfile.specs.Texts.{certificate_text};
ghost use Rattle.dsv_certfile.specs.Typed.{IsTyped, IsTypedBody};
ghost use Rattle.dsv_certfile.specs.declared.certificate.Certificate.TheVariants as certificate;
ghost use Rattle.dsv_command.specs.Views.{files_view, job_view, task_view};
ghost use Rattle.dsv_report.specs.Headings.{heading_view};
ghost use Rattle.dsv_report.specs.Output.{certificate_for, certificate_written, certified_design};
ghost use Rattle.dsv_report.specs.Output.{certified_job, certified_size, offer_in, output_of};
ghost use Rattle.dsv_report.specs.Output.{text_or};
ghost use Rattle.dsv_report.specs.Printing.{HasPlaces};
ghost use Rattle.dsv_report.specs.Report.{answer_text};

use crate::answers::{Answer, OutputError};
use crate::headings::{Heading, property_of};
use crate::report::put_answer;
use crate::stop::Stop;
use crate::stops::put_stop;
use dsv_base::{Failed, Sink};
use dsv_certfile::{
    CertWords, CertifiedJob, Size, write_error, write_falls, write_gain, write_hints,
    write_invariant, write_table,
};
use dsv_command::{Job, JobFiles, Task};
use dsv_names::{Design, Property, Realisation};

/// The design in the job of a certificate: of that of a state-space controller its modes alone
/// count.
fn certified_design(files: &JobFiles, design: Design) -> Design
    ensures { result ≡ certified_design (files_view files.now) design }
{
    match files {
        JobFiles::States(_) => Design {
            realisation: Realisation::Dfi,
            ..design
        },
        _ => design,
    }
}

/// The size in the job of a certificate.
fn certified_size(files: &JobFiles, task: &Task) -> Size
    ensures size { result ≡ certified_size (files_view files.now) (task_view task.now) }
    ensures lawful { IsSize result }
{
    match (files, task) {
        (JobFiles::Loop { .. }, _) => Size::OfLoop,
        (_, Task::Search(question, _)) => Size::Samples(question.samples),
        (_, Task::SeekSet(_) | Task::MeasureGain) => Size::Unbounded,
        _ => Size::NoSize,
    }
}

/// The job of a certificate, of whose words this is said.
fn certified_job(job: &Job, words: CertWords, property: Property) -> CertifiedJob
    ensures job { result ≡ certified_job (job_view job.now) words property }
    ensures size { IsSize result.size }
    ensures words { result.words ≡ words }
{
    CertifiedJob {
        property,
        design: certified_design(&job.files, job.design),
        words,
        size: certified_size(&job.files, &job.task),
    }
}

/// Writes the certificate of a gain of this depth, with the offer that shows how far outputs are
/// from those of exact runs, where one was found.
fn put_gain_certificate<K: Sink>(
    sink: &mut K,
    job: &CertifiedJob,
    depth: u32,
    error: &OutputError,
) -> Result<(), Failed>
    ensures text { Writes (K.seen sink.old) (K.seen sink.new) result
        (certificate_text (certificate.Gain job.now depth (offer_in error.now))) }
    ensures typed { OnOk result
        (IsTypedBody (certificate.Gain job.now depth (offer_in error.now))) }
{
    match error {
        OutputError::Within(bound) => write_error(sink, job, depth, &bound.offer),
        OutputError::NotSought | OutputError::Open => write_gain(sink, job, depth),
    }
}

/// Writes the certificate of an answer, or its report where it has none.
fn put_certificate<K: Sink>(
    sink: &mut K,
    asked: Heading,
    lines: &[u8],
    certified: &CertifiedJob,
    answer: &Answer,
) -> Result<(), Failed>
    requires places { HasPlaces answer.now }
    requires words { IsWords certified.now.words }
    requires size { IsSize certified.now.size }
    ensures text { Writes (K.seen sink.old) (K.seen sink.new) result
        (text_or (certificate_for certified.now answer.now)
        (answer_text (Some (heading_view asked.entry)) lines.now answer.now)) }
    ensures typed { OnOk result (IfSome (certificate_for certified.now answer.now) IsTyped) }
{
    match answer {
        Answer::Never { log } => write_hints(sink, certified, log),
        Answer::Always { candidate, logs } => write_invariant(sink, certified, candidate, logs),
        Answer::InRanges { gain, error } => {
            put_gain_certificate(sink, certified, gain.depth, error)
        }
        Answer::Falls { offer, .. } => write_falls(sink, certified, offer),
        Answer::StateFalls { offer, .. } => write_falls(sink, certified, offer),
        Answer::OfTable(found) if found.verdict.is_inside() => {
            write_table(sink, certified, &found.poly)
        }
        _ => put_answer(sink, Some(asked), lines, answer),
    }
}

/// Writes what is asked for of an answer: a certificate, where the job wants one and the answer has
/// one, and else the report with these lines that tell words.
fn put_found<K: Sink>(
    sink: &mut K,
    asked: Option<Heading>,
    lines: &[u8],
    words: CertWords,
    answer: &Answer,
) -> Result<(), Failed>
    requires places { HasPlaces answer.now }
    requires words { IsWords words }
    ensures text { Writes (K.seen sink.old) (K.seen sink.new) result
        (output_of (option_map heading_view asked.entry) lines.now words (Ok answer.now)) }
    ensures typed { OnOk result (IfSome
        (certificate_written (option_map heading_view asked.entry) words (Ok answer.now)) IsTyped) }
{
    if let Some(asked) = asked
        && asked.job.certified
        && let Some(property) = property_of(&asked.job.task)
    {
        let certified = certified_job(asked.job, words, property);
        return put_certificate(sink, asked, lines, &certified, answer);
    }
    put_answer(sink, asked, lines, answer)
}

/// Writes what is asked for of the answer to a job, or why there is none: a certificate, which says
/// this of the controller's words, where the job wants one and the answer has one, and else the
/// report, with these lines that tell words after its heading. It takes no memory.
pub fn put_output<K: Sink>(
    sink: &mut K,
    asked: Option<Heading>,
    lines: &[u8],
    words: CertWords,
    outcome: &Result<Answer, Stop>,
) -> Result<(), Failed>
    requires places { IfOk outcome.now HasPlaces }
    requires words { IsWords words }
    ensures text { Writes (K.seen sink.old) (K.seen sink.new) result
        (output_of (option_map heading_view asked.entry) lines.now words outcome.now) }
    // Of a certificate that was written whole its types are known.
    ensures typed { OnOk result (IfSome
        (certificate_written (option_map heading_view asked.entry) words outcome.now) IsTyped) }
{
    match outcome {
        Ok(answer) => put_found(sink, asked, lines, words, answer),
        Err(stop) => put_stop(sink, stop),
    }
}
