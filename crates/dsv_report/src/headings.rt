// Writes the heading of a report, with no memory.
ghost use Rattle.std.specs.Prelude.{◌≡◌, ◌++◌, option_map};
ghost use Rattle.dsv_base.specs.Taking.{Writes};
ghost use Rattle.dsv_command.specs.Table.{kind_of};
ghost use Rattle.dsv_command.specs.Views.{files_view, names_view, task_view};
ghost use Rattle.dsv_report.specs.CascadeTexts.{sections_text};
ghost use Rattle.dsv_report.specs.Headings.{asked_text, extent_text, heading, heading_view};
ghost use Rattle.dsv_report.specs.Headings.{job_text, property_of, subject_text, verdict_text};
ghost use Rattle.dsv_report.specs.Lines.{realisation_text};

use crate::cascades::put_section_count;
use crate::lines::{put_number_line, put_numbered, put_property, put_realisation};
use crate::verdict::Verdict;
use dsv_base::{Failed, Sink, put_all};
use dsv_command::{Job, JobFiles, SectionNames, Task};
use dsv_names::{Design, Property, RootProperty, RunProperty};

/// What a report is headed by.
#[derive(Clone, Copy)]
pub struct Heading<'a> {
    pub job: &'a Job<'a>,
    /// How many states a state-space controller's file has; 0 of all else, and if none was
    /// accepted.
    pub states: u32,
}

/// The property that a task is about; a simulation is about none, and so is one that tells words.
pub(crate) fn property_of(task: &Task) -> Option<Property>
    ensures { result ≡ property_of (task_view task.now) }
{
    match task {
        Task::Decide(question) => Some(Property::OfRoots(question.property)),
        Task::CheckForm(_) | Task::SeekForm => Some(Property::OfRoots(RootProperty::Stability)),
        Task::CheckTime => Some(Property::Timing),
        Task::WriteFormula(question) | Task::Search(question, _) => {
            Some(Property::OfRuns(question.property))
        }
        Task::SeekSet(_) | Task::MeasureGain | Task::CheckEllipsoid(_) | Task::SeekEllipsoid => {
            Some(Property::OfRuns(RunProperty::Overflow))
        }
        Task::Simulate(_, _)
        | Task::RunFile(_, _)
        | Task::TellWords
        | Task::EmitCode(_)
        | Task::EmitTest(_, _)
        | Task::EmitFileTest(_, _) => None,
    }
}

/// Writes the property that is asked for, if one is.
fn put_asked<K: Sink>(sink: &mut K, property: Option<Property>) -> Result<(), Failed>
    ensures { Writes (K.seen sink.old) (K.seen sink.new) result (asked_text property) }
{
    match property {
        Some(property) => put_property(sink, property),
        None => put_all(sink, b""),
    }
}

/// Writes the realisation of a cascade's sections, and how many there are.
fn put_series<K: Sink>(sink: &mut K, design: Design, later: &SectionNames) -> Result<(), Failed>
    ensures { Writes (K.seen sink.old) (K.seen sink.new) result
        (realisation_text design.realisation
        ++ sections_text (names_view later.now.items)) }
{
    put_realisation(sink, design.realisation)?;
    put_section_count(sink, later)
}

/// Writes what it is asked of.
fn put_subject<K: Sink>(
    sink: &mut K,
    files: &JobFiles,
    design: Design,
    states: u64,
) -> Result<(), Failed>
    ensures { Writes (K.seen sink.old) (K.seen sink.new) result
        (subject_text (files_view files.now) design states) }
{
    match files {
        JobFiles::Controller(_) | JobFiles::Loop { .. } => {
            put_realisation(sink, design.realisation)
        }
        JobFiles::Cascade { later, .. } | JobFiles::CascadeLoop { later, .. } => {
            put_series(sink, design, later)
        }
        JobFiles::States(_) => put_numbered(sink, b"state-space ", states),
    }
}

/// Writes how many samples are asked for, or that there is no end to them and how it is decided, or
/// that it is asked of the loop with a plant, up to the end of the line.
fn put_extent<K: Sink>(sink: &mut K, files: &JobFiles, task: &Task) -> Result<(), Failed>
    ensures { Writes (K.seen sink.old) (K.seen sink.new) result
        (extent_text (kind_of (files_view files.now)) (task_view task.now)) }
{
    match (files, task) {
        (JobFiles::Loop { .. } | JobFiles::CascadeLoop { .. }, _) => put_all(sink, b" plant\n"),
        (_, Task::WriteFormula(question) | Task::Search(question, _)) => {
            put_number_line(sink, b" samples ", question.samples.into())
        }
        (_, Task::SeekSet(_) | Task::CheckEllipsoid(_) | Task::SeekEllipsoid) => {
            put_all(sink, b" unbounded\n")
        }
        (_, Task::MeasureGain) => put_all(sink, b" gain\n"),
        _ => put_all(sink, b"\n"),
    }
}

/// Writes what a job asked for.
fn put_job<K: Sink>(sink: &mut K, asked: Heading) -> Result<(), Failed>
    ensures { Writes (K.seen sink.old) (K.seen sink.new) result
        (job_text (heading_view asked.entry)) }
{
    let job = asked.job;
    put_asked(sink, property_of(&job.task))?;
    put_subject(sink, &job.files, job.design, asked.states.into())?;
    put_extent(sink, &job.files, &job.task)
}

/// Writes a verdict and what the job asked for.
fn put_job_heading<K: Sink>(sink: &mut K, verdict: Verdict, asked: Heading) -> Result<(), Failed>
    ensures { Writes (K.seen sink.old) (K.seen sink.new) result
        (verdict_text verdict ++ job_text (heading_view asked.entry)) }
{
    put_all(sink, verdict.text())?;
    put_job(sink, asked)
}

/// Writes the heading of a verdict on a job; nothing without a job, or before a plain text.
pub(crate) fn put_heading<K: Sink>(
    sink: &mut K,
    verdict: Verdict,
    asked: Option<Heading>,
) -> Result<(), Failed>
    ensures { Writes (K.seen sink.old) (K.seen sink.new) result
        (heading verdict (option_map heading_view asked.entry)) }
{
    match asked {
        Some(asked) if verdict.has_heading() => put_job_heading(sink, verdict, asked),
        _ => put_all(sink, b""),
    }
}
