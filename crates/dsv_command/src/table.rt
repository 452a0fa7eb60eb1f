// What the command is asked for, and what goes with what.
ghost use Rattle.std.specs.Prelude.{◌≡◌};
ghost use Rattle.dsv_command.specs.Finding.{all_job_options};
ghost use Rattle.dsv_command.specs.Table.{all_task_options, has_cell, may_certify, may_word};
ghost use Rattle.dsv_command.specs.Table.{task_options};
ghost use Rattle.dsv_command.specs.Views.{names_view, task_view};

use crate::generation::Generation;
use crate::inputs::Inputs;
use crate::kind::Kind;
use crate::question::{Budget, RootQuestion, RunQuestion};
use crate::section_names::SectionNames;
use dsv_names::{Design, RootProperty, RunProperty};

/// What is asked about, by the names of its files.
#[derive(Drop)]
pub enum JobFiles<'a> {
    /// The controller in a file.
    Controller(&'a str),
    /// A cascade: the controllers in several files in series.
    Cascade {
        /// The first section's file.
        file: &'a str,
        later: SectionNames<'a>,
    },
    /// The state-space controller in a file.
    States(&'a str),
    /// The loop of the controller in a file with the plant in another.
    Loop {
        file: &'a str,
        plant: &'a str,
    },
    /// The loop of a cascade with the plant in another file.
    CascadeLoop {
        /// The first section's file.
        file: &'a str,
        later: SectionNames<'a>,
        plant: &'a str,
    },
}

/// What is asked.
#[derive(Drop)]
pub enum Task<'a> {
    /// It is decided whether it has a property of its roots.
    Decide(RootQuestion),
    /// It is decided whether the work of a sample is done in time.
    CheckTime,
    /// The formula of a question is written.
    WriteFormula(RunQuestion),
    /// A question is decided by a search.
    Search(RunQuestion, Budget),
    /// A set that the controller's registers never leave, and from which nothing overflows, is
    /// sought among those that are offered; this is the budget of each search.
    SeekSet(Budget),
    /// It is decided by the gain whether any list of inputs, of any length, overflows.
    MeasureGain,
    /// It is run over these inputs, from registers that are 0; the flag: its outputs alone are
    /// written.
    Simulate(Inputs, bool),
    /// So it is over the inputs in the file of this name.
    RunFile(&'a str, bool),
    /// Its words are told, and no more is asked.
    TellWords,
    /// Its C is written, with names that begin so.
    EmitCode(&'a str),
    /// So it is with a test that runs it over these inputs.
    EmitTest(&'a str, Inputs),
    /// So it is with a test over the inputs in the file that is named last.
    EmitFileTest(&'a str, &'a str),
    /// It is decided whether its states fall, by the form of the certificate in the file of this
    /// name.
    CheckForm(&'a str),
    /// So it is by a form that is sought.
    SeekForm,
    /// The ellipsoid in the file of this name is to show that no list of inputs, of any length,
    /// overflows.
    CheckEllipsoid(&'a str),
    /// One is to be found that shows it, and written as such a file.
    SeekEllipsoid,
}

/// A task for what is in files, realised by this design.
#[derive(Drop)]
pub struct Job<'a> {
    pub files: JobFiles<'a>,
    pub task: Task<'a>,
    pub design: Design,
    /// Whether a certificate is to be written in place of the report of a yes-answer.
    pub certified: bool,
    /// Whether the report tells its words.
    pub worded: bool,
}

/// What the command is asked for.
#[derive(Drop)]
pub enum Request<'a> {
    Do(Job<'a>),
    /// The certificate in a file is checked against what is in these files.
    Check {
        files: JobFiles<'a>,
        certificate: &'a str,
        /// Whether the report tells their words.
        worded: bool,
    },
    /// Controllers are generated, and what is found of them is counted.
    Generate(Generation),
}

/// Whether there is such a task of this kind.
pub(crate) fn has_cell(kind: Kind, task: &Task) -> bool
    ensures { result ≡ has_cell kind (task_view task.now) }
{
    match (kind, task) {
        (Kind::Controller, Task::CheckForm(_) | Task::SeekForm) => false,
        (Kind::Controller, _) => true,
        (
            Kind::Cascade | Kind::Loop | Kind::CascadeLoop,
            Task::Decide(
                RootQuestion {
                    property: RootProperty::Stability,
                    ..
                },
            ),
        ) => true,
        (Kind::Cascade, Task::Search(question, _)) => {
            matches!(question.property, RunProperty::Overflow)
        }
        (
            Kind::Cascade | Kind::States,
            Task::MeasureGain
            | Task::Simulate(_, _)
            | Task::RunFile(_, _)
            | Task::EmitCode(_)
            | Task::EmitTest(_, _)
            | Task::EmitFileTest(_, _),
        ) => true,
        (_, Task::TellWords) => true,
        (
            Kind::States,
            Task::Decide(
                RootQuestion {
                    property: RootProperty::Stability,
                    schur_cohn: true,
                },
            ),
        ) => true,
        (Kind::States, Task::CheckForm(_) | Task::SeekForm | Task::Search(_, _)) => true,
        _ => false,
    }
}

/// Whether a certificate of the task may be written.
pub(crate) fn may_certify(kind: Kind, task: &Task) -> bool
    ensures { result ≡ may_certify kind (task_view task.now) }
{
    match (kind, task) {
        (Kind::Controller | Kind::Loop, Task::Decide(_)) => true,
        (Kind::Controller, Task::Search(_, _) | Task::SeekSet(_) | Task::MeasureGain) => true,
        (Kind::States, Task::SeekForm) => true,
        _ => false,
    }
}

/// Whether a report of the task may tell its words, where a certificate is to be written or none.
pub(crate) fn may_word(certified: bool, task: &Task) -> bool
    ensures { result ≡ may_word certified (task_view task.now) }
{
    match task {
        _ if certified => false,
        Task::WriteFormula(_)
        | Task::SeekEllipsoid
        | Task::EmitCode(_)
        | Task::EmitTest(_, _)
        | Task::EmitFileTest(_, _) => false,
        Task::Simulate(_, outputs) | Task::RunFile(_, outputs) => !*outputs,
        _ => true,
    }
}

/// The options that a task has.
pub(crate) fn task_options(task: &Task) -> &'static [&'static str]
    ensures { names_view result.now ≡ task_options (task_view task.now) }
{
    match task {
        Task::Decide(_) => &["property", "schur-cohn"],
        Task::CheckTime => &["property"],
        Task::WriteFormula(_) => &["property", "formula", "x-size"],
        Task::Search(_, _) => &["property", "x-size", "conflicts"],
        Task::SeekSet(_) => &["property", "unbounded", "conflicts"],
        Task::MeasureGain => &["property", "gain"],
        Task::Simulate(_, _) => &["simulate", "outputs"],
        Task::RunFile(_, _) => &["inputs", "outputs"],
        Task::TellWords => &[],
        Task::EmitCode(_) => &["emit-c", "c-name"],
        Task::EmitTest(_, _) => &["emit-c", "c-name", "simulate"],
        Task::EmitFileTest(_, _) => &["emit-c", "c-name", "inputs"],
        Task::CheckForm(_) => &["property", "form"],
        Task::SeekForm => &["property", "lyapunov"],
        Task::CheckEllipsoid(_) => &["property", "unbounded", "ellipsoid"],
        Task::SeekEllipsoid => &["property", "offer-ellipsoid"],
    }
}

/// All options of tasks.
pub(crate) fn all_task_options() -> &'static [&'static str]
    ensures { names_view result.now ≡ all_task_options }
{
    &[
        "property",
        "simulate",
        "form",
        "lyapunov",
        "ellipsoid",
        "offer-ellipsoid",
        "gain",
        "unbounded",
        "formula",
        "x-size",
        "conflicts",
        "schur-cohn",
        "inputs",
        "outputs",
        "emit-c",
        "c-name",
    ]
}

/// The options that neither a check nor a generation has, beside those of files that both lack.
pub(crate) fn all_job_options() -> &'static [&'static str]
    ensures { names_view result.now ≡ all_job_options }
{
    &[
        "state-space",
        "sections",
        "property",
        "simulate",
        "form",
        "lyapunov",
        "ellipsoid",
        "offer-ellipsoid",
        "gain",
        "unbounded",
        "formula",
        "x-size",
        "conflicts",
        "schur-cohn",
        "inputs",
        "outputs",
        "emit-c",
        "c-name",
        "certificate",
        "realization",
        "rounding",
        "overflow-mode",
    ]
}
