// The verdicts of answers.
ghost use Rattle.std.specs.Prelude.{◌≡◌};
ghost use Rattle.dsv_report.specs.Headings as headings;
ghost use Rattle.dsv_report.specs.Report as report;

use crate::answers::Answer;
use dsv_cascade::{CascadeForms, SectionFault};
use dsv_poly_table::SectionTables;
use dsv_table::TableVerdict;

/// The first line of a success.
#[tactic(auto, unfolding(crate::specs::Headings::successful))]
fn success_line() -> &'static [u8]
    ensures { result.now ≡ headings.successful }
{
    b"VERIFICATION SUCCESSFUL\n"
}

/// The first line of a failure.
#[tactic(auto, unfolding(crate::specs::Headings::failed))]
fn failure_line() -> &'static [u8]
    ensures { result.now ≡ headings.failed }
{
    b"VERIFICATION FAILED\n"
}

/// The first line of what is undecided.
#[tactic(auto, unfolding(crate::specs::Headings::inconclusive))]
fn doubt_line() -> &'static [u8]
    ensures { result.now ≡ headings.inconclusive }
{
    b"VERIFICATION INCONCLUSIVE\n"
}

/// The first line of a simulation.
#[tactic(auto, unfolding(crate::specs::Headings::simulation))]
fn simulation_line() -> &'static [u8]
    ensures { result.now ≡ headings.simulation }
{
    b"SIMULATION\n"
}

/// What an answer says first, from which its status and its heading follow.
#[derive(Clone, Copy)]
pub enum Verdict {
    /// What was asked for is shown.
    Successful,
    /// It is refuted.
    Failed,
    /// It is neither.
    Inconclusive,
    /// Rows of a run, and no verdict.
    Simulation,
    /// A text without a heading.
    Plain,
}

impl Verdict {
    /// The line of the verdict.
    pub(crate) fn text(self) -> &'static [u8]
        ensures { result.now ≡ headings.verdict_text self }
    {
        match self {
            Verdict::Successful => success_line(),
            Verdict::Failed => failure_line(),
            Verdict::Inconclusive => doubt_line(),
            Verdict::Simulation => simulation_line(),
            Verdict::Plain => b"",
        }
    }

    /// The status of an answer with this verdict.
    pub(crate) fn status(self) -> u8
        ensures { result ≡ headings.verdict_status self }
    {
        match self {
            Verdict::Successful | Verdict::Simulation | Verdict::Plain => 0,
            Verdict::Failed => 10,
            Verdict::Inconclusive => 20,
        }
    }

    /// Whether the text of an answer with this verdict has a heading.
    pub(crate) fn has_heading(self) -> bool
        ensures { result ≡ headings.has_heading self }
    {
        match self {
            Verdict::Plain => false,
            Verdict::Successful | Verdict::Failed | Verdict::Inconclusive | Verdict::Simulation =>
                true,
        }
    }
}

/// The verdict of what closed forms say of a cascade's sections.
fn forms_verdict(found: &CascadeForms) -> Verdict
    ensures { result ≡ report.forms_verdict found.now }
{
    match found {
        CascadeForms::Falls(_) => Verdict::Successful,
        CascadeForms::NotAll {
            fault: SectionFault::KeptAway { .. },
            ..
        } => Verdict::Failed,
        CascadeForms::NotAll { .. } => Verdict::Inconclusive,
    }
}

/// The verdict of what tables say of a cascade's sections.
fn section_tables_verdict(found: &SectionTables) -> Verdict
    ensures { result ≡ report.section_tables_verdict found.now }
{
    match found {
        SectionTables::Inside(_) => Verdict::Successful,
        SectionTables::NotInside { .. } => Verdict::Failed,
        SectionTables::Wide { .. } => Verdict::Inconclusive,
    }
}

/// The verdict of what a table says.
fn table_verdict(verdict: TableVerdict) -> Verdict
    ensures { result ≡ report.table_verdict verdict }
{
    match verdict {
        TableVerdict::Inside => Verdict::Successful,
        TableVerdict::NotInside { .. } => Verdict::Failed,
    }
}

/// The verdict of an answer.
pub(crate) fn verdict_of(answer: &Answer) -> Verdict
    ensures { result ≡ report.verdict_of answer.now }
{
    match answer {
        Answer::OfTable(found) => table_verdict(found.verdict),
        Answer::OfSections(found) => forms_verdict(found),
        Answer::OfSectionTables(found) => section_tables_verdict(found),
        Answer::Falls { .. }
        | Answer::StateFalls { .. }
        | Answer::OnTime(_)
        | Answer::Never { .. }
        | Answer::Always { .. }
        | Answer::InRanges { .. }
        | Answer::InEllipsoid(_) => Verdict::Successful,
        Answer::KeptAway { .. }
        | Answer::NoZeros
        | Answer::Late(_)
        | Answer::Overflow(_)
        | Answer::Cycles(_) => Verdict::Failed,
        Answer::NoForm { .. }
        | Answer::NoStateForm
        | Answer::NoEllipsoid
        | Answer::Wide { .. }
        | Answer::Spent { .. }
        | Answer::NoInvariant { .. }
        | Answer::OutOfRange { .. }
        | Answer::TooDeep { .. } => Verdict::Inconclusive,
        Answer::Simulated(_) => Verdict::Simulation,
        Answer::FoundEllipsoid(_)
        | Answer::FormulaText(_)
        | Answer::Outputs(_)
        | Answer::Code(_)
        | Answer::Words
        | Answer::Generated(_)
        | Answer::Checked { .. } => Verdict::Plain,
    }
}
