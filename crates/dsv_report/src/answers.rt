// What the command finds.
use dsv_base::Bytes;
use dsv_cascade::CascadeForms;
use dsv_certfile::{CertifiedJob, Ellipsoid};
use dsv_cnf::Formula;
use dsv_forms::{Falls, Form, KeptAway, Poly};
use dsv_gain::{ErrorBound, Gain, ShownError};
use dsv_hints::Log;
use dsv_jury::Jury;
use dsv_lyapunov::KeptForms;
use dsv_meaning::{Cycle, Trace};
use dsv_poly_table::SectionTables;
use dsv_system::Rows;
use dsv_table::TableFinding;
use dsv_tally::Generated;
use dsv_template::{Candidate, KeptSets, ThreeLogs};
use dsv_timing::TimingReport;

/// How far outputs are from those of exact runs, for ever.
#[derive(Drop)]
pub enum OutputError {
    /// It isn't sought: the answer is of a cascade or a state-space controller.
    NotSought,
    /// No bound was found.
    Open,
    /// The bound, with the offer that shows it.
    Within(ErrorBound),
}

/// What the command found.
#[derive(Drop)]
pub enum Answer {
    /// The form of the offer strictly falls along each trajectory of the polynomial, by the form
    /// `fall` in a step.
    Falls {
        poly: Poly,
        offer: Falls,
        fall: Form,
    },
    /// The form of the offer has the negative `value` at its start, and rises back along no
    /// trajectory of the polynomial; in a step it loses the form `fall`.
    KeptAway {
        poly: Poly,
        offer: KeptAway,
        fall: Form,
        value: i128,
    },
    /// What the table of a polynomial says of its roots.
    OfTable(TableFinding),
    /// What closed forms say of the sections of a cascade.
    OfSections(CascadeForms),
    /// What tables say of the sections of a cascade.
    OfSectionTables(SectionTables),
    /// The form of the offer strictly falls along the states of a controller with so many of them,
    /// without input, by the form `fall` in a step.
    StateFalls {
        states: u32,
        offer: Falls,
        fall: Form,
    },
    /// No form was found that falls along the states: the search for one ended, or no table shows
    /// one.
    NoStateForm,
    /// All coefficients of the numerator are 0, so that there are no zeros to test.
    NoZeros,
    /// The polynomial has no closed form, and no proposer offered a form that its check accepts:
    /// all offers with their refusals, and what Jury's recursion says.
    NoForm {
        poly: Poly,
        kept: KeptForms,
        jury: Jury,
    },
    /// The number with this index, or one on the way to it, is too wide for a polynomial.
    Wide {
        index: u32,
    },
    /// The work of a sample is done in time.
    OnTime(TimingReport),
    /// The work of a sample isn't done in time.
    Late(TimingReport),
    /// What the job asks of runs never happens: the log derives the empty clause from the job's
    /// formula.
    Never {
        log: Log,
    },
    /// No list of inputs of any length overflows: the controller never leaves the candidate's set,
    /// and each log derives the empty clause from the formula that its sentence is broken.
    Always {
        candidate: Candidate,
        logs: ThreeLogs,
    },
    /// No set that was offered is known to be one that the controller never leaves: all offers with
    /// what was found of each.
    NoInvariant {
        kept: KeptSets,
    },
    /// No list of inputs of any length overflows: each exact value of each sample lies in its range
    /// of the gain. And how far the outputs are from those of exact runs.
    InRanges {
        gain: Gain,
        error: OutputError,
    },
    /// No list of inputs of any length overflows: the last outputs stay in this ellipsoid, which
    /// was offered.
    InEllipsoid(Ellipsoid),
    /// An ellipsoid that was found: the last outputs stay in it.
    FoundEllipsoid(Ellipsoid),
    /// No ellipsoid was found: the search for one ended.
    NoEllipsoid,
    /// In this sample the range of the exact value of this number isn't known to be one of words,
    /// and no list of inputs that was tried overflows.
    OutOfRange {
        sample: u32,
        value: usize,
    },
    /// The ranges of all samples below this depth are ones of words, and from some registers those
    /// of none of them are.
    TooDeep {
        depth: u32,
    },
    /// An overflow, which replays in the written equations.
    Overflow(Trace),
    /// A limit cycle, which replays in the written equations.
    Cycles(Cycle),
    /// The search gave up after as many conflicts as the job allows: the clauses that it learned.
    Spent {
        log: Log,
    },
    /// The job's formula.
    FormulaText(Formula),
    /// The rows of the controller over the inputs of the job, from registers of zeros.
    Simulated(Rows),
    /// So they are, of which the outputs alone are written.
    Outputs(Rows),
    /// The text of its C.
    Code(Bytes),
    /// The words of what is asked about, and no more: the lines of the report tell them.
    Words,
    /// What is found of generated controllers.
    Generated(Generated),
    /// The certificate shows its property of the controller, and this of the output's error, if it
    /// has an offer for that.
    Checked {
        certified: CertifiedJob,
        error: Option<ShownError>,
    },
}
