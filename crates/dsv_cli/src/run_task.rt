// Questions about the runs of any subject.
use dsv_command::{Budget, RunQuestion};

/// What is asked about a subject's runs.
#[derive(Clone, Copy)]
pub enum RunTask<'a> {
    /// A question is decided by a search.
    Search(&'a RunQuestion, &'a Budget),
    /// It is decided by the gain whether any list of inputs, of any length, overflows.
    MeasureGain,
    /// It is run over these inputs, from registers that are 0; the flag: its outputs alone are
    /// written.
    Simulate(&'a [i64], bool),
}
