// What the code does.
ghost use Rattle.dsv_code.specs.Law.{CodeRunsAsSubject};

/// The law of [`code_of`](crate::code_of), for proofs: under the meaning of C in dsv_c the program
/// that is written runs as the written equations of its subject. The call does nothing.
pub fn code_runs_as_its_subject()
    ensures { CodeRunsAsSubject }
{}
