// What a controller file is answered by, and what its certificate.
ghost use Rattle.dsv_cli.specs.Accepted.{WrittenAreAccepted};
ghost use Rattle.dsv_cli.specs.CodeLaw.{VerdictsSpeakOfCode};
ghost use Rattle.dsv_cli.specs.Completeness.{AreDecided};
ghost use Rattle.dsv_cli.specs.Exact.{RefusalsComeExactly};
ghost use Rattle.dsv_cli.specs.OneAnswer.{HaveOneAnswer};

/// The law of [`run`](crate::run), for proofs: a request, of any kind, about files whose bytes are
/// told has one verdict, with its numbers. Logs, traces, cycles and the bound of the error aren't
/// compared; want of memory, faults of reads, searches that gave up, lists that were tried, what
/// proposers had a part in, forms of sections and of states, tables, ellipsoids that were sought
/// and tallies are left out. The call does nothing.
pub fn told_files_have_one_answer()
    ensures { HaveOneAnswer }
{}

/// The law of certificates, for proofs: if an answer to a job of any kind has a certificate, of
/// which is known what [`run`](crate::run) says of each that it wrote whole, and whose text has at
/// most 64 MiB, then each check of that text against files of the same bytes accepts it, but for
/// want of memory and faults of reads. What checks the form of a state-space controller is a job
/// that takes it as its form. The call does nothing.
pub fn written_certificates_are_accepted()
    ensures { WrittenAreAccepted }
{}

/// The law of completeness, for proofs: a request about files whose bytes are told, to which no
/// refusal of the table applies, is decided or inconclusive (its status is 0, 10 or 20), unless a
/// fault of a read rose or there was no memory. The call does nothing.
pub fn jobs_are_decided()
    ensures { AreDecided }
{}

/// The law of refusals, for proofs: if a request, of any kind, about files whose bytes are told may
/// end with a refusal, then it ends with just this one, unless a read failed or there was no
/// memory. So each refusal comes exactly where its row states it. The call does nothing.
pub fn refusals_come_exactly()
    ensures { RefusalsComeExactly }
{}

/// The law of C, for proofs: if C was written of a file in a design, then each verdict on files of
/// the same bytes in the same design, alone or in a loop with a plant, is about the words of that
/// C: its init sets all registers to 0, no step is stuck over any list of words, and its results
/// are the outputs of the written equations that the verdict's row speaks of. The call does
/// nothing.
pub fn verdicts_speak_of_code()
    ensures { VerdictsSpeakOfCode }
{}
