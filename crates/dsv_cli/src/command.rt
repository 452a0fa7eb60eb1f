// The command.
ghost use Rattle.std.specs.Prelude.{◌≡◌, [], Some, None, Err, IfOk, IfSome, map, option_map};
ghost use Rattle.std.specs.Prelude.{string_bytes};
ghost use Rattle.dsv_certfile.specs.Lawful.{IsWords};
ghost use Rattle.dsv_certfile.specs.Typed.{IsTyped};
ghost use Rattle.dsv_certfile.specs.declared.job.CertWords.TheVariants as words_said;
ghost use Rattle.dsv_command.specs.Requests.{request_of};
ghost use Rattle.dsv_command.specs.Views.{reason_view, request_view};
ghost use Rattle.dsv_report.specs.Headings.{asked_by, heading_view};
ghost use Rattle.dsv_report.specs.Printing.{HasPlaces};
ghost use Rattle.dsv_report.specs.Output.{output_of, certificate_written};
ghost use Rattle.dsv_report.specs.Reasons.{reason_text};
ghost use Rattle.dsv_report.specs.Report.{status_of};
ghost use Rattle.dsv_report.specs.declared.stop.Stop.TheVariants as stop;
ghost use Rattle.dsv_base.specs.Taking.{IsWritten, IfWhole};
ghost use Rattle.dsv_cli.specs.Proposers.{IsAsked, AreSetsAsked};
ghost use Rattle.dsv_cli.specs.Proposers.{Wants, Decides, AsksSchurCohn, Seeks};
ghost use Rattle.dsv_cli.specs.Runs.{IsDone};

use crate::jobs::Found;
use crate::proposers::Proposers;
use crate::requests::request_outcome;
use dsv_base::{Bytes, Files, Sink};
use dsv_certfile::CertWords;
use dsv_command::{Line, Reason, Request, read_line};
use dsv_lyapunov::FormProposer;
use dsv_report::{Answer, Heading, Stop, put_output, put_reason, status_of};
use dsv_template::InvariantProposer;
use std::alloc::Global;

/// The status of a run whose sink failed.
const WRITE_FAULT: u8 = 4;

/// The status of a run, and what it came to: an answer, or why there is none. The status is 4 where
/// that couldn't be written.
#[derive(Drop)]
pub struct Done {
    pub status: u8,
    pub outcome: Result<Answer, Stop>,
    /// What a certificate of it says of the format of the controller's words.
    pub words: CertWords,
    /// How many states a state-space controller has, as its accepted file says; 0 of all else.
    pub states: u32,
    /// The lines at the head of its text: those that tell words, if they are asked for, or before C
    /// the name of the controller.
    pub lines: Bytes,
}

/// What a report is headed by, if the request is a job.
fn heading_of<'a>(request: &'a Request, states: u32) -> Option<Heading<'a>>
    ensures { option_map heading_view result ≡ asked_by states (Some (request_view request.now)) }
{
    match request {
        Request::Do(job) => Some(Heading { job, states }),
        Request::Check { .. } | Request::Generate(_) => None,
    }
}

/// Writes what was found under this heading. The status is 4 if not the whole text was written.
fn put_found<K: Sink>(sink: &mut K, heading: Option<Heading>, found: Found) -> Done
    requires places { IfOk found.outcome HasPlaces }
    requires words { IsWords found.words }
    ensures outcome { result.outcome ≡ found.outcome }
    ensures words { result.words ≡ found.words }
    ensures states { result.states ≡ found.states }
    ensures lines { result.lines ≡ found.lines }
    ensures written { IsWritten (K.seen sink.old) (K.seen sink.new) result.status
        (status_of found.outcome)
        (output_of (option_map heading_view heading.entry) found.lines found.words
        found.outcome) }
    ensures typed { IfWhole result.status (IfSome
        (certificate_written (option_map heading_view heading.entry) found.words found.outcome)
        IsTyped) }
{
    let Found {
        outcome,
        words,
        states,
        lines,
    } = found;
    let status = match put_output(sink, heading, lines.as_slice(), words, &outcome) {
        Ok(()) => status_of(&outcome),
        Err(_) => WRITE_FAULT,
    };
    Done {
        status,
        outcome,
        words,
        states,
        lines,
    }
}

/// Writes why nothing was found, where no request is known.
pub(crate) fn put_refusal<K: Sink>(alloc: Global, sink: &mut K, stop: Stop) -> Done
    ensures outcome { result.outcome ≡ Err stop }
    ensures words { result.words ≡ words_said.Unsaid }
    ensures states { result.states ≡ 0 }
    ensures lines { result.lines ≡ [] }
    ensures written { IsWritten (K.seen sink.old) (K.seen sink.new) result.status
        (status_of (Err stop)) (output_of None [] words_said.Unsaid (Err stop)) }
    ensures typed { IfWhole result.status
        (IfSome (certificate_written None words_said.Unsaid (Err stop)) IsTyped) }
{
    put_found(sink, None, Found::unsaid(Err(stop), Bytes::new(alloc)))
}

/// Writes why a line asks for nothing.
fn put_explained<K: Sink>(alloc: Global, sink: &mut K, reason: Reason<'_>) -> Done
    ensures outcome { result.outcome ≡ Err stop.Usage }
    ensures words { result.words ≡ words_said.Unsaid }
    ensures states { result.states ≡ 0 }
    ensures lines { result.lines ≡ [] }
    ensures written { IsWritten (K.seen sink.old) (K.seen sink.new) result.status
        (status_of (Err stop.Usage)) (reason_text (reason_view reason.entry)) }
{
    let outcome = Err(Stop::Usage);
    let status = match put_reason(sink, reason) {
        Ok(()) => status_of(&outcome),
        Err(_) => WRITE_FAULT,
    };
    Done {
        status,
        outcome,
        words: CertWords::Unsaid,
        states: 0,
        lines: Bytes::new(alloc),
    }
}

/// Runs the command: finds the answer for the arguments after the program's name, and writes its
/// text to the sink. The writing takes no memory; where the sink fails, a prefix of the text was
/// written and the status is 4. A polynomial without a closed form is decided by what the proposers
/// of forms offer, or at last by its table, and runs of any length by what those of sets offer;
/// they are asked in their order and need no trust.
pub fn run<F: Files, K: Sink>(
    alloc: Global,
    arguments: &[String],
    files: &mut F,
    sink: &mut K,
    proposers: &mut Proposers,
) -> Done
    // The answer's row, and what becomes of the proposers of sets, asked for the words in this row.
    // A list that the answer doesn't need stays as it was.
    ensures run { IsDone (F.seen files.old) (F.seen files.new) (K.seen sink.old) (K.seen sink.new)
        (map string_bytes arguments.now) result (λ becomes. AreSetsAsked (λ b. b.ptr)
        (λ b. (⟦<dyn InvariantProposer as InvariantProposer>⟧ b.vtable).last b.value)
        (λ b shape. (⟦<dyn InvariantProposer as InvariantProposer>⟧ b.vtable).to_come b.value shape)
        becomes proposers.old.sets.items proposers.new.sets.items result.outcome) }
    ensures forms { IsAsked (λ b. b.ptr)
        (λ b. (⟦<dyn FormProposer as FormProposer>⟧ b.vtable).last b.value)
        (λ b cs. sure b cs)
        (λ b cs. (⟦<dyn FormProposer as FormProposer>⟧ b.vtable).to_come b.value cs)
        (Wants AsksSchurCohn (request_of (map string_bytes arguments.now)))
        proposers.old.forms.items proposers.new.forms.items result.outcome }
    // A list that the job doesn't need stays as it was whatever the outcome, want of memory too.
    ensures unneeded_sets { (Wants Seeks (request_of (map string_bytes arguments.now)) → ⊥)
        → proposers.new.sets.items ≡ proposers.old.sets.items }
    ensures unneeded_forms { (Wants Decides (request_of (map string_bytes arguments.now)) → ⊥)
        → proposers.new.forms.items ≡ proposers.old.forms.items }
{
    match read_line(alloc, arguments) {
        Ok(Line::Asks(request)) => {
            let found = request_outcome(alloc, &request, files, proposers);
            let heading = heading_of(&request, found.states);
            put_found(sink, heading, found)
        }
        Ok(Line::Explains(reason)) => put_explained(alloc, sink, reason),
        Ok(Line::AsksNothing) => put_refusal(alloc, sink, Stop::Usage),
        Err(_) => put_refusal(alloc, sink, Stop::NoMemory),
    }
}
