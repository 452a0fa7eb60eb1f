// The C of a subject.
#![tactic(auto, using(dsv_algebra::proofs::Casts::casts))]

ghost use Rattle.std.specs.Prelude.{◌≡◌, ◌≤◌, true, length};
ghost use Rattle.dsv_command.specs.Table.{has_cell};
ghost use Rattle.dsv_command.specs.Views.{task_view};
ghost use Rattle.dsv_files.specs.Views.{IsEvidenceFor, evidence_view};
ghost use Rattle.dsv_cli.specs.Causes.{IsPlain};
ghost use Rattle.dsv_cli.specs.Emitting.{Emits, IsEmitted, IsOfCode, IsOfCodeTest, stop_of_code};
ghost use Rattle.dsv_cli.specs.JobRows.{IsTaskDone};
ghost use Rattle.dsv_cli.specs.Stages.{kind_in, texts_in, words_in};

use crate::in_words::InWords;
use crate::simulation::outside_stop;
use dsv_code::{CodeNotes, CodeRefusal, cascade_notes, code_of, controller_notes, state_notes};
use dsv_command::Task;
use dsv_files::Evidence;
use dsv_realise::{Asking, Subject};
use dsv_report::{Answer, Stop};
use std::alloc::Global;

/// Why there is no answer where there is no C.
fn code_stop(refusal: CodeRefusal) -> Stop
    ensures { result ≡ stop_of_code refusal }
{
    match refusal {
        CodeRefusal::Wide { value } => Stop::WideCode { value },
        CodeRefusal::NoMemory => Stop::NoMemory,
    }
}

/// The C of a subject.
fn code_answer<S: Subject>(
    alloc: Global,
    subject: &S,
    notes: &CodeNotes,
    prefix: &str,
) -> Result<Answer, Stop>
    requires named { length notes.now.members ≡ (S.view subject.now).runs.many }
    ensures code { IsOfCode (S.view subject.now) prefix.now notes.now.members notes.now.origin
        result }
    ensures plain { IsPlain result }
{
    let asking = Asking::of(alloc, subject)?;
    match code_of(alloc, &asking, notes, prefix, &[]) {
        Ok(text) => Ok(Answer::Code(text)),
        Err(refusal) => Err(code_stop(refusal)),
    }
}

/// The C of a subject with a test over these inputs.
fn code_test_answer<S: Subject>(
    alloc: Global,
    subject: &S,
    notes: &CodeNotes,
    prefix: &str,
    inputs: &[i64],
) -> Result<Answer, Stop>
    requires named { length notes.now.members ≡ (S.view subject.now).runs.many }
    requires few { length inputs.now ≤ 65536 }
    ensures code { IsOfCodeTest (S.view subject.now) prefix.now notes.now.members
        notes.now.origin inputs.now result }
    ensures plain { IsPlain result }
{
    let asking = Asking::of(alloc, subject)?;
    if let Some(stop) = outside_stop(&asking.net.format(), inputs) {
        return Err(stop);
    }
    let rows = asking.rows(alloc, inputs)?;
    match code_of(alloc, &asking, notes, prefix, rows.as_slice()) {
        Ok(text) => Ok(Answer::Code(text)),
        Err(refusal) => Err(code_stop(refusal)),
    }
}

/// What a task of C comes to for a subject.
fn emission<S: Subject>(
    alloc: Global,
    subject: &S,
    notes: &CodeNotes,
    task: &Task,
    evidence: &Evidence,
) -> Result<Answer, Stop>
    requires named { length notes.now.members ≡ (S.view subject.now).runs.many }
    requires evidence { IsEvidenceFor (task_view task.now) (evidence_view evidence.now) }
    requires emits { Emits (task_view task.now) }
    ensures code { IsEmitted (task_view task.now) (evidence_view evidence.now)
        (S.view subject.now) notes.now.members notes.now.origin result }
    ensures plain { IsPlain result }
{
    match task {
        Task::EmitCode(prefix) => code_answer(alloc, subject, notes, prefix),
        Task::EmitTest(prefix, inputs) => {
            code_test_answer(alloc, subject, notes, prefix, inputs.as_slice())
        }
        Task::EmitFileTest(prefix, _) => match evidence {
            Evidence::Inputs(inputs) => {
                code_test_answer(alloc, subject, notes, prefix, inputs.as_slice())
            }
            _ => unreachable!(),
        },
        _ => unreachable!(),
    }
}

/// What a task of C comes to for what is in words.
pub(crate) fn emission_outcome(
    alloc: Global,
    subject: InWords,
    task: &Task,
    evidence: &Evidence,
) -> Result<Answer, Stop>
    requires cell { has_cell (kind_in (texts_in subject)) (task_view task.now) ≡ true }
    requires evidence { IsEvidenceFor (task_view task.now) (evidence_view evidence.now) }
    requires emits { Emits (task_view task.now) }
    ensures task { IsTaskDone (task_view task.now) (evidence_view evidence.now)
        (texts_in subject.entry) (words_in subject.entry) result }
    ensures plain { IsPlain result }
{
    match subject {
        InWords::Controller(_, quantised) => {
            let notes = controller_notes(alloc, &quantised)?;
            emission(alloc, &quantised, &notes, task, evidence)
        }
        InWords::Cascade(_, cascade) => {
            let notes = cascade_notes(alloc, &cascade)?;
            emission(alloc, &cascade, &notes, task, evidence)
        }
        InWords::States(_, system) => {
            let notes = state_notes(alloc, &system)?;
            emission(alloc, &system, &notes, task, evidence)
        }
        InWords::Loop(_, _, _) | InWords::CascadeLoop(_, _, _) => unreachable!(),
    }
}
