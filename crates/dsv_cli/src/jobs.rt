// What jobs come to: their files, what the task names, the words, and then the task.
ghost use Rattle.std.specs.Prelude.{◌≡◌, [], map, true, Some, IfOk, IfErr, MatchBool};
ghost use Rattle.dsv_certfile.specs.Lawful.{IsWords};
ghost use Rattle.dsv_certfile.specs.declared.job.CertWords.TheVariants as words_said;
ghost use Rattle.dsv_command.specs.Table.{does, has_cell, kind_of};
ghost use Rattle.dsv_command.specs.Views.{files_view, job_view, task_view};
ghost use Rattle.dsv_report.specs.Printing.{HasPlaces};
ghost use Rattle.dsv_cli.specs.Causes.{IsPlain};
ghost use Rattle.dsv_base.specs.Seen.{AreKept};
ghost use Rattle.dsv_cli.specs.JobRows.{IsTaskDone};
ghost use Rattle.dsv_cli.specs.Words.{of_words, BecomeJobWords};
ghost use Rattle.dsv_cli.specs.Proposers.{IsAsked, AreSetsAsked};
ghost use Rattle.dsv_cli.specs.Proposers.{Wants, Decides, AsksSchurCohn, Seeks};
ghost use Rattle.dsv_cli.specs.Stages.{AreUnready, AsksMore, IsAlone, IsNoController};
ghost use Rattle.dsv_cli.specs.Stages.{IsSaidBeside, kind_in, texts_in, words_in};
ghost use Rattle.dsv_cli.specs.Told.{titled_by, told_by};
ghost use Rattle.dsv_files.specs.Digests.{AreLogged, digest_view, named_by_task};
ghost use Rattle.dsv_files.specs.JobTexts.{HasEvidence};
ghost use Rattle.dsv_files.specs.Views.{IsEvidenceFor, evidence_view, texts_view};

use crate::cascades::cascade_answer;
use crate::controllers::controller_answer;
use crate::emission::emission_outcome;
use crate::in_words::{InWords, words_of};
use crate::loops::loop_answer;
use crate::proposers::Proposers;
use crate::roots::roots_answer;
use crate::sets::sets_answer;
use crate::states::states_answer;
use crate::told::head_lines;
use dsv_base::{Bytes, Files};
use dsv_certfile::CertWords;
use dsv_command::{Job, Task};
use dsv_files::{Digests, Evidence, Texts, read_evidence, read_texts};
use dsv_lyapunov::FormProposer;
use dsv_report::{Answer, Stop};
use dsv_template::InvariantProposer;
use std::alloc::Global;
use std::slice;

/// What a request came to: an answer, or why there is none.
#[derive(Drop)]
pub(crate) struct Found {
    pub outcome: Result<Answer, Stop>,
    /// What a certificate of it says of the format of the controller's words.
    pub words: CertWords,
    /// How many states a state-space controller has, as its accepted file says; 0 of all else.
    pub states: u32,
    /// The lines at the head of its text.
    pub lines: Bytes,
}

impl Found {
    /// What is found if neither words nor states are said, with these lines that tell words.
    pub(crate) fn unsaid(outcome: Result<Answer, Stop>, lines: Bytes) -> Found
        ensures outcome { result.outcome ≡ outcome }
        ensures words { result.words ≡ words_said.Unsaid }
        ensures states { result.states ≡ 0 }
        ensures lines { result.lines ≡ lines }
    {
        Found {
            outcome,
            words: CertWords::Unsaid,
            states: 0,
            lines,
        }
    }
}

/// What a job has before its task is done: what the task names, the words, and the lines at the
/// head of its text.
#[derive(Drop)]
struct Ready<'a> {
    evidence: Evidence,
    subject: InWords<'a>,
    lines: Bytes,
}

/// What a task comes to for what isn't a controller alone.
fn other_outcome(
    alloc: Global,
    subject: InWords,
    task: &Task,
    evidence: &Evidence,
) -> Result<Answer, Stop>
    requires cell { has_cell (kind_in (texts_in subject)) (task_view task.now) ≡ true }
    requires evidence { IsEvidenceFor (task_view task.now) (evidence_view evidence.now) }
    requires other { IsNoController subject }
    requires asks { AsksMore (task_view task.now) }
    ensures task { IsTaskDone (task_view task.now) (evidence_view evidence.now)
        (texts_in subject.entry) (words_in subject.entry) result }
    ensures plain { IsPlain result }
{
    match subject {
        InWords::Cascade(_, cascade) => cascade_answer(alloc, cascade, task, evidence),
        InWords::States(_, system) => states_answer(alloc, &system, task, evidence),
        InWords::Loop(controller, plant, quantised) => {
            let sample_time = *controller.sample_time();
            loop_answer(alloc, slice::from_ref(&quantised), sample_time, plant)
        }
        InWords::CascadeLoop(sections, plant, cascade) => {
            let sample_time = *sections.first.sample_time();
            let sections = cascade.into_sections()?;
            loop_answer(alloc, sections.as_slice(), sample_time, plant)
        }
        InWords::Controller(_, _) => unreachable!(),
    }
}

/// What a task that asks more than what the words are comes to.
fn question_outcome(
    alloc: Global,
    subject: InWords,
    task: &Task,
    evidence: &Evidence,
    proposers: &mut Proposers,
) -> Result<Answer, Stop>
    requires cell { has_cell (kind_in (texts_in subject)) (task_view task.now) ≡ true }
    requires evidence { IsEvidenceFor (task_view task.now) (evidence_view evidence.now) }
    requires asks { AsksMore (task_view task.now) }
    ensures task { IsTaskDone (task_view task.now) (evidence_view evidence.now)
        (texts_in subject.entry) (words_in subject.entry) result }
    ensures places { IfOk result HasPlaces }
    ensures sets { AreSetsAsked (λ b. b.ptr)
        (λ b. (⟦<dyn InvariantProposer as InvariantProposer>⟧ b.vtable).last b.value)
        (λ b shape. (⟦<dyn InvariantProposer as InvariantProposer>⟧ b.vtable).to_come b.value shape)
        (λ w. words_in subject.entry ≡ of_words w)
        proposers.old.sets.items proposers.new.sets.items result }
    ensures forms { IsAsked (λ b. b.ptr)
        (λ b. (⟦<dyn FormProposer as FormProposer>⟧ b.vtable).last b.value)
        (λ b cs. sure b cs)
        (λ b cs. (⟦<dyn FormProposer as FormProposer>⟧ b.vtable).to_come b.value cs)
        (IsAlone (texts_in subject.entry) × AsksSchurCohn (task_view task.now))
        proposers.old.forms.items proposers.new.forms.items result }
    ensures unneeded_sets { (IsAlone (texts_in subject.entry) × Seeks (task_view task.now) → ⊥)
        → proposers.new.sets.items ≡ proposers.old.sets.items }
    ensures unneeded_forms { (IsAlone (texts_in subject.entry) × Decides (task_view task.now) → ⊥)
        → proposers.new.forms.items ≡ proposers.old.forms.items }
{
    match subject {
        InWords::Controller(controller, quantised) => match task {
            Task::Decide(question) => {
                roots_answer(alloc, &quantised, question, &mut proposers.forms)
            }
            Task::SeekSet(budget) => { sets_answer(alloc, &quantised, budget, &mut proposers.sets) }
            _ => controller_answer(alloc, controller, &quantised, task, evidence),
        },
        subject => other_outcome(alloc, subject, task, evidence),
    }
}

/// What a task comes to for what is in words.
fn task_outcome(
    alloc: Global,
    subject: InWords,
    task: &Task,
    evidence: &Evidence,
    proposers: &mut Proposers,
) -> Result<Answer, Stop>
    requires cell { has_cell (kind_in (texts_in subject)) (task_view task.now) ≡ true }
    requires evidence { IsEvidenceFor (task_view task.now) (evidence_view evidence.now) }
    ensures task { IsTaskDone (task_view task.now) (evidence_view evidence.now)
        (texts_in subject.entry) (words_in subject.entry) result }
    ensures places { IfOk result HasPlaces }
    ensures sets { AreSetsAsked (λ b. b.ptr)
        (λ b. (⟦<dyn InvariantProposer as InvariantProposer>⟧ b.vtable).last b.value)
        (λ b shape. (⟦<dyn InvariantProposer as InvariantProposer>⟧ b.vtable).to_come b.value shape)
        (λ w. words_in subject.entry ≡ of_words w)
        proposers.old.sets.items proposers.new.sets.items result }
    ensures forms { IsAsked (λ b. b.ptr)
        (λ b. (⟦<dyn FormProposer as FormProposer>⟧ b.vtable).last b.value)
        (λ b cs. sure b cs)
        (λ b cs. (⟦<dyn FormProposer as FormProposer>⟧ b.vtable).to_come b.value cs)
        (IsAlone (texts_in subject.entry) × AsksSchurCohn (task_view task.now))
        proposers.old.forms.items proposers.new.forms.items result }
    ensures unneeded_sets { (IsAlone (texts_in subject.entry) × Seeks (task_view task.now) → ⊥)
        → proposers.new.sets.items ≡ proposers.old.sets.items }
    ensures unneeded_forms { (IsAlone (texts_in subject.entry) × Decides (task_view task.now) → ⊥)
        → proposers.new.forms.items ≡ proposers.old.forms.items }
{
    match task {
        Task::TellWords => Ok(Answer::Words),
        Task::EmitCode(_) | Task::EmitTest(_, _) | Task::EmitFileTest(_, _) => {
            emission_outcome(alloc, subject, task, evidence)
        }
        _ => question_outcome(alloc, subject, task, evidence, proposers),
    }
}

/// What a job has for its task, of what is in its files.
fn ready_for<'a, 't, F: Files>(
    alloc: Global,
    job: &Job<'a>,
    texts: &'t Texts,
    files: &mut F,
    digests: &mut Digests<'a>,
) -> Result<Ready<'t>, Stop>
    ensures evidence { IfOk result (λ ready. HasEvidence (F.seen files.old)
        (task_view job.now.task) (evidence_view ready.evidence)) }
    ensures for_task { IfOk result (λ ready. IsEvidenceFor (task_view job.now.task)
        (evidence_view ready.evidence)) }
    ensures texts { IfOk result (λ ready. texts_in ready.subject ≡ texts_view texts.entry.now) }
    ensures words { IfOk result (λ ready. BecomeJobWords job.now.design
        (texts_view texts.entry.now) (words_in ready.subject)) }
    ensures digests { IfOk result (λ ready. AreLogged (F.seen files.old)
        (named_by_task (task_view job.now.task)) digests.old digests.new) }
    ensures lines { IfOk result (λ ready. MatchBool job.now.worded
        (ready.lines ≡ told_by (map digest_view digests.new) (texts_view texts.entry.now)
        (words_in ready.subject) (task_view job.now.task))
        (ready.lines ≡ titled_by (map digest_view digests.new) (task_view job.now.task))) }
    ensures unready { IfErr result (AreUnready (F.seen files.old) (F.seen files.new)
        (texts_view texts.entry.now) (task_view job.now.task) job.now.design) }
    ensures kept { AreKept (F.seen files.old) (F.seen files.new) }
{
    let evidence = read_evidence(alloc, &job.task, files, digests)?;
    let subject = words_of(alloc, texts, job.design)?;
    let lines = head_lines(alloc, job.worded, digests.as_slice(), &job.task, &subject)?;
    Ok(Ready {
        evidence,
        subject,
        lines,
    })
}

/// What a job comes to.
pub(crate) fn job_outcome<F: Files>(
    alloc: Global,
    job: &Job,
    files: &mut F,
    proposers: &mut Proposers,
) -> Found
    requires { has_cell (kind_of (files_view job.now.files)) (task_view job.now.task) ≡ true }
    ensures row { IsSaidBeside (F.seen files.old) (F.seen files.new)
        (Some (does (job_view job.now))) result.outcome result.states result.words result.lines
        (λ becomes. AreSetsAsked (λ b. b.ptr)
        (λ b. (⟦<dyn InvariantProposer as InvariantProposer>⟧ b.vtable).last b.value)
        (λ b shape. (⟦<dyn InvariantProposer as InvariantProposer>⟧ b.vtable).to_come b.value shape)
        becomes proposers.old.sets.items proposers.new.sets.items result.outcome) }
    ensures lawful { IsWords result.words }
    ensures kept { AreKept (F.seen files.old) (F.seen files.new) }
    ensures places { IfOk result.outcome HasPlaces }
    ensures forms { IsAsked (λ b. b.ptr)
        (λ b. (⟦<dyn FormProposer as FormProposer>⟧ b.vtable).last b.value)
        (λ b cs. sure b cs)
        (λ b cs. (⟦<dyn FormProposer as FormProposer>⟧ b.vtable).to_come b.value cs)
        (Wants AsksSchurCohn (Some (does (job_view job.now))))
        proposers.old.forms.items proposers.new.forms.items result.outcome }
    ensures unneeded_sets { (Wants Seeks (Some (does (job_view job.now))) → ⊥)
        → proposers.new.sets.items ≡ proposers.old.sets.items }
    ensures unneeded_forms { (Wants Decides (Some (does (job_view job.now))) → ⊥)
        → proposers.new.forms.items ≡ proposers.old.forms.items }
{
    let mut digests = Digests::new(alloc);
    let texts = match read_texts(alloc, &job.files, files, &mut digests) {
        Ok(texts) => texts,
        Err(stop) => return Found::unsaid(Err(stop), Bytes::new(alloc)),
    };
    let said = texts.said();
    match ready_for(alloc, job, &texts, files, &mut digests) {
        Ok(
            Ready {
                evidence,
                subject,
                lines,
            },
        ) => Found {
            outcome: task_outcome(alloc, subject, &job.task, &evidence, proposers),
            words: said.words,
            states: said.states,
            lines,
        },
        Err(stop) => Found {
            outcome: Err(stop),
            words: said.words,
            states: said.states,
            lines: Bytes::new(alloc),
        },
    }
}
