// What tasks come to for a state-space controller.
ghost use Rattle.std.specs.Prelude.{◌≡◌, true};
ghost use Rattle.dsv_command.specs.Table.{has_cell};
ghost use Rattle.dsv_command.specs.Views.{task_view};
ghost use Rattle.dsv_command.specs.declared.kind.Kind.TheVariants as of_kind;
ghost use Rattle.dsv_state_file.specs.StateFiles.{StateFileView};
ghost use Rattle.dsv_cli.specs.Causes.{IsPlain};
ghost use Rattle.dsv_cli.specs.JobRows.{IsTaskDone};
ghost use Rattle.dsv_cli.specs.Words.{of_state_words};
ghost use Rattle.dsv_files.specs.JobTexts.{of_state_file};
ghost use Rattle.dsv_files.specs.Views.{IsEvidenceFor, evidence_view};
ghost use Rattle.dsv_cli.specs.Stages.{AsksMore};
ghost use Rattle.dsv_cli.specs.States.{IsOfForm, IsOfSoughtForm, IsOfStateTable};

use crate::check::check_stop;
use crate::run_task::RunTask;
use crate::run_tasks::run_answer;
use dsv_certcheck::check_state_form;
use dsv_certfile::Certificate;
use dsv_command::Task;
use dsv_files::Evidence;
use dsv_report::{Answer, Stop};
use dsv_state_space::{StateSystem, check_state_falls, state_offer};
use dsv_state_table::state_finding;
use std::alloc::Global;

/// A form that falls along the states, where one is found.
fn sought_form_answer(system: &StateSystem) -> Result<Answer, Stop>
    ensures sought { IsOfSoughtForm system.now result }
    ensures plain { IsPlain result }
{
    let Some(offer) = state_offer(system) else {
        return Ok(Answer::NoStateForm);
    };
    match check_state_falls(system, &offer) {
        Ok(fall) => Ok(Answer::StateFalls {
            states: system.states(),
            offer,
            fall,
        }),
        Err(_) => Ok(Answer::NoStateForm),
    }
}

/// Whether the states fall, by the table of their polynomial.
fn table_answer(alloc: Global, system: &StateSystem) -> Result<Answer, Stop>
    ensures table { IsOfStateTable system.now result }
    ensures plain { IsPlain result }
{
    match state_finding(system, alloc)? {
        Some(found) => Ok(Answer::OfTable(found)),
        None => Ok(Answer::NoStateForm),
    }
}

/// The answer to a certificate's form.
fn form_answer(system: &StateSystem, certificate: &Certificate) -> Result<Answer, Stop>
    ensures form { IsOfForm system.now certificate.now result }
    ensures plain { IsPlain result }
{
    match check_state_form(system, certificate) {
        Ok(form) => Ok(Answer::StateFalls {
            states: system.states(),
            offer: form.offer,
            fall: form.loss,
        }),
        Err(refusal) => Err(check_stop(refusal)),
    }
}

/// What a task comes to for a state-space controller.
pub(crate) fn states_answer(
    alloc: Global,
    system: &StateSystem,
    task: &Task,
    evidence: &Evidence,
) -> Result<Answer, Stop>
    requires cell { has_cell of_kind.States (task_view task.now) ≡ true }
    requires evidence { IsEvidenceFor (task_view task.now) (evidence_view evidence.now) }
    requires asks { AsksMore (task_view task.now) }
    // Whatever its file.
    ensures task { (file : StateFileView) → IsTaskDone (task_view task.now)
        (evidence_view evidence.now) (of_state_file file) (of_state_words system.now) result }
    ensures plain { IsPlain result }
{
    match task {
        Task::CheckForm(_) => match evidence {
            Evidence::Certificate(certificate) => form_answer(system, certificate),
            _ => unreachable!(),
        },
        Task::SeekForm => sought_form_answer(system),
        Task::Decide(_) => table_answer(alloc, system),
        Task::Search(question, budget) => {
            run_answer(alloc, system, RunTask::Search(question, budget))
        }
        Task::MeasureGain => run_answer(alloc, system, RunTask::MeasureGain),
        Task::Simulate(inputs, outputs) => {
            run_answer(
                alloc,
                system,
                RunTask::Simulate(inputs.as_slice(), *outputs),
            )
        }
        Task::RunFile(_, outputs) => match evidence {
            Evidence::Inputs(inputs) => {
                run_answer(
                    alloc,
                    system,
                    RunTask::Simulate(inputs.as_slice(), *outputs),
                )
            }
            _ => unreachable!(),
        },
        _ => unreachable!(),
    }
}
