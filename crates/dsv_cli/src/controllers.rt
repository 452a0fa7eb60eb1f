// What tasks come to for a controller.
ghost use Rattle.std.specs.Prelude.{◌≡◌, true};
ghost use Rattle.dsv_command.specs.Table.{has_cell};
ghost use Rattle.dsv_command.specs.Views.{task_view};
ghost use Rattle.dsv_command.specs.declared.kind.Kind.TheVariants as of_kind;
ghost use Rattle.dsv_cli.specs.Causes.{IsPlain};
ghost use Rattle.dsv_cli.specs.JobRows.{IsTaskDone};
ghost use Rattle.dsv_cli.specs.Words.{of_words};
ghost use Rattle.dsv_files.specs.JobTexts.{of_one};
ghost use Rattle.dsv_cli.specs.Stages.{NeedsNoProposer};
ghost use Rattle.dsv_files.specs.Views.{IsEvidenceFor, evidence_view};

use crate::gain::controller_gain_answer;
use crate::offers::{offer_answer, sought_answer};
use crate::questions::formula_answer;
use crate::run_task::RunTask;
use crate::run_tasks::run_answer;
use crate::timing::timing_answer;
use dsv_command::Task;
use dsv_files::Evidence;
use dsv_quantiser::Quantised;
use dsv_reader::Controller;
use dsv_report::{Answer, Stop};
use std::alloc::Global;

/// What a task that needs no proposer comes to for a controller that becomes these words.
pub(crate) fn controller_answer(
    alloc: Global,
    controller: &Controller,
    quantised: &Quantised,
    task: &Task,
    evidence: &Evidence,
) -> Result<Answer, Stop>
    requires cell { has_cell of_kind.Controller (task_view task.now) ≡ true }
    requires evidence { IsEvidenceFor (task_view task.now) (evidence_view evidence.now) }
    requires plain { NeedsNoProposer (task_view task.now) }
    ensures task { IsTaskDone (task_view task.now) (evidence_view evidence.now)
        (of_one controller.now) (of_words quantised.now) result }
    ensures plain { IsPlain result }
{
    match task {
        Task::CheckTime => timing_answer(alloc, controller, quantised),
        Task::WriteFormula(question) => formula_answer(alloc, quantised, question),
        Task::Search(question, budget) => {
            run_answer(alloc, quantised, RunTask::Search(question, budget))
        }
        Task::MeasureGain => controller_gain_answer(alloc, quantised),
        Task::Simulate(inputs, outputs) => {
            run_answer(
                alloc,
                quantised,
                RunTask::Simulate(inputs.as_slice(), *outputs),
            )
        }
        Task::RunFile(_, outputs) => match evidence {
            Evidence::Inputs(inputs) => {
                run_answer(
                    alloc,
                    quantised,
                    RunTask::Simulate(inputs.as_slice(), *outputs),
                )
            }
            _ => unreachable!(),
        },
        Task::CheckEllipsoid(_) => match evidence {
            Evidence::Ellipsoid(offer) => offer_answer(quantised, offer),
            _ => unreachable!(),
        },
        Task::SeekEllipsoid => sought_answer(quantised),
        Task::Decide(_)
        | Task::SeekSet(_)
        | Task::CheckForm(_)
        | Task::SeekForm
        | Task::TellWords
        | Task::EmitCode(_)
        | Task::EmitTest(_, _)
        | Task::EmitFileTest(_, _) => { unreachable!() }
    }
}
