// What tasks come to for a cascade.
ghost use Rattle.std.specs.Prelude.{◌≡◌, true, false, List};
ghost use Rattle.dsv_command.specs.Table.{has_cell};
ghost use Rattle.dsv_command.specs.Views.{task_view};
ghost use Rattle.dsv_command.specs.declared.kind.Kind.TheVariants as of_kind;
ghost use Rattle.dsv_reader.specs.Controllers.{ControllerView};
ghost use Rattle.dsv_cli.specs.Causes.{IsPlain};
ghost use Rattle.dsv_cli.specs.JobRows.{IsOfSections, IsTaskDone};
ghost use Rattle.dsv_cli.specs.Words.{of_series};
ghost use Rattle.dsv_files.specs.JobTexts.{of_sections};
ghost use Rattle.dsv_files.specs.Views.{IsEvidenceFor, evidence_view};
ghost use Rattle.dsv_cli.specs.Stages.{AsksMore};

use crate::run_task::RunTask;
use crate::run_tasks::run_answer;
use dsv_cascade::{Cascade, cascade_stability};
use dsv_command::{RootQuestion, Task};
use dsv_files::Evidence;
use dsv_poly_table::section_tables;
use dsv_report::{Answer, Stop};
use std::alloc::Global;

/// Whether the poles of each section fall, by tables.
fn tables_answer(alloc: Global, cascade: Cascade) -> Result<Answer, Stop>
    ensures judged { IsOfSections true cascade result }
    ensures plain { IsPlain result }
{
    let sections = cascade.into_sections()?;
    Ok(Answer::OfSectionTables(section_tables(sections.as_slice(), alloc)?))
}

/// Whether the poles of each section fall, by closed forms.
fn stability_answer(cascade: &Cascade) -> Result<Answer, Stop>
    ensures judged { IsOfSections false cascade.now result }
    ensures plain { IsPlain result }
{
    Ok(Answer::OfSections(cascade_stability(cascade)))
}

/// What a task comes to for a cascade.
pub(crate) fn cascade_answer(
    alloc: Global,
    cascade: Cascade,
    task: &Task,
    evidence: &Evidence,
) -> Result<Answer, Stop>
    requires cell { has_cell of_kind.Cascade (task_view task.now) ≡ true }
    requires evidence { IsEvidenceFor (task_view task.now) (evidence_view evidence.now) }
    requires asks { AsksMore (task_view task.now) }
    // Whatever its files.
    ensures task { (first : ControllerView) (later : List ControllerView)
        → IsTaskDone (task_view task.now) (evidence_view evidence.now) (of_sections first later)
        (of_series cascade) result }
    ensures plain { IsPlain result }
{
    match task {
        Task::Decide(
            RootQuestion {
                schur_cohn: true,
                ..
            },
        ) => tables_answer(alloc, cascade),
        Task::Decide(
            RootQuestion {
                schur_cohn: false,
                ..
            },
        ) => stability_answer(&cascade),
        Task::Search(question, budget) => {
            run_answer(alloc, &cascade, RunTask::Search(question, budget))
        }
        Task::MeasureGain => run_answer(alloc, &cascade, RunTask::MeasureGain),
        Task::Simulate(inputs, outputs) => {
            run_answer(
                alloc,
                &cascade,
                RunTask::Simulate(inputs.as_slice(), *outputs),
            )
        }
        Task::RunFile(_, outputs) => match evidence {
            Evidence::Inputs(inputs) => {
                run_answer(
                    alloc,
                    &cascade,
                    RunTask::Simulate(inputs.as_slice(), *outputs),
                )
            }
            _ => unreachable!(),
        },
        _ => unreachable!(),
    }
}
