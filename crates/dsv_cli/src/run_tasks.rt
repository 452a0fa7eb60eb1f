// The answer to a question about a subject's runs: its netlist is made once.
ghost use Rattle.dsv_cli.specs.Causes.{IsPlain};
ghost use Rattle.dsv_cli.specs.RunTasks.{IsOfRunTask, IsAskable};

use crate::gain::gain_answer;
use crate::questions::search_answer;
use crate::run_task::RunTask;
use crate::simulation::simulation_answer;
use dsv_realise::{Asking, Subject};
use dsv_report::{Answer, Stop};
use std::alloc::Global;

/// What a question about its runs comes to for a subject.
pub(crate) fn run_answer<S: Subject>(
    alloc: Global,
    subject: &S,
    task: RunTask,
) -> Result<Answer, Stop>
    requires { IsAskable task }
    ensures task { IsOfRunTask task.entry (S.view subject.now) result }
    ensures plain { IsPlain result }
{
    let asking = Asking::of(alloc, subject)?;
    match task {
        RunTask::Search(question, budget) => search_answer(alloc, &asking, question, budget),
        RunTask::MeasureGain => gain_answer(alloc, &asking),
        RunTask::Simulate(inputs, outputs) => simulation_answer(alloc, &asking, inputs, outputs),
    }
}
