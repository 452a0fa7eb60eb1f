// What each request comes to.
ghost use Rattle.std.specs.Prelude.{◌≡◌, Some, IfOk};
ghost use Rattle.dsv_certfile.specs.Lawful.{IsWords};
ghost use Rattle.dsv_command.specs.Requests.{IsInTable};
ghost use Rattle.dsv_command.specs.Views.{request_view};
ghost use Rattle.dsv_report.specs.Printing.{HasPlaces};
ghost use Rattle.dsv_cli.specs.Causes.{IsPlain};
ghost use Rattle.dsv_cli.specs.Causes.{IsOfGeneration};
ghost use Rattle.dsv_base.specs.Seen.{AreKept};
ghost use Rattle.dsv_cli.specs.Proposers.{IsAsked, AreSetsAsked};
ghost use Rattle.dsv_cli.specs.Stages.{IsSaidBeside};
ghost use Rattle.dsv_cli.specs.Proposers.{Wants, Decides, AsksSchurCohn, Seeks};

use crate::check::{Passed, check_outcome};
use crate::jobs::{Found, job_outcome};
use crate::proposers::Proposers;
use dsv_base::{Bytes, Files};
use dsv_command::{Generation, Request};
use dsv_generator::generate;
use dsv_lyapunov::FormProposer;
use dsv_report::{Answer, Stop};
use dsv_template::InvariantProposer;
use std::alloc::Global;

/// What is found of so many controllers of a seed.
fn generation_answer(alloc: Global, asked: Generation) -> Result<Answer, Stop>
    ensures found { IsOfGeneration asked.seed asked.count result }
    ensures plain { IsPlain result }
{
    Ok(Answer::Generated(generate(alloc, asked.seed, asked.count)?))
}

/// What a request comes to.
pub(crate) fn request_outcome<F: Files>(
    alloc: Global,
    request: &Request,
    files: &mut F,
    proposers: &mut Proposers,
) -> Found
    requires { IsInTable (request_view request.now) }
    ensures row { IsSaidBeside (F.seen files.old) (F.seen files.new)
        (Some (request_view request.now)) result.outcome result.states result.words
        result.lines (λ becomes. AreSetsAsked (λ b. b.ptr)
        (λ b. (⟦<dyn InvariantProposer as InvariantProposer>⟧ b.vtable).last b.value)
        (λ b shape. (⟦<dyn InvariantProposer as InvariantProposer>⟧ b.vtable).to_come b.value shape)
        becomes proposers.old.sets.items proposers.new.sets.items result.outcome) }
    ensures kept { AreKept (F.seen files.old) (F.seen files.new) }
    ensures places { IfOk result.outcome HasPlaces }
    ensures lawful { IsWords result.words }
    ensures forms { IsAsked (λ b. b.ptr)
        (λ b. (⟦<dyn FormProposer as FormProposer>⟧ b.vtable).last b.value)
        (λ b cs. sure b cs)
        (λ b cs. (⟦<dyn FormProposer as FormProposer>⟧ b.vtable).to_come b.value cs)
        (Wants AsksSchurCohn (Some (request_view request.now)))
        proposers.old.forms.items proposers.new.forms.items result.outcome }
    ensures unneeded_sets { (Wants Seeks (Some (request_view request.now)) → ⊥)
        → proposers.new.sets.items ≡ proposers.old.sets.items }
    ensures unneeded_forms { (Wants Decides (Some (request_view request.now)) → ⊥)
        → proposers.new.forms.items ≡ proposers.old.forms.items }
{
    match request {
        Request::Do(job) => job_outcome(alloc, job, files, proposers),
        Request::Check {
            files: named,
            certificate,
            worded,
        } => match check_outcome(alloc, named, certificate, *worded, files) {
            Ok(Passed { answer, lines }) => Found::unsaid(Ok(answer), lines),
            Err(stop) => Found::unsaid(Err(stop), Bytes::new(alloc)),
        },
        Request::Generate(asked) => {
            Found::unsaid(generation_answer(alloc, *asked), Bytes::new(alloc))
        }
    }
}
