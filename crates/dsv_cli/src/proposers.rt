// The proposers that a run may ask, and the command with those that are built in.
ghost use Rattle.std.specs.Prelude.{◌≡◌, [], ◌∷◌, Some, map, string_bytes};
ghost use Rattle.dsv_invariant.specs.Shapes.{shape_of};
ghost use Rattle.dsv_template.specs.declared.shape.Shape.{Shape};
ghost use Rattle.dsv_template.specs.Boxes.{boxes};
ghost use Rattle.dsv_cli.specs.Proposers.{IfNoInvariant};
ghost use Rattle.dsv_cli.specs.Runs.{IsDone};
ghost use Rattle.dsv_cli.specs.Sets.{AreOfJob};

use crate::command::{Done, put_refusal, run};
use dsv_base::{Files, Sink};
use dsv_lyapunov::{FormProposer, SumProposer};
use dsv_report::Stop;
use dsv_template::{BoxProposer, InvariantProposer};
use std::alloc::Global;

/// The proposers that a run may ask, each list in the order in which it is asked.
#[derive(Drop)]
pub struct Proposers {
    /// Those of sets that a controller never leaves.
    pub sets: Vec<Box<dyn InvariantProposer>>,
    /// Those of forms that decide a polynomial.
    pub forms: Vec<Box<dyn FormProposer>>,
}

/// Runs the command with this proposer of sets, which tells all boxes, and the proposer of forms
/// that is built in.
fn run_with<F: Files, K: Sink>(
    alloc: Global,
    arguments: &[String],
    files: &mut F,
    sink: &mut K,
    first: Box<dyn InvariantProposer>,
) -> Done
    requires boxes { (shape : Shape)
        → (⟦<dyn InvariantProposer as InvariantProposer>⟧ first.vtable).to_come first.value shape
        ≡ Some (boxes shape) }
    // No set: each of the first 32 boxes was judged, and one that is good has a search that gave
    // up.
    ensures run { IsDone (F.seen files.old) (F.seen files.new) (K.seen sink.old) (K.seen sink.new)
        (map string_bytes arguments.now) result (λ becomes. IfNoInvariant result.outcome
        (AreOfJob becomes (λ q. Some (boxes (shape_of q)) ∷ []))) }
{
    let Ok(second) = Box::new(alloc, SumProposer::new()) else {
        return put_refusal(alloc, sink, Stop::NoMemory);
    };
    let mut sets: Vec<Box<dyn InvariantProposer>> = Vec::new(alloc);
    let mut forms: Vec<Box<dyn FormProposer>> = Vec::new(alloc);
    if sets.push(first).is_err() || forms.push(second).is_err() {
        return put_refusal(alloc, sink, Stop::NoMemory);
    }
    let mut proposers = Proposers { sets, forms };
    run(alloc, arguments, files, sink, &mut proposers)
}

/// Runs the command ([`run`]) with the proposers that are built in: of sets [`BoxProposer`], and of
/// forms [`SumProposer`].
pub fn run_with_built_in<F: Files, K: Sink>(
    alloc: Global,
    arguments: &[String],
    files: &mut F,
    sink: &mut K,
) -> Done
    // No set: each of the first 32 boxes was judged, and one that is good has a search that gave
    // up.
    ensures run { IsDone (F.seen files.old) (F.seen files.new) (K.seen sink.old) (K.seen sink.new)
        (map string_bytes arguments.now) result (λ becomes. IfNoInvariant result.outcome
        (AreOfJob becomes (λ q. Some (boxes (shape_of q)) ∷ []))) }
{
    let Ok(first) = Box::new(alloc, BoxProposer::new()) else {
        return put_refusal(alloc, sink, Stop::NoMemory);
    };
    run_with(alloc, arguments, files, sink, first)
}
