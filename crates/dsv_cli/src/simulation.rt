// Answers simulations of a subject.
#![tactic(auto, using(dsv_algebra::proofs::Casts::casts))]

ghost use Rattle.std.specs.Prelude.{◌≡◌, ◌≤◌, ℕ, ℤ, length, IfSome, IfNone, MatchOption};
ghost use Rattle.dsv_report.specs.declared.stop.Stop.TheVariants as stop;
ghost use Rattle.std.specs.List.{All};
ghost use Rattle.dsv_word.specs.Words.{IsWord};
ghost use Rattle.dsv_cli.specs.Causes.{IsPlain};
ghost use Rattle.dsv_cli.specs.Simulating.{IsOfRun};
ghost use Rattle.dsv_word.specs.Words.{IsFirstOutside};

use dsv_realise::{Asking, Subject};
use dsv_report::{Answer, Stop};
use dsv_word::Format;
use std::alloc::Global;

/// An input, and its number among the inputs.
struct Numbered {
    index: u32,
    value: i64,
}

/// The first input that is no word of the format.
fn find_outside(format: &Format, inputs: &[i64]) -> Option<Numbered>
    requires { length inputs.now ≤ 65536 }
    ensures { MatchOption result (All (IsWord format.now) inputs.now)
        (λ found. IsFirstOutside format.now inputs.now found.index found.value) }
{
    for (i, input) in inputs.iter().enumerate() {
        if !format.fits(i128::from(*input)) {
            return Some(Numbered {
                index: i as u32,
                value: *input,
            });
        }
    }
    None
}

/// Why there is no answer where an input is no word of the format.
pub(crate) fn outside_stop(format: &Format, inputs: &[i64]) -> Option<Stop>
    requires { length inputs.now ≤ 65536 }
    ensures none { IfNone result (All (IsWord format.now) inputs.now) }
    ensures first { IfSome result (λ why. (index : ℕ) × (value : ℤ)
        × (why ≡ stop.InputRange index value)
        × IsFirstOutside format.now inputs.now index value) }
{
    let Numbered { index, value } = find_outside(format, inputs)?;
    Some(Stop::InputRange {
        index,
        value: i128::from(value),
    })
}

/// The answer to a simulation over these inputs, of which the outputs alone are written if the flag
/// is set.
pub(crate) fn simulation_answer<S: Subject>(
    alloc: Global,
    asking: &Asking<S>,
    inputs: &[i64],
    outputs: bool,
) -> Result<Answer, Stop>
    requires { length inputs.now ≤ 65536 }
    ensures run { IsOfRun (S.view asking.now.subject.now) inputs.now outputs result }
    ensures plain { IsPlain result }
{
    if let Some(stop) = outside_stop(&asking.net.format(), inputs) {
        return Err(stop);
    }
    let rows = asking.rows(alloc, inputs)?;
    if outputs {
        Ok(Answer::Outputs(rows))
    } else {
        Ok(Answer::Simulated(rows))
    }
}
