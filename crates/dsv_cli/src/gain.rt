// Answers whether a subject ever overflows, by the gain, and of a controller how far its outputs
// are from those of exact runs.
ghost use Rattle.std.specs.Prelude.{◌≡◌, IfOk};
ghost use Rattle.dsv_cli.specs.Causes.{IsOfLeft, IsPlain};
ghost use Rattle.dsv_cli.specs.Gain.{IsErrorOf, IsNotSought, IsOfGain, most_gain_samples};
ghost use Rattle.dsv_gain.specs.Subjects.{HoldsAlways, outlook_of};
ghost use Rattle.dsv_network.specs.declared.outlook.Outlook.TheVariants as outlook;
ghost use Rattle.dsv_realise.specs.Controllers.{of_controller};

use dsv_base::NoMemory;
use dsv_certfile::MOST_GAIN_DEPTH;
use dsv_gain::{Gain, Outlook, driven, gain, rounding_error};
use dsv_quantiser::Quantised;
use dsv_realise::{Asking, Subject};
use dsv_report::{Answer, OutputError, Stop};
use std::alloc::Global;

/// The most samples that are looked at.
const MOST_SAMPLES: u32 = MOST_GAIN_DEPTH + 1;

/// The answer where the range of the exact value of this number, in this sample, isn't known to be
/// one of words: the first list of inputs that overflows, of those that are tried.
fn left_answer<S: Subject>(
    alloc: Global,
    asking: &Asking<S>,
    sample: u32,
    value: usize,
) -> Result<Answer, Stop>
    requires { outlook_of (S.view asking.now.subject.now) most_gain_samples
        ≡ outlook.Leaves sample value }
    ensures gain { IsOfLeft (S.view asking.now.subject.now) result }
    ensures plain { IsPlain result }
{
    match driven(alloc, asking, sample)? {
        Some(trace) => Ok(Answer::Overflow(trace)),
        None => Ok(Answer::OutOfRange { sample, value }),
    }
}

/// Whether any list of inputs, of any length, overflows.
pub(crate) fn gain_answer<S: Subject>(alloc: Global, asking: &Asking<S>) -> Result<Answer, Stop>
    ensures gain { IsOfGain IsNotSought (S.view asking.now.subject.now) result }
    ensures plain { IsPlain result }
{
    match gain(alloc, asking, MOST_SAMPLES)? {
        Outlook::Safe(gain) => Ok(Answer::InRanges {
            gain,
            error: OutputError::NotSought,
        }),
        Outlook::Leaves { sample, value } => left_answer(alloc, asking, sample, value),
        Outlook::Deep => Ok(Answer::TooDeep {
            depth: MOST_SAMPLES,
        }),
    }
}

/// How far a controller's outputs are from those of exact runs, where a bound is found.
fn outputs_error(
    alloc: Global,
    asking: &Asking<Quantised>,
    gain: &Gain,
) -> Result<OutputError, NoMemory>
    requires { HoldsAlways (of_controller asking.now.subject.now) gain.now.ranges }
    ensures { IfOk result (IsErrorOf asking.now.subject.now) }
{
    let _order = asking.subject.order(); // its range, for the proof
    match rounding_error(alloc, asking, MOST_SAMPLES)? {
        Some(bound) => Ok(OutputError::Within(bound)),
        None => Ok(OutputError::Open),
    }
}

/// Whether any list of inputs, of any length, overflows a controller, and how far its outputs are
/// from those of exact runs.
pub(crate) fn controller_gain_answer(alloc: Global, quantised: &Quantised) -> Result<Answer, Stop>
    ensures gain { IsOfGain (IsErrorOf quantised.now) (of_controller quantised.now) result }
    ensures plain { IsPlain result }
{
    let asking = Asking::of(alloc, quantised)?;
    match gain(alloc, &asking, MOST_SAMPLES)? {
        Outlook::Safe(gain) => {
            let error = outputs_error(alloc, &asking, &gain)?;
            Ok(Answer::InRanges { gain, error })
        }
        Outlook::Leaves { sample, value } => left_answer(alloc, &asking, sample, value),
        Outlook::Deep => Ok(Answer::TooDeep {
            depth: MOST_SAMPLES,
        }),
    }
}
