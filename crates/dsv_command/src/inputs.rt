// The inputs of a simulation.
ghost use Rattle.std.specs.Prelude.{◌≡◌, ◌<◌, ◌^◌, option_map};
ghost use Rattle.dsv_fraction.specs.Arithmetic.{with_sign};
ghost use Rattle.dsv_command.specs.Inputs.{input_of, inputs_of};

use arrayvec::ArrayVec;
use dsv_text::{has_byte, short_number};

/// The most inputs of a simulation.
pub const MOST_INPUTS: usize = 64;

/// The most digits of an input.
const MOST_DIGITS: usize = 15;

/// The inputs of a simulation, from the first sample on: words of the controller's format, or
/// numbers that are none.
pub type Inputs = ArrayVec<i64, MOST_INPUTS>;

/// The number of this size, negative or not.
fn with_sign(negative: bool, size: u64) -> i64
    requires { size < 2 ^ 62 }
    ensures { result ≡ with_sign negative size }
{
    let value = size as i64;
    if negative { -value } else { value }
}

/// The number of an optional `-` before 1 to 15 digits; `None` for any other text.
#[tactic(auto, using(dsv_text::proofs::DigitLemmas::short_below_power))]
pub fn find_input(text: &[u8]) -> Option<i64>
    ensures { result ≡ input_of text.now }
{
    let negative = has_byte(b'-', text);
    let size = short_number(MOST_DIGITS, &text[usize::from(negative)..])?;
    Some(with_sign(negative, size))
}

/// The inputs of 1 to 64 numbers joined by commas; `None` for any other text.
pub fn find_inputs(text: &str) -> Option<Inputs>
    ensures { option_map (λ inputs. inputs.items) result ≡ inputs_of text.now }
{
    let mut inputs = Inputs::new();
    let mut rest = text;
    while let Some((first, others)) = rest.split_once(',') {
        inputs.try_push(find_input(first.as_bytes())?).ok()?;
        rest = others;
    }
    inputs.try_push(find_input(rest.as_bytes())?).ok()?;
    Some(inputs)
}
