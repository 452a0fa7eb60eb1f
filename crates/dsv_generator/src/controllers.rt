// Generated controllers.
ghost use Rattle.std.specs.Prelude.{◌≡◌, ◌∷◌, []};
ghost use Rattle.dsv_fraction.specs.Ratio.{one, zero as nought};
ghost use Rattle.dsv_generator.specs.Controllers.{controller_with, Becomes};
ghost use Rattle.dsv_generator.specs.Controllers.{IsGeneratedFormat};
ghost use Rattle.dsv_generator.specs.Controllers.{number_with};
ghost use Rattle.dsv_generator.specs.Draws.{next_state, word_of};
ghost use Rattle.dsv_generator.specs.Small.{IsSmall};

use crate::draws::{next_state, word_of};
use dsv_fraction::{Frac, FracList};
use dsv_names::{OverflowMode, Realisation, Rounding};
use dsv_quantiser::{Quantised, quantise};
use dsv_reader::Controller;
use dsv_word::Format;

/// Two to the bits after the point of a generated controller's words.
const UNIT: i128 = 16;

/// The format of the words of generated controllers.
fn generated_format() -> Format
    ensures { IsGeneratedFormat result }
{
    match Format::new(3, 4, Rounding::Floor, OverflowMode::Wrap) {
        Ok(format) => format,
        Err(_) => unreachable!(),
    }
}

/// The number that the word of a state stands for.
#[tactic(auto, using(crate::proofs::Words::number_is_bounded))]
fn number_of(state: u32) -> Frac
    ensures { result ≡ number_with (word_of state) }
{
    match Frac::new(i128::from(word_of(state)), UNIT) {
        Ok(number) => number,
        Err(_) => unreachable!(),
    }
}

/// The numerator of the words of two states.
fn numerator(first: u32, second: u32) -> FracList
    ensures { result.items ≡ number_with (word_of first) ∷ number_with (word_of second)
        ∷ nought ∷ [] }
{
    let mut list = FracList::new();
    list.push(number_of(first));
    list.push(number_of(second));
    list.push(Frac::default());
    list
}

/// The denominator of the words of two states.
fn denominator(first: u32, second: u32) -> FracList
    ensures { result.items ≡ one ∷ number_with (word_of first) ∷ number_with (word_of second)
        ∷ [] }
{
    let mut list = FracList::new();
    list.push(Frac::from(1));
    list.push(number_of(first));
    list.push(number_of(second));
    list
}

/// The four states after one, of which each gives a word of a controller.
#[derive(Clone, Copy)]
pub(crate) struct States {
    /// For a_1.
    first: u32,
    /// For a_2.
    second: u32,
    /// For b_0.
    third: u32,
    /// For b_1.
    pub(crate) fourth: u32,
}

/// The four states after one.
pub(crate) fn states_after(state: u32) -> States
    ensures first { result.first ≡ next_state state }
    ensures second { result.second ≡ next_state result.first }
    ensures third { result.third ≡ next_state result.second }
    ensures fourth { result.fourth ≡ next_state result.third }
{
    let first = next_state(state);
    let second = next_state(first);
    let third = next_state(second);
    let fourth = next_state(third);
    States {
        first,
        second,
        third,
        fourth,
    }
}

/// The controller of the words of four states.
fn controller_of(states: States, format: Format) -> Controller
    ensures { result ≡ controller_with (word_of states.first) (word_of states.second)
        (word_of states.third) (word_of states.fourth) format }
{
    Controller::of_coefficients(
        numerator(states.third, states.fourth),
        denominator(states.first, states.second),
        format,
        Frac::from(-1),
        Frac::from(1),
    )
}

/// The quantised controller of the words of four states, in direct form I.
pub(crate) fn quantised_from(states: States) -> Quantised
    ensures becomes { Becomes (controller_with (word_of states.first) (word_of states.second)
        (word_of states.third) (word_of states.fourth)) result }
    ensures small { IsSmall result }
{
    let format = generated_format();
    let controller = controller_of(states, format);
    match quantise(&controller, format, Realisation::Dfi) {
        Ok(quantised) => quantised,
        Err(_) => unreachable!(),
    }
}
