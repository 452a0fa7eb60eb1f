// State files made words.
ghost use Rattle.std.specs.Prelude.{◌≡◌, ◌≤◌, length, map, MatchResult, Ok, Err, IfOk};
ghost use Rattle.std.specs.List.{All};
ghost use Rattle.dsv_quantiser.specs.Meaning.{IsWordOf, IsRangeOf};
ghost use Rattle.dsv_state_space.specs.Meaning.{AreWordsOf, AreRowsOf, IsInStateWords};
ghost use Rattle.dsv_state_space.specs.Quantising.{lane_words, rows_words, direct_word, inputs_of};
ghost use Rattle.dsv_state_space.specs.Quantising.{BecomesStates};
ghost use Rattle.dsv_state_space.specs.StateView.{most_states};

use crate::lane::Lane;
use crate::refusal::StateQuantRefusal;
use crate::system::{StateSystem, WordRow, WordRows};
use dsv_fraction::{Frac, FracList};
use dsv_names::{OverflowMode, Rounding};
use dsv_quantiser::{InputRange, b_words, range_of};
use dsv_state_file::StateFile;
use dsv_word::Format;
use std::slice;

/// The words of a lane's numbers.
pub(crate) fn lane_words(
    format: Format,
    lane: Lane,
    numbers: &[Frac],
) -> Result<WordRow, StateQuantRefusal>
    requires { length numbers.now ≤ most_states }
    ensures value { result ≡ lane_words format lane numbers.now }
    ensures meaning { IfOk result (AreWordsOf format numbers.now) }
{
    match b_words(format, numbers) {
        Ok(words) => Ok(WordRow::new(words)),
        Err(why) => Err(lane.refusal(why)),
    }
}

/// The words of the rows of a matrix.
pub(crate) fn rows_words(format: Format, rows: &[FracList]) -> Result<WordRows, StateQuantRefusal>
    requires many { length rows.now ≤ most_states }
    requires short { All (λ row. length row.items ≤ most_states) rows.now }
    ensures value { let meant = rows_words format 0 (map (λ row. row.items) rows.now) in
        MatchResult result (λ words. meant ≡ Ok words.items) (λ why. meant ≡ Err why) }
    ensures meaning { IfOk result
        (λ words. AreRowsOf format (map (λ row. row.items) rows.now) words.items) }
{
    let mut words = WordRows::new();
    for i in 0..rows.len() {
        words.push(lane_words(format, Lane::Row(i as u32), rows[i].as_slice())?);
    }
    Ok(words)
}

/// The word of the number that the input is multiplied by in the output.
pub(crate) fn direct_word(format: Format, d: &Frac) -> Result<i64, StateQuantRefusal>
    ensures value { result ≡ direct_word format d.now }
    ensures meaning { IfOk result (IsWordOf format d.now) }
{
    let words = lane_words(format, Lane::Direct, slice::from_ref(d))?;
    Ok(words.as_slice()[0])
}

/// The words that are inputs.
pub(crate) fn inputs_of(
    format: Format,
    min: &Frac,
    max: &Frac,
) -> Result<InputRange, StateQuantRefusal>
    ensures value { result ≡ inputs_of format min.now max.now }
    ensures meaning { IfOk result (IsRangeOf format min.now max.now) }
{
    match range_of(format, min, max) {
        Ok(range) => Ok(range),
        Err(why) => Err(Lane::Range.refusal(why)),
    }
}

/// The format of a state file's own widths in these modes.
fn format_of(file: &StateFile, rounding: Rounding, overflow: OverflowMode) -> Format
    ensures int_bits { result.int_bits ≡ file.now.int_bits }
    ensures frac_bits { result.frac_bits ≡ file.now.frac_bits }
    ensures rounding { result.rounding ≡ rounding }
    ensures overflow { result.overflow ≡ overflow }
{
    match Format::new(file.int_bits(), file.frac_bits(), rounding, overflow) {
        Ok(format) => format,
        Err(_) => unreachable!(),
    }
}

/// The controller of a state file in words of its own widths, rounded and fitted in these modes. It
/// takes no memory.
///
/// # Errors
///
/// The first number that has no word: of A row by row, of b, of c and d, `FractionWide` and else
/// `CoefficientRange`; then `FractionWide` of the least input, else of the greatest; then
/// `RangeEmpty`.
pub fn quantise_state(
    file: &StateFile,
    rounding: Rounding,
    overflow: OverflowMode,
) -> Result<StateSystem, StateQuantRefusal>
    ensures becomes { BecomesStates file.now rounding overflow result }
    ensures meaning { IfOk result (λ system. IsInStateWords file.now system.format system) }
{
    StateSystem::in_words(file, format_of(file, rounding, overflow))
}
