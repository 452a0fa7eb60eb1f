// The words of a line.
ghost use Rattle.std.specs.Prelude.{◌≡◌, ◌≤◌, IfOk, length};
ghost use Rattle.dsv_lines.specs.Pieces.{pieces_of};
ghost use Rattle.dsv_state_file.specs.Limits.{most_states};
ghost use Rattle.dsv_state_file.specs.Reading.{words_after, or_number, is_width};
ghost use Rattle.dsv_state_file.specs.Reading.{version_in, format_in, states_in};

use crate::limits::{
    GREATEST_FRAC_BITS, GREATEST_INT_BITS, GREATEST_WIDTH, LEAST_WIDTH, MOST_STATES,
};
use crate::refusal::StateRefusal;
use dsv_lines::{Line, Pieces, numeral_of, positive_of, spaces_in};

/// How many bits stand before the point and after it.
#[derive(Clone, Copy)]
pub(crate) struct Format {
    pub(crate) int_bits: u32,
    pub(crate) frac_bits: u32,
}

/// The words after the first, where the line is this word and so many more.
pub(crate) fn words_after<'a>(
    line: Line<'a>,
    word: &[u8],
    count: usize,
) -> Result<Pieces<'a>, StateRefusal>
    ensures { result
        ≡ words_after word.now count line.entry.number (pieces_of line.entry.text.now) }
{
    let mut pieces = Pieces::new(line.text);
    match pieces.next_piece() {
        Some(first) if first == word && spaces_in(line.text) == count => Ok(pieces),
        _ => Err(StateRefusal::Line { line: line.number }),
    }
}

/// The number, or the fault that none stands at the place.
pub(crate) fn or_number<T>(line: u64, place: u32, number: Option<T>) -> Result<T, StateRefusal>
    ensures { result ≡ or_number line place number }
{
    match number {
        Some(number) => Ok(number),
        None => Err(StateRefusal::Number { line, place }),
    }
}

/// Reads the first line.
pub(crate) fn read_version(line: Line) -> Result<u128, StateRefusal>
    ensures { result ≡ version_in line.entry.number (pieces_of line.entry.text.now) }
{
    let mut words = words_after(line, b"dsv-state-space", 1)?;
    or_number(line.number, 0, positive_of(1, words.next_or_empty()))
}

fn is_width(bits: u32) -> bool
    ensures { result ≡ is_width bits }
{
    bits >= LEAST_WIDTH && bits <= GREATEST_WIDTH
}

/// Reads the line of the words' format.
pub(crate) fn read_format(line: Line) -> Result<Format, StateRefusal>
    ensures { result ≡ format_in line.entry.number (pieces_of line.entry.text.now) }
{
    let mut words = words_after(line, b"format", 2)?;
    let int_bits = positive_of(GREATEST_INT_BITS, words.next_or_empty());
    let int_bits = or_number(line.number, 0, int_bits)? as u32;
    let frac_bits = numeral_of(GREATEST_FRAC_BITS, words.next_or_empty());
    let frac_bits = or_number(line.number, 1, frac_bits)? as u32;
    if is_width(int_bits + frac_bits) {
        Ok(Format {
            int_bits,
            frac_bits,
        })
    } else {
        Err(StateRefusal::Width { line: line.number })
    }
}

/// Reads the line of how many states there are.
pub(crate) fn read_states(line: Line) -> Result<u32, StateRefusal>
    ensures { result ≡ states_in line.entry.number (pieces_of line.entry.text.now) }
{
    let mut words = words_after(line, b"states", 1)?;
    let states = positive_of(MOST_STATES as u128, words.next_or_empty());
    Ok(or_number(line.number, 0, states)? as u32)
}
