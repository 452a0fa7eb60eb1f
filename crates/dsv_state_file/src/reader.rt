// Reading the file of a state-space controller.
ghost use Rattle.std.specs.Prelude.{◌≡◌, ◌≤◌, [], length, IfOk};
ghost use Rattle.dsv_fraction.specs.Ratio.{most_coefficients};
ghost use Rattle.dsv_lines.specs.NextLine.{IsNextOr};
ghost use Rattle.dsv_lines.specs.Pieces.{pieces_of};
ghost use Rattle.dsv_lines.specs.Readings.{Reads};
ghost use Rattle.dsv_state_file.specs.Limits.{most_states};
ghost use Rattle.dsv_state_file.specs.Heads.{IsHead};
ghost use Rattle.dsv_state_file.specs.Reading.{line_in, range_in, vector_in, rows_from, head_in};
ghost use Rattle.dsv_state_file.specs.Reading.{words_after, file_in, state_of};
ghost use Rattle.dsv_state_file.specs.StateFiles.{IsStateFile};
ghost use Rattle.dsv_state_file.specs.declared.refusal.StateRefusal.TheVariants as refusal;

use crate::refusal::StateRefusal;
use crate::state_file::StateFile;
use crate::vectors::{Grid, Vector, read_vector};
use crate::words::{Format, read_format, read_states, read_version, words_after};
use dsv_fraction::Frac;
use dsv_lines::{Line, Lines};

/// The range of the inputs.
#[derive(Clone, Copy)]
pub(crate) struct Range {
    pub(crate) min: Frac,
    pub(crate) max: Frac,
}

/// What the lines up to `states N` say.
#[derive(Clone, Copy)]
pub(crate) struct Head {
    format: Format,
    range: Range,
    states: u32,
}

/// Takes the next line; where there is none, nothing is taken.
fn next_line<'a>(lines: &mut Lines<'a>) -> Result<Line<'a>, StateRefusal>
    ensures { IsNextOr (λ n. refusal.Line n) lines.old result lines.new }
{
    match lines.next_line() {
        Some(line) => Ok(line),
        None => Err(StateRefusal::Line {
            line: lines.number(),
        }),
    }
}

/// Reads the line of the inputs' range.
fn read_range(line: Line) -> Result<Range, StateRefusal>
    ensures { result ≡ range_in line.entry.number (pieces_of line.entry.text.now) }
{
    let range = read_vector(line, b"range", 2)?;
    Ok(Range {
        min: range.at(0),
        max: range.at(1),
    })
}

/// Reads the lines up to `states N`.
fn read_head(lines: &mut Lines) -> Result<Head, StateRefusal>
    ensures answer { Reads result lines.new (head_in lines.old) }
    ensures lawful { IfOk result IsHead }
{
    let line = next_line(lines)?;
    read_version(line)?;
    let line = next_line(lines)?;
    let format = read_format(line)?;
    let line = next_line(lines)?;
    let range = read_range(line)?;
    let line = next_line(lines)?;
    let states = read_states(line)?;
    Ok(Head {
        format,
        range,
        states,
    })
}

/// Reads the next line, which is this word and so many decimals.
fn next_vector(lines: &mut Lines, word: &[u8], count: usize) -> Result<Vector, StateRefusal>
    requires { count ≤ most_coefficients }
    ensures answer { Reads result lines.new (line_in (vector_in word.now count) lines.old) }
    ensures many { IfOk result (λ xs. length xs ≡ count) }
{
    let line = next_line(lines)?;
    read_vector(line, word, count)
}

/// Reads the rows of a matrix of so many states.
fn read_rows(lines: &mut Lines, states: u32) -> Result<Grid, StateRefusal>
    requires { states ≤ most_states }
    ensures { Reads result lines.new (rows_from states states [] lines.old) }
{
    let mut grid = Grid::new();
    let mut left = states;
    while left > 0 {
        grid.push(next_vector(lines, b"a", states as usize)?);
        left -= 1;
    }
    Ok(grid)
}

/// Reads the lines after `states N`.
fn read_file(lines: &mut Lines, head: Head) -> Result<StateFile, StateRefusal>
    requires { IsHead head }
    ensures { Reads result lines.new (file_in head lines.old) }
{
    let count = head.states as usize;
    let a = read_rows(lines, head.states)?;
    let b = next_vector(lines, b"b", count)?;
    let c = next_vector(lines, b"c", count)?;
    let d = next_vector(lines, b"d", 1)?;
    let line = next_line(lines)?;
    words_after(line, b"end", 0)?;
    Ok(StateFile {
        states: head.states,
        a: a.held,
        b: b.held,
        c: c.held,
        d: d.at(0),
        int_bits: head.format.int_bits,
        frac_bits: head.format.frac_bits,
        min: head.range.min,
        max: head.range.max,
    })
}

/// Reads the text of a state-space controller's file, or answers its first fault. It takes no
/// memory, and time in proportion to the text.
pub fn read_state(bytes: &[u8]) -> Result<StateFile, StateRefusal>
    ensures exact { result ≡ state_of bytes.now }
    ensures lawful { IfOk result IsStateFile }
{
    let mut lines = Lines::new(bytes);
    let head = read_head(&mut lines)?;
    let file = read_file(&mut lines, head)?;
    if lines.is_ended() {
        Ok(file)
    } else {
        Err(StateRefusal::Line {
            line: lines.number(),
        })
    }
}
