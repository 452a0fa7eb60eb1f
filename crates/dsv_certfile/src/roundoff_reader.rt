// The lines of an offer that shows how far outputs are from those of exact runs.
ghost use Rattle.std.specs.Prelude.{◌≡◌, []};
ghost use Rattle.dsv_lines.specs.Readings.{Reads};
ghost use Rattle.dsv_certfile.specs.Answers.{ReadsText};
ghost use Rattle.dsv_certfile.specs.Bodies.{line_in, lines_from, range_in, roundoff_in};

use crate::fault::{CertRefusal, TextFault, TextRefusal, at_line};
use crate::keyword::Keyword;
use crate::lines::{next_line, next_numbers};
use crate::numbers::NumberRange;
use crate::places::{Place, read_numbers};
use dsv_base::Items;
use dsv_lines::{Lines, Pieces};
use dsv_roundoff::{RoundoffOffer, WordRange};
use std::alloc::Global;

/// The range of a line.
fn range_of(line: &[u8]) -> Result<WordRange, TextFault>
    ensures { result ≡ range_in line.now }
{
    let word = Place::Word(Keyword::Box);
    let end = Place::Number(NumberRange::Entry);
    let numbers = read_numbers(&[word, end, end], Pieces::new(line))?;
    Ok(WordRange {
        low: numbers.entry_at(0),
        high: numbers.entry_at(1),
    })
}

/// Reads the next line, which is a range.
fn read_range(lines: &mut Lines) -> Result<WordRange, TextRefusal>
    ensures { Reads result lines.new (line_in range_in lines.old) }
{
    let line = next_line(lines)?;
    at_line(line.number, range_of(line.text))
}

/// Reads so many ranges, a line each.
fn read_ranges(
    alloc: Global,
    lines: &mut Lines,
    count: u32,
) -> Result<Items<WordRange>, CertRefusal>
    ensures { ReadsText result lines.new (lines_from range_in count [] lines.old) }
{
    let mut ranges = Items::new(alloc);
    let mut left = count;
    while left > 0 {
        ranges.push(read_range(lines)?)?;
        left -= 1;
    }
    Ok(ranges)
}

/// Reads an offer of this depth with so many ranges, and the last line.
pub(crate) fn read_roundoff(
    alloc: Global,
    lines: &mut Lines,
    depth: u32,
    count: u32,
) -> Result<RoundoffOffer, CertRefusal>
    ensures { ReadsText result lines.new (roundoff_in depth count lines.old) }
{
    let ranges = read_ranges(alloc, lines, count)?;
    let _ = next_numbers(lines, &[Place::Word(Keyword::End)])?;
    Ok(RoundoffOffer { depth, ranges })
}
