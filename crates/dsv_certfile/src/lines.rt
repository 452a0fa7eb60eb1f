// The lines of a certificate.
ghost use Rattle.std.specs.Prelude.{◌≡◌, ◌≤◌, length, IfOk};
ghost use Rattle.dsv_certfile.specs.Bodies.{numbers_in, whole_text};
ghost use Rattle.dsv_lines.specs.Readings.{Reads};
ghost use Rattle.dsv_certfile.specs.NextLine.{IsNext};
ghost use Rattle.dsv_certfile.specs.Ranges.{AreOf};
ghost use Rattle.dsv_certfile.specs.declared.limits.TheConstants.{MOST_PLACES};

use crate::fault::{TextFault, TextRefusal, at_line};
use crate::places::{Numbers, Place, read_numbers};
use dsv_lines::{Line, Lines, Pieces};

/// Takes the next line; where there is none, nothing is taken.
pub(crate) fn next_line<'a>(lines: &mut Lines<'a>) -> Result<Line<'a>, TextRefusal>
    ensures { IsNext lines.old result lines.new }
{
    match lines.next_line() {
        Some(line) => Ok(line),
        None => Err(TextRefusal {
            line: lines.number(),
            fault: TextFault::End,
        }),
    }
}

/// Takes the next line, and reads its numbers at these places.
pub(crate) fn next_numbers(lines: &mut Lines, places: &[Place]) -> Result<Numbers, TextRefusal>
    requires { length places.now ≤ MOST_PLACES }
    ensures answer { Reads result lines.new (numbers_in places.now lines.old) }
    ensures ranges { IfOk result (λ numbers. AreOf places.now numbers) }
{
    let line = next_line(lines)?;
    at_line(line.number, read_numbers(places, Pieces::new(line.text)))
}

/// Refuses a text with bytes left.
pub(crate) fn end(lines: &Lines) -> Result<(), TextRefusal>
    ensures { result ≡ whole_text tt lines.now.number lines.now.lines }
{
    if lines.is_ended() {
        Ok(())
    } else {
        Err(TextRefusal {
            line: lines.number(),
            fault: TextFault::End,
        })
    }
}
