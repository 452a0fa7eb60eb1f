// The lines of the coefficients of a polynomial.
ghost use Rattle.std.specs.Prelude.{◌≡◌, [], ◌∷◌, drop};
ghost use Rattle.dsv_lines.specs.Pieces.{pieces_of};
ghost use Rattle.dsv_certfile.specs.Answers.{GivesText, LineGives, ReadsText, at_line};
ghost use Rattle.dsv_certfile.specs.Bodies.{number_after, wanted, coefficient_of, coefficient_in};
ghost use Rattle.dsv_certfile.specs.Bodies.{line_in, lines_from, table_in};

use crate::fault::{CertRefusal, LineRefusal, TextFault};
use crate::keyword::Keyword;
use crate::lines::{next_line, next_numbers};
use crate::pieces::end;
use crate::places::Place;
use dsv_base::Items;
use dsv_integer::Numeral;
use dsv_lines::{Line, Lines, Pieces};
use std::alloc::Global;

/// The number of a piece.
fn number_of(alloc: Global, piece: &[u8]) -> Result<Numeral, LineRefusal>
    ensures { LineGives result (number_after (piece.now ∷ [])) }
{
    match Numeral::read(piece, alloc)? {
        Some(number) => Ok(number),
        None => Err(LineRefusal::Fault(TextFault::Number)),
    }
}

/// Reads the number of the next piece.
fn read_number(alloc: Global, pieces: &mut Pieces) -> Result<Numeral, LineRefusal>
    ensures answer { LineGives result (number_after pieces.old) }
    ensures rest { pieces.new ≡ drop 1 pieces.old }
{
    match pieces.next_piece() {
        Some(piece) => number_of(alloc, piece),
        None => Err(LineRefusal::Fault(TextFault::Line)),
    }
}

/// Refuses another piece than this word.
fn expect_word(word: Keyword, piece: &[u8]) -> Result<(), TextFault>
    ensures { result ≡ wanted word piece.now }
{
    if piece == word.text() {
        Ok(())
    } else {
        Err(TextFault::Line)
    }
}

/// Reads the line of a coefficient.
fn coefficient_of(alloc: Global, line: &[u8]) -> Result<Numeral, LineRefusal>
    ensures { LineGives result (coefficient_in line.now) }
{
    let mut pieces = Pieces::new(line);
    let word = pieces.next_or_empty();
    let number = read_number(alloc, &mut pieces)?;
    expect_word(Keyword::Coefficient, word)?;
    end(&pieces)?;
    Ok(number)
}

/// Reads the coefficient of a line of a text.
fn read_coefficient_at(alloc: Global, line: Line) -> Result<Numeral, CertRefusal>
    ensures { GivesText result (at_line line.entry.number (coefficient_in line.entry.text.now)) }
{
    match coefficient_of(alloc, line.text) {
        Ok(number) => Ok(number),
        Err(refusal) => Err(refusal.at_line(line.number)),
    }
}

/// Reads the next line, which is a coefficient.
fn read_coefficient(alloc: Global, lines: &mut Lines) -> Result<Numeral, CertRefusal>
    ensures { ReadsText result lines.new (line_in coefficient_in lines.old) }
{
    let line = next_line(lines)?;
    read_coefficient_at(alloc, line)
}

/// Reads so many coefficients, a line each.
fn read_coefficients(
    alloc: Global,
    lines: &mut Lines,
    count: u32,
) -> Result<Items<Numeral>, CertRefusal>
    ensures { ReadsText result lines.new (lines_from coefficient_in count [] lines.old) }
{
    let mut coefficients = Items::new(alloc);
    let mut left = count;
    while left > 0 {
        coefficients.push(read_coefficient(alloc, lines)?)?;
        left -= 1;
    }
    Ok(coefficients)
}

/// Reads so many coefficients, and the last line.
pub(crate) fn read_table(
    alloc: Global,
    lines: &mut Lines,
    count: u32,
) -> Result<Items<Numeral>, CertRefusal>
    ensures { ReadsText result lines.new (table_in count lines.old) }
{
    let coefficients = read_coefficients(alloc, lines, count)?;
    let _ = next_numbers(lines, &[Place::Word(Keyword::End)])?;
    Ok(coefficients)
}
