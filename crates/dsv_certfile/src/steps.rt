// The lines of a log.
ghost use Rattle.std.specs.Prelude.{◌≡◌, drop};
ghost use Rattle.dsv_certfile.specs.Answers.{GivesText, LineGives, ReadsText, at_line};
ghost use Rattle.dsv_certfile.specs.Listing.{ListsUpTo};
ghost use Rattle.dsv_certfile.specs.Numerals.{id_of, literal_read};
ghost use Rattle.dsv_lines.specs.Pieces.{pieces_of};
ghost use Rattle.dsv_certfile.specs.Steps.{step_in, step_after, step_id, deletion_in, addition_in};
ghost use Rattle.dsv_certfile.specs.Steps.{log_in};

use crate::fault::{CertRefusal, LineRefusal, TextFault};
use crate::keyword::{Keyword, is_list_end};
use crate::lines::next_line;
use crate::numbers::{id_of, literal_of};
use crate::pieces::{end, says_deletion};
use dsv_cnf::Lit;
use dsv_hints::{HintList, LitList, Log, Step};
use dsv_lines::{Line, Lines, Pieces};
use std::alloc::Global;

/// Reads literals up to the 0 that ends them.
fn read_literals(alloc: Global, pieces: &mut Pieces) -> Result<Vec<Lit>, LineRefusal>
    ensures { ListsUpTo literal_read pieces.old result pieces.new }
{
    let mut literals = Vec::new(alloc);
    while let Some(piece) = pieces.next_piece() {
        if is_list_end(piece) {
            return Ok(literals);
        }
        let Some(literal) = literal_of(piece) else {
            return Err(LineRefusal::Fault(TextFault::Number));
        };
        literals.push(literal)?;
    }
    Err(LineRefusal::Fault(TextFault::Line))
}

/// Reads ids up to the 0 that ends them.
fn read_ids(alloc: Global, pieces: &mut Pieces) -> Result<Vec<u64>, LineRefusal>
    ensures { ListsUpTo id_of pieces.old result pieces.new }
{
    let mut ids = Vec::new(alloc);
    while let Some(piece) = pieces.next_piece() {
        if is_list_end(piece) {
            return Ok(ids);
        }
        let Some(id) = id_of(piece) else {
            return Err(LineRefusal::Fault(TextFault::Number));
        };
        ids.push(id)?;
    }
    Err(LineRefusal::Fault(TextFault::Line))
}

/// Reads a deletion after its id and its word.
fn read_deletion(alloc: Global, id: u64, mut pieces: Pieces) -> Result<Step, LineRefusal>
    ensures { LineGives result (deletion_in id pieces.entry) }
{
    let ids = read_ids(alloc, &mut pieces)?;
    end(&pieces)?;
    Ok(Step::Delete {
        id,
        ids: HintList::from_slice(alloc, ids.as_slice())?,
    })
}

/// Reads an added clause after its id.
fn read_addition(alloc: Global, id: u64, mut pieces: Pieces) -> Result<Step, LineRefusal>
    ensures { LineGives result (addition_in id pieces.entry) }
{
    let lits = read_literals(alloc, &mut pieces)?;
    let hints = read_ids(alloc, &mut pieces)?;
    end(&pieces)?;
    Ok(Step::Add {
        id,
        lits: LitList::from_slice(alloc, lits.as_slice())?,
        hints: HintList::from_slice(alloc, hints.as_slice())?,
    })
}

/// Reads a step after its id.
fn read_step_after(alloc: Global, id: u64, mut pieces: Pieces) -> Result<Step, LineRefusal>
    ensures { LineGives result (step_after id pieces.entry) }
{
    if says_deletion(&pieces) {
        let _ = pieces.next_piece();
        read_deletion(alloc, id, pieces)
    } else {
        read_addition(alloc, id, pieces)
    }
}

/// The id that a step begins with.
fn read_id(pieces: &mut Pieces) -> Result<u64, TextFault>
    ensures answer { result ≡ step_id pieces.old }
    ensures rest { pieces.new ≡ drop 1 pieces.old }
{
    let Some(piece) = pieces.next_piece() else {
        return Err(TextFault::Line);
    };
    match id_of(piece) {
        Some(id) => Ok(id),
        None => Err(TextFault::Number),
    }
}

/// Reads the line of a step.
fn read_step(alloc: Global, line: &[u8]) -> Result<Step, LineRefusal>
    ensures { LineGives result (step_in (pieces_of line.now)) }
{
    let mut pieces = Pieces::new(line);
    let id = read_id(&mut pieces)?;
    read_step_after(alloc, id, pieces)
}

/// Reads the step of a line of a text.
fn read_step_at(alloc: Global, line: Line) -> Result<Step, CertRefusal>
    ensures { GivesText result (at_line line.entry.number
        (step_in (pieces_of line.entry.text.now))) }
{
    match read_step(alloc, line.text) {
        Ok(step) => Ok(step),
        Err(refusal) => Err(refusal.at_line(line.number)),
    }
}

/// Reads a log and the line after it, which is exactly this word.
pub(crate) fn read_log(alloc: Global, lines: &mut Lines, word: Keyword) -> Result<Log, CertRefusal>
    ensures { ReadsText result lines.new (log_in word lines.old) }
{
    let mut log = Log::new(alloc);
    'steps: loop {
        let line = next_line(lines)?;
        if line.text == word.text() {
            return Ok(log);
        }
        log.push(read_step_at(alloc, line)?)?;
    }
}
