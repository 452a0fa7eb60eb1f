// Lines and their pieces, written to a sink with no memory.
ghost use Rattle.std.specs.Prelude.{decimal, take, All, OnOk};
ghost use Rattle.std.specs.List.{flat_map};
ghost use Rattle.dsv_base.specs.Taking.{Writes};
ghost use Rattle.dsv_base.specs.Text.{spaced_text};
ghost use Rattle.dsv_lines.specs.Texts.{line_text, piece_text};
ghost use Rattle.dsv_certfile.specs.Texts.{list_pieces};
ghost use Rattle.dsv_certfile.specs.Texts.{numbers_line, word_line, step_line, log_lines};
ghost use Rattle.dsv_certfile.specs.Texts.{rows_lines};
ghost use Rattle.dsv_certfile.specs.Lawful.{IsLiteral};
ghost use Rattle.dsv_certfile.specs.Typed.{IsShortId, IsTypedStep, IsTypedLog};
ghost use Rattle.dsv_certfile.specs.Typed.{IsTypedRow, IsTypedMatrix};
ghost use Rattle.dsv_cnf.specs.Dimacs.{sign_text};
ghost use Rattle.dsv_cnf.specs.Texts.{literal_piece};
ghost use Rattle.dsv_hints.specs.declared.step.Step.TheVariants.{Add, Delete};

use crate::keyword::Keyword;
use dsv_base::{Failed, Sink, put_all, put_line, put_number, put_spaced};
use dsv_cnf::Lit;
use dsv_forms::GREATEST_ORDER;
use dsv_hints::{Log, Step};
use dsv_names::Named;
use itoa::Integer;

/// The entries of a row.
pub(crate) type MatrixRow = [i128; GREATEST_ORDER];

/// The entries row by row.
pub(crate) type Matrix = [MatrixRow; GREATEST_ORDER];

/// Writes a space and a piece.
pub(crate) fn put_piece<K: Sink>(sink: &mut K, piece: &[u8]) -> Result<(), Failed>
    ensures { Writes (K.seen sink.old) (K.seen sink.new) result
        (spaced_text piece_text piece.now) }
{
    put_all(sink, b" ")?;
    put_all(sink, piece)
}

/// Writes a space before each number.
pub(crate) fn put_entries<K: Sink, I: Integer>(sink: &mut K, numbers: &[I]) -> Result<(), Failed>
    ensures { Writes (K.seen sink.old) (K.seen sink.new) result
        (flat_map (spaced_text I.text) numbers.now) }
{
    for number in numbers {
        put_spaced(sink, *number)?;
    }
    Ok(())
}

/// Writes a space and a number.
pub(crate) fn put_entry<K: Sink, I: Integer>(sink: &mut K, number: &I) -> Result<(), Failed>
    ensures { Writes (K.seen sink.old) (K.seen sink.new) result (spaced_text I.text number.now) }
{
    put_spaced(sink, *number)
}

/// Writes a space and the name of a value.
pub(crate) fn put_name<K: Sink, N: Named>(sink: &mut K, value: N) -> Result<(), Failed>
    ensures { Writes (K.seen sink.old) (K.seen sink.new) result
        (spaced_text piece_text (N.name_of value)) }
{
    put_piece(sink, value.name().as_bytes())
}

/// Writes the line of a word alone.
pub(crate) fn put_word<K: Sink>(sink: &mut K, word: Keyword) -> Result<(), Failed>
    ensures { Writes (K.seen sink.old) (K.seen sink.new) result (line_text (word_line word)) }
{
    put_all(sink, word.text())?;
    put_all(sink, b"\n")
}

/// Writes the line of a word and numbers.
pub(crate) fn put_numbers<K: Sink>(
    sink: &mut K,
    word: Keyword,
    numbers: &[i128],
) -> Result<(), Failed>
    ensures { Writes (K.seen sink.old) (K.seen sink.new) result
        (line_text (numbers_line word numbers.now)) }
{
    put_line(sink, word.text(), numbers)
}

/// Writes a line of the first d places of the row.
fn put_row<K: Sink>(sink: &mut K, word: Keyword, d: usize, row: &MatrixRow) -> Result<(), Failed>
    ensures text { Writes (K.seen sink.old) (K.seen sink.new) result
        (line_text (numbers_line word (take d row.now))) }
    ensures typed { IsTypedRow row.now }
{
    put_numbers(sink, word, &row[..GREATEST_ORDER.min(d)])
}

/// Writes a line for each row, of its first d places.
fn put_each_row<K: Sink>(
    sink: &mut K,
    word: Keyword,
    d: usize,
    rows: &[MatrixRow],
) -> Result<(), Failed>
    ensures text { Writes (K.seen sink.old) (K.seen sink.new) result
        (flat_map (λ row. line_text (numbers_line word (take d row))) rows.now) }
    ensures typed { OnOk result (All IsTypedRow rows.now) }
{
    for row in rows {
        put_row(sink, word, d, row)?;
    }
    Ok(())
}

/// Writes a line for each of the first d rows, of its first d places.
pub(crate) fn put_rows<K: Sink>(
    sink: &mut K,
    word: Keyword,
    d: usize,
    rows: &Matrix,
) -> Result<(), Failed>
    ensures text { Writes (K.seen sink.old) (K.seen sink.new) result
        (flat_map line_text (rows_lines word d rows.now)) }
    ensures typed { OnOk result (IsTypedMatrix d rows.now) }
{
    put_each_row(sink, word, d, &rows[..GREATEST_ORDER.min(d)])
}

// ---- logs

/// Writes `-` where the literal is negated.
fn put_sign<K: Sink>(sink: &mut K, literal: Lit) -> Result<(), Failed>
    ensures { Writes (K.seen sink.old) (K.seen sink.new) result (sign_text literal) }
{
    if literal.is_positive() {
        return Ok(());
    }
    put_all(sink, b"-")
}

/// Writes a space and a literal: its variable, numbered from 1, after `-` where it is negated.
fn put_literal<K: Sink>(sink: &mut K, literal: Lit) -> Result<(), Failed>
    ensures text { Writes (K.seen sink.old) (K.seen sink.new) result
        (spaced_text literal_piece literal) }
    ensures typed { OnOk result (IsLiteral literal) }
{
    put_all(sink, b" ")?;
    put_sign(sink, literal)?;
    put_number(sink, literal.var() + 1)
}

/// Writes a space before each literal.
fn put_clause<K: Sink>(sink: &mut K, literals: &[Lit]) -> Result<(), Failed>
    ensures text { Writes (K.seen sink.old) (K.seen sink.new) result
        (flat_map (spaced_text literal_piece) literals.now) }
    ensures typed { OnOk result (All IsLiteral literals.now) }
{
    for literal in literals {
        put_literal(sink, *literal)?;
    }
    Ok(())
}

/// Writes the literals of a step, and the 0 that ends them.
fn put_literals<K: Sink>(sink: &mut K, literals: &[Lit]) -> Result<(), Failed>
    ensures text { Writes (K.seen sink.old) (K.seen sink.new) result
        (flat_map (spaced_text piece_text) (list_pieces literal_piece literals.now)) }
    ensures typed { OnOk result (All IsLiteral literals.now) }
{
    put_clause(sink, literals)?;
    put_all(sink, b" 0")
}

/// Writes ids of a step, and the 0 that ends them.
fn put_ids<K: Sink>(sink: &mut K, ids: &[u64]) -> Result<(), Failed>
    ensures text { Writes (K.seen sink.old) (K.seen sink.new) result
        (flat_map (spaced_text piece_text) (list_pieces decimal ids.now)) }
    ensures typed { All IsShortId ids.now }
{
    put_entries(sink, ids)?;
    put_all(sink, b" 0")
}

/// Writes the line of an added clause.
fn put_addition<K: Sink>(
    sink: &mut K,
    id: u64,
    literals: &[Lit],
    hints: &[u64],
) -> Result<(), Failed>
    ensures text { Writes (K.seen sink.old) (K.seen sink.new) result
        (line_text (step_line (Add id literals.now hints.now))) }
    ensures typed { OnOk result (IsTypedStep (Add id literals.now hints.now)) }
{
    put_number(sink, id)?;
    put_literals(sink, literals)?;
    put_ids(sink, hints)?;
    put_all(sink, b"\n")
}

/// Writes the line of a deletion.
fn put_deletion<K: Sink>(sink: &mut K, id: u64, ids: &[u64]) -> Result<(), Failed>
    ensures { Writes (K.seen sink.old) (K.seen sink.new) result
        (line_text (step_line (Delete id ids.now))) }
{
    put_number(sink, id)?;
    put_all(sink, b" d")?;
    put_ids(sink, ids)?;
    put_all(sink, b"\n")
}

fn put_step<K: Sink>(sink: &mut K, step: &Step) -> Result<(), Failed>
    ensures text { Writes (K.seen sink.old) (K.seen sink.new) result
        (line_text (step_line step.now)) }
    ensures typed { OnOk result (IsTypedStep step.now) }
{
    match step {
        Step::Add { id, lits, hints } => {
            put_addition(sink, *id, lits.as_slice(), hints.as_slice())
        }
        Step::Delete { id, ids } => put_deletion(sink, *id, ids.as_slice()),
    }
}

/// Writes the lines of steps.
fn put_steps<K: Sink>(sink: &mut K, steps: &[Step]) -> Result<(), Failed>
    ensures text { Writes (K.seen sink.old) (K.seen sink.new) result
        (flat_map (λ step. line_text (step_line step)) steps.now) }
    ensures typed { OnOk result (IsTypedLog steps.now) }
{
    for step in steps {
        put_step(sink, step)?;
    }
    Ok(())
}

/// Writes the lines of a log.
pub(crate) fn put_log<K: Sink>(sink: &mut K, log: &Log) -> Result<(), Failed>
    ensures text { Writes (K.seen sink.old) (K.seen sink.new) result
        (flat_map line_text (log_lines log.now)) }
    ensures typed { OnOk result (IsTypedLog log.now) }
{
    put_steps(sink, log.as_slice())
}
