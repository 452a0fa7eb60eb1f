// The DIMACS text of a formula.
ghost use Rattle.dsv_base.specs.Taking.{Writes};
ghost use Rattle.std.specs.Prelude.{◌≡◌, Ok};
ghost use Rattle.dsv_cnf.specs.Dimacs.{clause_text, dimacs_text, literal_text, sign_text};
ghost use Rattle.dsv_cnf.specs.Reading.{reading};

use crate::{Formula, Lit};
use dsv_base::{Failed, Sink, put_all, put_line, put_number};

fn put_sign<K: Sink>(sink: &mut K, literal: Lit) -> Result<(), Failed>
    ensures { Writes (K.seen sink.old) (K.seen sink.new) result (sign_text literal) }
{
    if literal.is_positive() {
        return Ok(());
    }
    put_all(sink, b"-")
}

/// Writes a literal and the space after it.
fn put_literal<K: Sink>(sink: &mut K, literal: Lit) -> Result<(), Failed>
    ensures { Writes (K.seen sink.old) (K.seen sink.new) result (literal_text literal) }
{
    put_sign(sink, literal)?;
    put_number(sink, literal.var() + 1)?;
    put_all(sink, b" ")
}

fn put_clause<K: Sink>(sink: &mut K, clause: &[Lit]) -> Result<(), Failed>
    ensures { Writes (K.seen sink.old) (K.seen sink.new) result (clause_text clause.now) }
{
    for literal in clause {
        put_literal(sink, *literal)?;
    }
    put_all(sink, b"0\n")
}

/// Writes `p cnf V C` and then a line per clause: its literals, numbered from 1, and a final 0. It
/// takes no memory. The whole text reads back as the formula.
pub fn write_dimacs<K: Sink>(formula: &Formula, sink: &mut K) -> Result<(), Failed>
    ensures writes { Writes (K.seen sink.old) (K.seen sink.new) result (dimacs_text formula.now) }
    ensures reads_back { reading (dimacs_text formula.now) ≡ Ok formula.now }
{
    put_line(sink, b"p cnf", &[formula.vars(), formula.len()])?;
    for i in 0..formula.len() {
        put_clause(sink, formula.clause(i))?;
    }
    Ok(())
}
