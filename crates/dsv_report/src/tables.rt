// Writes what a table says of a polynomial's roots, with no memory.
ghost use Rattle.std.specs.Prelude.{◌≡◌, ◌≤◌, length, replicate};
ghost use Rattle.dsv_base.specs.Taking.{Writes};
ghost use Rattle.dsv_base.specs.Text.{spaced_text};
ghost use Rattle.std.specs.List.{flat_map};
ghost use Rattle.dsv_integer.specs.Numerals.{integer_text};
ghost use Rattle.dsv_report.specs.Tables.{parts_text, polynomial_text, root_text, table_text};
ghost use Rattle.dsv_report.specs.Tables.{verdict_text, with_point};

use crate::lines::put_number_line;
use dsv_base::{Failed, Sink, put_all};
use dsv_integer::Numeral;
use dsv_table::{RootBounds, TableFinding, TableVerdict};

/// Writes a space and a number.
fn put_numeral<K: Sink>(sink: &mut K, number: &Numeral) -> Result<(), Failed>
    ensures { Writes (K.seen sink.old) (K.seen sink.new) result
        (spaced_text integer_text number.now) }
{
    put_all(sink, b" ")?;
    put_all(sink, number.text())
}

/// Writes a space before each number.
fn put_numerals<K: Sink>(sink: &mut K, numbers: &[Numeral]) -> Result<(), Failed>
    ensures { Writes (K.seen sink.old) (K.seen sink.new) result
        (flat_map (spaced_text integer_text) numbers.now) }
{
    for number in numbers {
        put_numeral(sink, number)?;
    }
    Ok(())
}

/// Writes the line of a polynomial.
fn put_polynomial<K: Sink>(sink: &mut K, poly: &[Numeral]) -> Result<(), Failed>
    ensures { Writes (K.seen sink.old) (K.seen sink.new) result (polynomial_text poly.now) }
{
    put_all(sink, b"polynomial")?;
    put_numerals(sink, poly)?;
    put_all(sink, b"\n")
}

/// Writes what the table says.
fn put_verdict<K: Sink>(sink: &mut K, verdict: TableVerdict) -> Result<(), Failed>
    ensures { Writes (K.seen sink.old) (K.seen sink.new) result (verdict_text verdict) }
{
    match verdict {
        TableVerdict::Inside => put_all(sink, b"table inside\n"),
        TableVerdict::NotInside { row } => put_number_line(sink, b"table row ", row as u64),
    }
}

/// Writes so many digits 0.
fn put_zeros<K: Sink>(sink: &mut K, count: usize) -> Result<(), Failed>
    requires { count ≤ 5 }
    ensures { Writes (K.seen sink.old) (K.seen sink.new) result (replicate count 48) }
{
    put_all(sink, &b"00000"[..count])
}

/// Writes digits with a point before the last five.
fn put_with_point<K: Sink>(sink: &mut K, digits: &[u8]) -> Result<(), Failed>
    ensures { Writes (K.seen sink.old) (K.seen sink.new) result (with_point digits.now) }
{
    let count = digits.len();
    if count > 5 {
        put_all(sink, &digits[..count - 5])?;
        put_all(sink, b".")?;
        put_all(sink, &digits[count - 5..])
    } else {
        put_all(sink, b"0.")?;
        put_zeros(sink, 5 - count)?;
        put_all(sink, digits)
    }
}

/// Writes a count of hundred-thousandths.
fn put_parts<K: Sink>(sink: &mut K, count: &Numeral) -> Result<(), Failed>
    ensures { Writes (K.seen sink.old) (K.seen sink.new) result (parts_text count.now) }
{
    put_with_point(sink, count.text())
}

/// Writes between which numbers the size of the greatest root is, if there is a root.
fn put_root<K: Sink>(sink: &mut K, root: &Option<RootBounds>) -> Result<(), Failed>
    ensures { Writes (K.seen sink.old) (K.seen sink.new) result (root_text root.now) }
{
    let Some(root) = root else {
        return Ok(());
    };
    put_all(sink, b"greatest root from ")?;
    put_parts(sink, &root.least)?;
    put_all(sink, b" to ")?;
    put_parts(sink, &root.greatest)?;
    put_all(sink, b"\n")
}

/// Writes the polynomial, what its table says, and the size of its greatest root.
pub(crate) fn put_table<K: Sink>(sink: &mut K, found: &TableFinding) -> Result<(), Failed>
    ensures { Writes (K.seen sink.old) (K.seen sink.new) result (table_text found.now) }
{
    put_polynomial(sink, found.poly.as_slice())?;
    put_verdict(sink, found.verdict)?;
    put_root(sink, &found.root)
}
