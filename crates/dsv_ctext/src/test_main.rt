// The test of a program: a main that runs it over inputs and compares its outputs.
#![tactic(auto, using(dsv_algebra::proofs::Casts::casts))]

ghost use Rattle.std.specs.Prelude.{map};
ghost use Rattle.std.specs.List.{flat_map};
ghost use Rattle.dsv_base.specs.Taking.{Writes};
ghost use Rattle.dsv_system.specs.RowViews.{row_of};
ghost use Rattle.dsv_ctext.specs.TestTexts.{entry_line, input_line, output_line, table_head};
ghost use Rattle.dsv_ctext.specs.TestTexts.{main_start, main_loop, main_step, main_end};
ghost use Rattle.dsv_ctext.specs.TestTexts.{main_text, tables_text, test_text};

use crate::fragments::{Fragment, put_fragments};
use crate::names::type_name;
use crate::types::word_type;
use dsv_base::{Failed, Sink, put_all};
use dsv_c::CType;
use dsv_system::Row;
use dsv_word::Format;

/// Writes a line of a table.
fn put_entry<K: Sink>(sink: &mut K, word: &i64) -> Result<(), Failed>
    ensures { Writes (K.seen sink.old) (K.seen sink.new) result (entry_line word.now) }
{
    put_fragments(
        sink,
        &[
            Fragment::Bytes(b"    "),
            Fragment::Number((*word).into()),
            Fragment::Bytes(b",\n"),
        ],
    )
}

/// Writes the line of a sample's input.
fn put_input<K: Sink>(sink: &mut K, row: &Row) -> Result<(), Failed>
    ensures { Writes (K.seen sink.old) (K.seen sink.new) result (input_line (row_of row.now)) }
{
    put_entry(sink, &row.x)
}

/// Writes the line of its output.
fn put_output<K: Sink>(sink: &mut K, row: &Row) -> Result<(), Failed>
    ensures { Writes (K.seen sink.old) (K.seen sink.new) result (output_line (row_of row.now)) }
{
    put_entry(sink, &row.y)
}

/// Writes the lines of the inputs of samples.
fn put_inputs<K: Sink>(sink: &mut K, rows: &[Row]) -> Result<(), Failed>
    ensures { Writes (K.seen sink.old) (K.seen sink.new) result
        (flat_map input_line (map row_of rows.now)) }
{
    for row in rows {
        put_input(sink, row)?;
    }
    Ok(())
}

/// Writes the lines of their outputs.
fn put_outputs<K: Sink>(sink: &mut K, rows: &[Row]) -> Result<(), Failed>
    ensures { Writes (K.seen sink.old) (K.seen sink.new) result
        (flat_map output_line (map row_of rows.now)) }
{
    for row in rows {
        put_output(sink, row)?;
    }
    Ok(())
}

/// Writes the beginning of a table of so many words.
fn put_table_head<K: Sink>(
    sink: &mut K,
    word: CType,
    name: &'static [u8],
    many: usize,
) -> Result<(), Failed>
    ensures { Writes (K.seen sink.old) (K.seen sink.new) result (table_head word name.now many) }
{
    put_fragments(
        sink,
        &[
            Fragment::Bytes(b"static const "),
            Fragment::Bytes(type_name(word)),
            Fragment::Bytes(b" "),
            Fragment::Bytes(name),
            Fragment::Bytes(b"["),
            Fragment::Number(many as i128),
            Fragment::Bytes(b"] = {\n"),
        ],
    )
}

/// Writes the beginning of main.
fn put_main_start<K: Sink>(sink: &mut K, prefix: &[u8]) -> Result<(), Failed>
    ensures { Writes (K.seen sink.old) (K.seen sink.new) result (main_start prefix.now) }
{
    put_fragments(
        sink,
        &[
            Fragment::Bytes(b"\nint main(void)\n{\n    "),
            Fragment::Bytes(prefix),
            Fragment::Bytes(b"_state s;\n    int32_t k;\n\n    "),
        ],
    )
}

/// Writes the call of the init function, and the beginning of the loop.
fn put_main_loop<K: Sink>(sink: &mut K, prefix: &[u8], many: usize) -> Result<(), Failed>
    ensures { Writes (K.seen sink.old) (K.seen sink.new) result (main_loop prefix.now many) }
{
    put_fragments(
        sink,
        &[
            Fragment::Bytes(prefix),
            Fragment::Bytes(b"_init(&s);\n    for (k = 0; k < "),
            Fragment::Number(many as i128),
            Fragment::Bytes(b"; ++k) {\n        const "),
        ],
    )
}

/// Writes the call of the step function, and what is done with its output.
fn put_main_step<K: Sink>(sink: &mut K, prefix: &[u8], word: CType) -> Result<(), Failed>
    ensures { Writes (K.seen sink.old) (K.seen sink.new) result (main_step prefix.now word) }
{
    put_fragments(
        sink,
        &[
            Fragment::Bytes(type_name(word)),
            Fragment::Bytes(b" y = "),
            Fragment::Bytes(prefix),
            Fragment::Bytes(b"_step(&s, inputs[k]);\n\n        if (y != outputs[k]) {\n"),
        ],
    )
}

/// Writes what is done with an output that is another, and the end of main.
fn put_main_end<K: Sink>(sink: &mut K) -> Result<(), Failed>
    ensures { Writes (K.seen sink.old) (K.seen sink.new) result main_end }
{
    put_fragments(
        sink,
        &[
            Fragment::Bytes(b"            printf(\"sample %ld: %lld in place of %lld\\n\", "),
            Fragment::Bytes(b"(long)k, (long long)y,\n"),
            Fragment::Bytes(b"                (long long)outputs[k]);\n"),
            Fragment::Bytes(b"            return 1;\n        }\n    }\n"),
            Fragment::Bytes(b"    return 0;\n}\n#endif\n"),
        ],
    )
}

/// Writes main.
fn put_main<K: Sink>(sink: &mut K, prefix: &[u8], word: CType, many: usize) -> Result<(), Failed>
    ensures { Writes (K.seen sink.old) (K.seen sink.new) result (main_text prefix.now word many) }
{
    put_main_start(sink, prefix)?;
    put_main_loop(sink, prefix, many)?;
    put_main_step(sink, prefix, word)?;
    put_main_end(sink)
}

/// Writes the tables of the inputs and the outputs.
fn put_tables<K: Sink>(sink: &mut K, word: CType, rows: &[Row], many: usize) -> Result<(), Failed>
    ensures { Writes (K.seen sink.old) (K.seen sink.new) result
        (tables_text word many (map row_of rows.now)) }
{
    put_all(sink, b"\n#ifdef CONTROLLER_TEST\n#include <stdio.h>\n\n")?;
    put_table_head(sink, word, b"inputs", many)?;
    put_inputs(sink, rows)?;
    put_all(sink, b"};\n")?;
    put_table_head(sink, word, b"outputs", many)?;
    put_outputs(sink, rows)?;
    put_all(sink, b"};\n")
}

/// Writes the test of a program whose names begin so: its main runs the program over the inputs of
/// these rows, and ends with 0 if the outputs are theirs.
pub fn put_test<K: Sink>(
    sink: &mut K,
    format: &Format,
    prefix: &[u8],
    rows: &[Row],
) -> Result<(), Failed>
    ensures { Writes (K.seen sink.old) (K.seen sink.new) result
        (test_text format.now prefix.now (map row_of rows.now)) }
{
    let word = word_type(format);
    let many = rows.len();
    put_tables(sink, word, rows, many)?;
    put_main(sink, prefix, word, many)
}
