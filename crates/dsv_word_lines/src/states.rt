// Writes the words of state-space controllers, with no memory.
ghost use Rattle.dsv_base.specs.Taking.{Writes};
ghost use Rattle.dsv_word_lines.specs.WordLines.{direct_line, lane_lines, matrix_lines, row_lines};
ghost use Rattle.dsv_word_lines.specs.WordLines.{state_input_line, state_lines, state_head_lines};

use crate::coefficients::put_word_line;
use crate::lines::{is_cut, put_format_line, put_range_line};
use dsv_base::{Failed, Sink, put_line};
use dsv_state_file::StateFile;
use dsv_state_space::{StateSystem, WordRow};

/// Writes the range of the inputs.
fn put_state_inputs<K: Sink>(
    sink: &mut K,
    file: &StateFile,
    system: &StateSystem,
) -> Result<(), Failed>
    ensures { Writes (K.seen sink.old) (K.seen sink.new) result
        (state_input_line file.now system.now) }
{
    let lo = system.xlo();
    let hi = system.xhi();
    let cut = is_cut(system.format(), file.min(), file.max(), lo, hi);
    put_range_line(sink, lo, hi, cut)
}

/// Writes the lines before the matrices: the format and the range of the inputs.
fn put_state_head<K: Sink>(
    sink: &mut K,
    file: &StateFile,
    system: &StateSystem,
) -> Result<(), Failed>
    ensures { Writes (K.seen sink.old) (K.seen sink.new) result
        (state_head_lines file.now system.now) }
{
    put_format_line(sink, system.format(), false)?;
    put_state_inputs(sink, file, system)
}

/// Writes the rows of A.
fn put_rows<K: Sink>(sink: &mut K, rows: &[WordRow]) -> Result<(), Failed>
    ensures { Writes (K.seen sink.old) (K.seen sink.new) result (row_lines rows.now) }
{
    for row in rows {
        put_line(sink, b"a", row.as_slice())?;
    }
    Ok(())
}

/// Writes d.
fn put_direct<K: Sink>(sink: &mut K, system: &StateSystem) -> Result<(), Failed>
    ensures { Writes (K.seen sink.old) (K.seen sink.new) result (direct_line system.now) }
{
    put_word_line(sink, b"d", system.d())
}

/// Writes b, c and d.
fn put_lanes<K: Sink>(sink: &mut K, system: &StateSystem) -> Result<(), Failed>
    ensures { Writes (K.seen sink.old) (K.seen sink.new) result (lane_lines system.now) }
{
    put_line(sink, b"b", system.b())?;
    put_line(sink, b"c", system.c())?;
    put_direct(sink, system)
}

/// Writes A row by row, b, c and d.
fn put_matrices<K: Sink>(sink: &mut K, system: &StateSystem) -> Result<(), Failed>
    ensures { Writes (K.seen sink.old) (K.seen sink.new) result (matrix_lines system.now) }
{
    put_rows(sink, system.a())?;
    put_lanes(sink, system)
}

/// Writes the format of a state-space controller's words, the range of its inputs, which its file
/// says, and the words of A row by row, b, c and d, by the names that the file gives them. It takes
/// no memory.
pub fn put_state_lines<K: Sink>(
    sink: &mut K,
    file: &StateFile,
    system: &StateSystem,
) -> Result<(), Failed>
    ensures { Writes (K.seen sink.old) (K.seen sink.new) result
        (state_lines file.now system.now) }
{
    put_state_head(sink, file, system)?;
    put_matrices(sink, system)
}
