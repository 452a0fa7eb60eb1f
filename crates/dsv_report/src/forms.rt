// Writes forms, with no memory.
ghost use Rattle.std.specs.Prelude.{◌≤◌, ◌++◌, take};
ghost use Rattle.std.specs.List.{flat_map};
ghost use Rattle.dsv_base.specs.Taking.{Writes};
ghost use Rattle.dsv_base.specs.Text.{spaced_text};
ghost use Rattle.dsv_report.specs.Forms as forms;

use crate::fragments::{Fragment, put_fragments};
use dsv_base::{Failed, Sink, put_all, put_line, put_spaced};
use dsv_forms::{Form, KeptAway, Poly};
use itoa::Integer;

/// Writes a line for each row of a form.
pub(crate) fn put_rows<K: Sink>(sink: &mut K, word: &[u8], form: &Form) -> Result<(), Failed>
    requires { form.now.d ≤ 8 }
    ensures { Writes (K.seen sink.old) (K.seen sink.new) result
        (forms.rows_text word.now form.now) }
{
    let d = form.d as usize;
    for row in &form.rows[..d] {
        put_line(sink, word, &row[..d])?;
    }
    Ok(())
}

/// Writes the form and what it loses in a step.
pub(crate) fn put_fall<K: Sink>(sink: &mut K, form: &Form, fall: &Form) -> Result<(), Failed>
    requires form { form.now.d ≤ 8 }
    requires fall { fall.now.d ≤ 8 }
    ensures { Writes (K.seen sink.old) (K.seen sink.new) result
        (forms.fall_text form.now fall.now) }
{
    put_rows(sink, b"form", form)?;
    put_rows(sink, b"fall", fall)
}

/// Writes the polynomial, the form and what it loses in a step.
pub(crate) fn put_form<K: Sink>(
    sink: &mut K,
    poly: &Poly,
    form: &Form,
    fall: &Form,
) -> Result<(), Failed>
    requires form { form.now.d ≤ 8 }
    requires fall { fall.now.d ≤ 8 }
    ensures { Writes (K.seen sink.old) (K.seen sink.new) result
        (forms.form_text poly.now form.now fall.now) }
{
    put_line(sink, b"polynomial", poly.coefficients())?;
    put_fall(sink, form, fall)
}

/// Writes numbers, each after a space.
pub(crate) fn put_numbers<K: Sink, I: Integer>(sink: &mut K, numbers: &[I]) -> Result<(), Failed>
    ensures { Writes (K.seen sink.old) (K.seen sink.new) result
        (flat_map (spaced_text I.text) numbers.now) }
{
    for number in numbers {
        put_spaced(sink, *number)?;
    }
    Ok(())
}

fn put_value<K: Sink>(sink: &mut K, value: &i128) -> Result<(), Failed>
    ensures { Writes (K.seen sink.old) (K.seen sink.new) result (forms.value_text value.now) }
{
    put_fragments(
        sink,
        &[
            Fragment::Bytes(b" value "),
            Fragment::Number(*value),
            Fragment::Bytes(b"\n"),
        ],
    )
}

/// Writes where a form is negative, and its value there.
fn put_start<K: Sink>(sink: &mut K, start: &[i64], value: &i128) -> Result<(), Failed>
    ensures { Writes (K.seen sink.old) (K.seen sink.new) result
        (forms.start_text start.now value.now) }
{
    put_all(sink, b"start")?;
    put_numbers(sink, start)?;
    put_value(sink, value)
}

/// Writes a form that keeps trajectories away from 0, and where it is negative.
pub(crate) fn put_kept_away<K: Sink>(
    sink: &mut K,
    poly: &Poly,
    offer: &KeptAway,
    fall: &Form,
    value: &i128,
) -> Result<(), Failed>
    requires form { offer.now.form.d ≤ 8 }
    requires fall { fall.now.d ≤ 8 }
    ensures { Writes (K.seen sink.old) (K.seen sink.new) result
        (forms.form_text poly.now offer.now.form fall.now
        ++ forms.start_text (take offer.now.form.d offer.now.start) value.now) }
{
    put_form(sink, poly, &offer.form, fall)?;
    put_start(sink, &offer.start[..offer.form.d as usize], value)
}
