// How wide the entries of a form are, and forms with entries of another width.
ghost use Rattle.std.specs.Prelude.{◌≡◌, ◌≤◌, IfSome};

use crate::form::Row;
use dsv_forms::{Form, GREATEST_ORDER};

/// The greatest size of an entry of a row.
fn greatest_size(row: &Row) -> u128 {
    let mut greatest: u128 = 0;
    for entry in row {
        greatest = greatest.max(entry.unsigned_abs());
    }
    greatest
}

/// How many bits the size of a number takes.
fn bit_length(size: u128) -> u32
    ensures { result ≤ 128 }
{
    128 - size.leading_zeros()
}

/// How many bits the size of the greatest entry of a row takes.
pub(crate) fn row_width(row: &Row) -> u32
    ensures { result ≤ 128 }
{
    bit_length(greatest_size(row))
}

/// How many bits the size of the greatest entry takes.
pub(crate) fn greatest_width(form: &Form) -> u32
    ensures { result ≤ 128 }
{
    let mut greatest: u128 = 0;
    for row in &form.rows {
        greatest = greatest.max(greatest_size(row));
    }
    bit_length(greatest)
}

/// The entry of a form with entries of so many bits, for one where they take the width.
fn scaled_entry(entry: i128, bits: u32, width: u32) -> Option<i128>
    requires { width ≤ 126 }
{
    if bits <= width {
        entry.checked_mul(1 << (width - bits))
    } else {
        Some(entry >> (bits - width).min(127))
    }
}

/// The form times the power of two, or divided by it and rounded down, that brings its greatest
/// entry to this width.
pub(crate) fn scaled_form(form: &Form, width: u32) -> Option<Form>
    requires { width ≤ 126 }
    ensures { IfSome result (λ scaled. scaled.d ≡ form.now.d) }
{
    let bits = greatest_width(form);
    let mut rows = [[0; GREATEST_ORDER]; GREATEST_ORDER];
    for i in 0..GREATEST_ORDER {
        for j in 0..GREATEST_ORDER {
            rows[i][j] = scaled_entry(form.rows[i][j], bits, width)?;
        }
    }
    Some(Form { d: form.d, rows })
}
