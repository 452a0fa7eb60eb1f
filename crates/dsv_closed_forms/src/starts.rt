// The value of a form of two places at a vector.
ghost use Rattle.std.specs.Prelude.{◌≡◌, ◌≤◌, ◌^◌, ◌*ℤ◌, [], ◌∷◌, pos, int_lt};
ghost use Rattle.std.specs.Int.RustNames.{unsigned_abs};
ghost use Rattle.dsv_algebra.specs.Vectors.{form_at, vector_of, matrix_of};
ghost use Rattle.dsv_closed_forms.specs.ClosedForm.{second_limit};
ghost use Rattle.dsv_closed_forms.specs.Entries.{rows_of, HasSmallEntries};

use crate::entries::Entries;
use crate::narrow::{product, sum};
use dsv_algebra::NarrowInteger;

/// A vector of two places.
#[derive(Clone, Copy)]
pub(crate) struct Pair {
    pub(crate) x: NarrowInteger,
    pub(crate) y: NarrowInteger,
}

/// The product of an entry and two places.
fn term(entry: NarrowInteger, a: NarrowInteger, b: NarrowInteger) -> NarrowInteger
    requires entry { unsigned_abs entry ≤ 2 ^ 74 }
    requires first { unsigned_abs a ≤ second_limit }
    requires second { unsigned_abs b ≤ second_limit }
    ensures value { result ≡ entry *ℤ a *ℤ b }
    ensures size { unsigned_abs result ≤ 2 ^ 120 }
{
    product(product(entry, a), b)
}

/// The form's value at the vector.
fn value_at(form: &Entries, start: &Pair) -> NarrowInteger
    requires entries { HasSmallEntries form.now }
    requires x { unsigned_abs start.now.x ≤ second_limit }
    requires y { unsigned_abs start.now.y ≤ second_limit }
    ensures { result ≡ form_at 2 (matrix_of (rows_of form.now))
        (vector_of (start.now.x ∷ start.now.y ∷ [])) }
{
    let (x, y) = (start.x, start.y);
    let first_row = sum(term(form.first, x, x), term(form.upper, x, y));
    let second_row = sum(term(form.lower, y, x), term(form.last, y, y));
    sum(first_row, second_row)
}

/// Whether the form is negative at the vector.
pub(crate) fn is_negative_at(form: &Entries, start: &Pair) -> bool
    requires entries { HasSmallEntries form.now }
    requires x { unsigned_abs start.now.x ≤ second_limit }
    requires y { unsigned_abs start.now.y ≤ second_limit }
    ensures { result ≡ int_lt (form_at 2 (matrix_of (rows_of form.now))
        (vector_of (start.now.x ∷ start.now.y ∷ []))) (pos 0) }
{
    value_at(form, start).get() < 0
}
