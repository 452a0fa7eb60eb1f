// The numbers of the closed form of order 2.
//
// For c_0 z^2 + c_1 z + c_2 the form solves Lyapunov's equation P - A^T P A = q I with A the
// companion matrix, three linear equations for its three entries. With q = (c_0 - c_2) ((c_0 +
// c_2)^2 - c_1^2) the entries are whole. The factors of q are 0 on the sides of the triangle of
// stability, c_2 = c_0 and c_1 = c_0 + c_2 and c_1 = -(c_0 + c_2). Over C = c_0 A the form loses
// c_0^2 q.
ghost use Rattle.std.specs.Prelude.{◌≡◌, ◌≤◌, ◌^◌, ◌+ℤ◌, ◌*ℤ◌, [], ◌∷◌, pos, neg_ℤ};
ghost use Rattle.std.specs.Prelude.{◌<◌, length, true};
ghost use Rattle.std.specs.Int.RustNames.{unsigned_abs};
ghost use Rattle.dsv_algebra.specs.Narrow.{is_narrow};
ghost use Rattle.dsv_algebra.specs.Vectors.{vector_of};
ghost use Rattle.dsv_closed_forms.specs.ClosedForm.{gap, fall_scale, second_leads};
ghost use Rattle.dsv_closed_forms.specs.ClosedForm.{second_rows, negative_start, second_limit};
ghost use Rattle.dsv_closed_forms.specs.SmallCoefficients.{AreSmall};
ghost use Rattle.dsv_closed_forms.specs.Entries.{rows_of, HasSmallEntries};

use crate::entries::Entries;
use crate::narrow::{difference, is_less_in_size, negation, product, sum};
use crate::starts::{Pair, is_negative_at};
use dsv_algebra::NarrowInteger;

/// The coefficients of a polynomial of order 2, the leading one first.
#[derive(Clone, Copy)]
pub(crate) struct Coefficients {
    pub(crate) c0: NarrowInteger,
    pub(crate) c1: NarrowInteger,
    pub(crate) c2: NarrowInteger,
}

/// The coefficient in a place.
pub(crate) fn coefficient(c: &[i64], i: usize) -> NarrowInteger
    requires { i < length c.now }
    ensures { result ≡ vector_of c.now i }
{
    NarrowInteger::from(c[i])
}

/// Twice a number times the product of two others.
fn twice_times_product(a: NarrowInteger, b: NarrowInteger, c: NarrowInteger) -> NarrowInteger
    requires small_a { unsigned_abs a ≤ 2 ^ 24 }
    requires small_b { unsigned_abs b ≤ second_limit }
    requires small_c { unsigned_abs c ≤ second_limit }
    ensures { result ≡ pos 2 *ℤ a *ℤ (b *ℤ c) }
{
    product(product(NarrowInteger::from(2i64), a), product(b, c))
}

impl Coefficients {
    /// The sum of the first and the last one.
    pub(crate) fn sum_of_ends(&self) -> NarrowInteger
        requires small { AreSmall self.now.c0 self.now.c1 self.now.c2 }
        ensures value { result ≡ self.now.c0 +ℤ self.now.c2 }
        ensures size { unsigned_abs result ≤ 2 ^ 24 }
    {
        sum(self.c0, self.c2)
    }

    /// How far the sum of the ends is from the middle one, as the difference of their squares.
    fn gap(&self) -> NarrowInteger
        requires small { AreSmall self.now.c0 self.now.c1 self.now.c2 }
        ensures value { result ≡ gap self.now.c0 self.now.c1 self.now.c2 }
    {
        let ends = self.sum_of_ends();
        difference(product(ends, ends), product(self.c1, self.c1))
    }

    /// What the form loses on the diagonal in a step, over the square of the first one.
    pub(crate) fn fall_scale(&self) -> NarrowInteger
        requires small { AreSmall self.now.c0 self.now.c1 self.now.c2 }
        ensures value { result ≡ fall_scale self.now.c0 self.now.c1 self.now.c2 }
    {
        product(difference(self.c0, self.c2), self.gap())
    }

    /// What the form loses on the diagonal in a step.
    pub(crate) fn loss(&self) -> NarrowInteger
        requires small { AreSmall self.now.c0 self.now.c1 self.now.c2 }
        ensures value { result
            ≡ self.now.c0 *ℤ self.now.c0 *ℤ fall_scale self.now.c0 self.now.c1 self.now.c2 }
        ensures narrow { is_narrow result ≡ true }
    {
        product(product(self.c0, self.c0), self.fall_scale())
    }

    /// Whether the first one is greater than the size of the last one, and their sum than the size
    /// of the middle one.
    pub(crate) fn leads(&self) -> bool
        requires small { AreSmall self.now.c0 self.now.c1 self.now.c2 }
        ensures { result ≡ second_leads self.now.c0 self.now.c1 self.now.c2 }
    {
        is_less_in_size(self.c2, self.c0) && is_less_in_size(self.c1, self.sum_of_ends())
    }

    /// The entries of the form.
    pub(crate) fn entries(&self) -> Entries
        requires small { AreSmall self.now.c0 self.now.c1 self.now.c2 }
        ensures rows { rows_of result ≡ second_rows self.now.c0 self.now.c1 self.now.c2 }
        ensures small { HasSmallEntries result }
    {
        let ends = self.sum_of_ends();
        let beside = twice_times_product(self.c0, self.c1, self.c2);
        Entries {
            first: twice_times_product(ends, self.c0, self.c0),
            upper: beside,
            lower: beside,
            last: sum(
                twice_times_product(ends, self.c2, self.c2),
                self.fall_scale(),
            ),
        }
    }

    /// The first vector of four at which the form is negative, or the last.
    pub(crate) fn negative_start(&self, form: &Entries) -> Pair
        requires small { AreSmall self.now.c0 self.now.c1 self.now.c2 }
        requires entries { HasSmallEntries form.now }
        ensures value { result.x ∷ result.y ∷ [] ≡ negative_start (rows_of form.now)
            ((pos 1 ∷ pos 0 ∷ []) ∷ (neg_ℤ self.now.c2 ∷ self.now.c0 ∷ [])
            ∷ (self.now.c2 ∷ self.now.c0 ∷ []) ∷ []) (neg_ℤ self.now.c1 ∷ self.now.c0 ∷ []) }
        ensures x { unsigned_abs result.x ≤ second_limit }
        ensures y { unsigned_abs result.y ≤ second_limit }
    {
        let unit = Pair {
            x: NarrowInteger::from(1i64),
            y: NarrowInteger::from(0i64),
        };
        if is_negative_at(form, &unit) {
            return unit;
        }
        let minus_last = Pair {
            x: negation(self.c2),
            y: self.c0,
        };
        if is_negative_at(form, &minus_last) {
            return minus_last;
        }
        let last = Pair {
            x: self.c2,
            y: self.c0,
        };
        if is_negative_at(form, &last) {
            return last;
        }
        Pair {
            x: negation(self.c1),
            y: self.c0,
        }
    }

    /// The product of the gap and the sum of the squares of the ends.
    pub(crate) fn weight(&self) -> NarrowInteger
        requires small { AreSmall self.now.c0 self.now.c1 self.now.c2 }
        ensures { result ≡ gap self.now.c0 self.now.c1 self.now.c2
            *ℤ (self.now.c0 *ℤ self.now.c0 +ℤ self.now.c2 *ℤ self.now.c2) }
    {
        let squares = sum(product(self.c0, self.c0), product(self.c2, self.c2));
        product(self.gap(), squares)
    }
}
