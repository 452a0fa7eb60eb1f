// The closed form of order 2.
//
// Inside the triangle of stability the form falls, and two squares show it positive. Outside of it
// the form or its negation is negative somewhere and never rises, so that a trajectory from there
// is kept away from 0 (Lyapunov's theorem on instability). On the lines through the triangle's
// sides a form is taken that loses nothing in a step: that of equal ends, or that of the root 1 or
// -1.
ghost use Rattle.std.specs.Prelude.{◌≡◌, ◌+ℤ◌, ◌*ℤ◌, [], ◌∷◌, pos, neg_ℤ, if◌then◌else◌};
ghost use Rattle.std.specs.Ordering.{int_eq};
ghost use Rattle.dsv_forms.specs.declared.offers.FormOffer.TheVariants as offered;
ghost use Rattle.dsv_forms.specs.Padded.{squares_with};
ghost use Rattle.dsv_closed_forms.specs.ClosedForm.{gap, second_that_falls, second_kept_away};
ghost use Rattle.dsv_closed_forms.specs.ClosedForm.{equal_ends, minus_square, second_order};
ghost use Rattle.dsv_closed_forms.specs.SmallCoefficients.{AreSmall};
ghost use Rattle.dsv_closed_forms.specs.Entries.{rows_of, HasSmallEntries};

use crate::coefficients::Coefficients;
use crate::entries::{
    Entries, diagonal_rest, form_of, matrix_of_two, no_squares, row_of_two, start_of, unit_squares,
    unit_start,
};
use crate::narrow::{are_equal, is_less, negation, product};
use crate::root::minus_square;
use dsv_algebra::NarrowInteger;
use dsv_forms::{Falls, FormOffer, KeptAway, Squares};

impl Coefficients {
    /// The squares that show the form to be positive.
    fn own_squares(&self) -> Squares
        requires small { AreSmall self.now.c0 self.now.c1 self.now.c2 }
        ensures { result ≡ squares_with (self.now.c0 +ℤ self.now.c2)
            (pos 2 ∷ (gap self.now.c0 self.now.c1 self.now.c2
            *ℤ (self.now.c0 *ℤ self.now.c0 +ℤ self.now.c2 *ℤ self.now.c2)) ∷ [])
            ((((self.now.c0 +ℤ self.now.c2) *ℤ self.now.c0)
            ∷ (self.now.c1 *ℤ self.now.c2) ∷ []) ∷ (pos 0 ∷ pos 1 ∷ []) ∷ []) [] }
    {
        let ends = self.sum_of_ends();
        let rows = Entries {
            first: product(ends, self.c0),
            upper: product(self.c1, self.c2),
            lower: NarrowInteger::from(0i64),
            last: NarrowInteger::from(1i64),
        };
        Squares {
            m: ends.get(),
            count: 2,
            weights: row_of_two(NarrowInteger::from(2i64), self.weight()),
            rows: matrix_of_two(&rows),
            ..no_squares()
        }
    }

    /// The form of a polynomial that leads, which falls.
    fn form_that_falls(&self) -> Falls
        requires small { AreSmall self.now.c0 self.now.c1 self.now.c2 }
        ensures { result ≡ second_that_falls self.now.c0 self.now.c1 self.now.c2 }
    {
        Falls {
            form: form_of(&self.entries()),
            positive: self.own_squares(),
            fall: unit_squares(self.loss()),
        }
    }

    /// A form that loses a number, 0 or more, on the diagonal in a step.
    fn kept_away(&self, form: &Entries, loss: NarrowInteger) -> KeptAway
        requires small { AreSmall self.now.c0 self.now.c1 self.now.c2 }
        requires entries { HasSmallEntries form.now }
        ensures { result ≡ second_kept_away self.now.c0 self.now.c1 self.now.c2
            (rows_of form.now) loss }
    {
        let start = self.negative_start(form);
        KeptAway {
            form: form_of(form),
            start: start_of(start.x, start.y),
            fall: diagonal_rest(loss),
        }
    }

    /// The form of a polynomial whose last coefficient is its first one.
    fn equal_ends(&self) -> KeptAway
        requires small { AreSmall self.now.c0 self.now.c1 self.now.c2 }
        ensures { result ≡ equal_ends self.now.c0 self.now.c1 self.now.c2 }
    {
        let two = NarrowInteger::from(2i64);
        let beside = negation(self.c1);
        let entries = Entries {
            first: negation(product(two, self.c0)),
            upper: beside,
            lower: beside,
            last: negation(product(two, self.c2)),
        };
        KeptAway {
            form: form_of(&entries),
            start: unit_start(),
            fall: no_squares(),
        }
    }

    /// The form of a polynomial that has equal ends, or 1 or else -1 as a root. It loses nothing in
    /// a step.
    fn form_without_loss(&self) -> FormOffer
        requires small { AreSmall self.now.c0 self.now.c1 self.now.c2 }
        ensures { result ≡ (if int_eq self.now.c2 self.now.c0
            then offered.KeptAway (equal_ends self.now.c0 self.now.c1 self.now.c2)
            else if int_eq self.now.c1 (neg_ℤ (self.now.c0 +ℤ self.now.c2))
            then offered.KeptAway (minus_square (self.now.c0 ∷ neg_ℤ self.now.c2 ∷ []))
            else offered.KeptAway (minus_square (self.now.c0 ∷ self.now.c2 ∷ []))) }
    {
        if are_equal(self.c2, self.c0) {
            FormOffer::KeptAway(self.equal_ends())
        } else if are_equal(self.c1, negation(self.sum_of_ends())) {
            FormOffer::KeptAway(minus_square(&[self.c0, negation(self.c2)]))
        } else {
            FormOffer::KeptAway(minus_square(&[self.c0, self.c2]))
        }
    }

    /// The offer for the polynomial.
    pub(crate) fn offer(&self) -> FormOffer
        requires small { AreSmall self.now.c0 self.now.c1 self.now.c2 }
        ensures { result ≡ second_order self.now.c0 self.now.c1 self.now.c2 }
    {
        let zero = NarrowInteger::from(0i64);
        let scale = self.fall_scale();
        let entries = self.entries();
        if self.leads() {
            FormOffer::Falls(self.form_that_falls())
        } else if is_less(zero, scale) {
            FormOffer::KeptAway(self.kept_away(&entries, self.loss()))
        } else if is_less(scale, zero) {
            FormOffer::KeptAway(self.kept_away(&entries.negation(), negation(self.loss())))
        } else {
            self.form_without_loss()
        }
    }
}
