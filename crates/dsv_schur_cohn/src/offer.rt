// The offer of the Schur-Cohn form.
ghost use Rattle.std.specs.Prelude.{◌≡◌, ◌+◌, ◌-◌, ◌≤◌, ◌↔◌, length, [], ◌∷◌, None, pos};
ghost use Rattle.dsv_algebra.specs.Vectors.{vector_of};
ghost use Rattle.dsv_forms.specs.Padded.{squares_with};
ghost use Rattle.dsv_forms.specs.Poly.{IsPoly};
ghost use Rattle.dsv_forms.specs.Refusals.{kept_away_refusal};
ghost use Rattle.dsv_sums.specs.Elimination.{entries_of};
ghost use Rattle.dsv_schur_cohn.specs.Offer.{negative_offer, HasNarrowNumbers, IsNegativeAt};
ghost use Rattle.dsv_table.specs.SchurCohn.{lost_row};

use crate::form::{lost_row, schur_cohn_form};
use dsv_forms::{GREATEST_ORDER, KeptAway, Poly, Squares};

/// The one square that the form loses in a step.
fn lost_square(c: &[i64]) -> Squares
    requires { IsPoly c.now }
    ensures { let d = length c.now - 1 in
        result ≡ squares_with (pos 1) (pos 1 ∷ [])
        (entries_of d (lost_row d (vector_of c.now)) ∷ []) [] }
{
    let mut weights = [0; GREATEST_ORDER];
    weights[0] = 1;
    let mut rows = [[0; GREATEST_ORDER]; GREATEST_ORDER];
    rows[0] = lost_row(c);
    Squares {
        m: 1,
        count: 1,
        weights,
        rows,
        rest: [[0; GREATEST_ORDER]; GREATEST_ORDER],
    }
}

/// The offer of the polynomial's Schur-Cohn form, kept away from 0 from this start. For the orders
/// from 1 on its check accepts it exactly where the form is negative at the start and no number on
/// the way passes 2^126. It takes no memory.
pub fn negative_offer(poly: &Poly, start: &[i64; GREATEST_ORDER]) -> KeptAway
    ensures same { result ≡ negative_offer poly.now start.now }
    ensures places { result.form.d + 1 ≡ length poly.now }
    ensures accepted { 2 ≤ length poly.now → (kept_away_refusal poly.now result ≡ None
        ↔ (HasNarrowNumbers poly.now start.now × IsNegativeAt poly.now start.now)) }
{
    KeptAway {
        form: schur_cohn_form(poly),
        start: *start,
        fall: lost_square(poly.coefficients()),
    }
}
