// Synthetic division by z - 1.
//
// The coefficients of a polynomial in powers of z - 1, by repeated synthetic division (Ruffini and
// Horner; Taylor's shift by 1): the remainder of a division by z - 1 is the last coefficient, that
// of the quotient's division the one before it, and so on. Dividing by z - 1 is a running sum, so
// that all is additions in place.
#![tactic(auto, using(dsv_algebra::proofs::Casts::casts))]

ghost use Rattle.std.specs.Prelude.{◌≡◌, ℕ, ◌-◌, ◌<◌, length};
ghost use Rattle.std.specs.Prelude.{pos, slice_index_or};
ghost use Rattle.dsv_algebra.specs.Narrow.{narrow_limit};
ghost use Rattle.dsv_algebra.specs.Vectors.{vector_of};
ghost use Rattle.dsv_delta.specs.Binomials.{binomial_sum, weight};
ghost use Rattle.dsv_delta.specs.Running.{running_sums};

/// Divides the polynomial of these coefficients by z - 1: the coefficients of the quotient stand in
/// front, and the rest is last.
fn divide(coefficients: &mut [i128])
    requires { weight coefficients.old < narrow_limit }
    ensures { coefficients.new ≡ running_sums (pos 0) coefficients.old }
{
    let mut carry = 0;
    for coefficient in coefficients.iter_mut() {
        carry += *coefficient;
        *coefficient = carry;
    }
}

/// Makes the coefficients of powers of z those of powers of z - 1, the highest first: what is left
/// of a division by z - 1, and then what is left of a division of each quotient.
pub(crate) fn expand(coefficients: &mut [i128])
    requires { weight coefficients.old < narrow_limit }
    ensures places { length coefficients.new ≡ length coefficients.old }
    ensures sums { (j : ℕ) → j < length coefficients.old →
        slice_index_or coefficients.new j (pos 0)
        ≡ binomial_sum (length coefficients.old - 1) (vector_of coefficients.old) j }
{
    let mut len = coefficients.len();
    while len > 0 {
        divide(&mut coefficients[..len]);
        len -= 1;
    }
}
