// The polynomial that is tested.
//
// From words to the polynomial whose roots decide. In the delta forms the words are coefficients of
// powers of (z - 1) / delta, and are expanded to powers of z first. Leading zeros, a common power
// of two and the sign of the first coefficient don't move a root, and are taken out in this order,
// so that the numbers are small and the same polynomial has one list.
#![tactic(auto, using(dsv_algebra::proofs::Casts::casts))]

ghost use Rattle.std.specs.Prelude.{◌≡◌, ◌<◌, ◌≤◌, length, All, MatchResult, IfOk, Ok, Err};
ghost use Rattle.std.specs.Prelude.{Some, None};
ghost use Rattle.std.specs.Int.RustNames.{unsigned_abs};
ghost use Rattle.dsv_forms.specs.Poly.{IsPoly, most_coefficients};
ghost use Rattle.dsv_delta.specs.ZCoefficients.{greatest_word};
ghost use Rattle.dsv_quantiser.specs.QuantisedView.{IsQuantisedView};
ghost use Rattle.dsv_tested.specs.declared.side.Side.TheVariants.{Numerator};
ghost use Rattle.dsv_tested.specs.declared.side.Tested.TheVariants.{NoZeros};
ghost use Rattle.dsv_tested.specs.Tested.{words_of, z_list, tested_list, tested_of};
ghost use Rattle.dsv_tested.specs.Tested.{first_over, with_positive_lead};
ghost use Rattle.dsv_tested.specs.Lead.{lead_size};

use crate::common_twos::without_common_twos;
use crate::list::{coefficients, with_positive_lead, without_leading_zeros};
use crate::side::{Side, Tested};
use dsv_delta::{PolyWide, ZCoeffs, z_poly};
use dsv_forms::Poly;
use dsv_quantiser::Quantised;

/// The words of a side.
#[tactic(auto, using(crate::proofs::WordSizes::sizes))]
fn side_words(quantised: &Quantised, side: Side) -> &[i64]
    ensures same { result.now ≡ words_of quantised.now side }
    ensures some { 1 ≤ length result.now }
    ensures few { length result.now ≤ most_coefficients }
    ensures small { All (λ w. unsigned_abs w ≤ greatest_word) result.now }
{
    match side {
        Side::Denominator => quantised.a(),
        Side::Numerator => quantised.b(),
    }
}

/// The same numbers.
fn numbers_of(words: &[i64]) -> ZCoeffs
    requires few { length words.now ≤ most_coefficients }
    ensures { result.items ≡ words.now }
{
    let mut list = ZCoeffs::new();
    for word in words {
        list.push(i128::from(*word));
    }
    list
}

/// The coefficients in z of a side, those of the highest power first; or the least index at which
/// a number on the way passes 2^110.
pub fn z_list(quantised: &Quantised, side: Side) -> Result<ZCoeffs, PolyWide>
    ensures exact { let meant = z_list quantised.now (words_of quantised.now side) in
        MatchResult result (λ found. meant ≡ Ok found.items) (λ refusal. meant ≡ Err refusal) }
    ensures quantised { IsQuantisedView quantised.now }
{
    let list = side_words(quantised, side);
    if quantised.realisation().is_delta() {
        z_poly(list, quantised.delta(), quantised.format().frac_bits)
    } else {
        Ok(numbers_of(list))
    }
}

/// The polynomial with these coefficients.
fn polynomial(list: &[i64]) -> Poly
    requires { IsPoly list.now }
    ensures { result ≡ list.now }
{
    match Poly::new(list) {
        Ok(poly) => poly,
        Err(_) => unreachable!(),
    }
}

/// The polynomial with these coefficients, of which the first isn't 0, all signs changed where it
/// is negative; or the least index of a number over 2^44 in size.
#[tactic(auto, using(crate::proofs::Signs::positive_poly))]
pub fn poly_of(list: &[i128]) -> Result<Poly, PolyWide>
    requires few { length list.now ≤ most_coefficients }
    requires lead { 0 < lead_size list.now }
    ensures exact { MatchResult result
        (λ poly. (first_over 0 list.now ≡ None) × (poly ≡ with_positive_lead list.now))
        (λ refusal. first_over 0 list.now ≡ Some refusal.index) }
    ensures poly { IfOk result IsPoly }
{
    let found = with_positive_lead(coefficients(list)?);
    Ok(polynomial(found.as_slice()))
}

/// The polynomial of a list that is empty or begins with a number that isn't 0.
#[tactic(auto, using(crate::proofs::ListPolynomials::list_polynomials))]
pub(crate) fn tested_list(list: &[i128]) -> Result<Tested, PolyWide>
    requires few { length list.now ≤ most_coefficients }
    requires lead { 0 < length list.now → 0 < lead_size list.now }
    ensures exact { MatchResult result (λ found. tested_list list.now ≡ Ok found)
        (λ refusal. tested_list list.now ≡ Err refusal) }
{
    if list.is_empty() {
        return Ok(Tested::NoZeros);
    }
    let reduced = without_common_twos(list);
    Ok(Tested::Poly(poly_of(reduced.as_slice())?))
}

/// The polynomial that is tested for a side of a quantised controller: its coefficients in z from
/// the first that isn't 0 on, the first of them positive, with the greatest power of two that
/// divides all of them taken out; or that they are all 0, which those of a denominator never are.
/// In a direct form they are the side's words, in a delta form those of the polynomial in z that
/// the words stand for. It takes no memory.
///
/// # Errors
///
/// Where a number on the way to the coefficients in z passes 2^110, the least index of one;
/// otherwise, where a coefficient of the polynomial is over 2^44 in size, the least index of one,
/// which doesn't count the leading zeros.
pub fn polynomial_of(quantised: &Quantised, side: Side) -> Result<Tested, PolyWide>
    ensures exact { MatchResult result (λ found. tested_of quantised.now side ≡ Ok found)
        (λ refusal. tested_of quantised.now side ≡ Err refusal) }
    // a denominator always has a polynomial
    ensures denominator { IfOk result (λ found. found ≡ NoZeros → side ≡ Numerator) }
{
    let list = z_list(quantised, side)?;
    tested_list(without_leading_zeros(list.as_slice()))
}
