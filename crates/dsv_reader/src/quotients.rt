// Coefficients, as they stand or divided by the leading one.
ghost use Rattle.std.specs.Prelude.{◌≡◌, ◌≢◌, ◌<◌, ◌≤◌, length, pos};
ghost use Rattle.std.specs.Prelude.{IfOk, Ok, Err, MatchResult};
ghost use Rattle.dsv_fraction.specs.Arithmetic.{bounded_ratio, quotient};
ghost use Rattle.dsv_reader.specs.Limits.{most_coefficients};
ghost use Rattle.dsv_reader.specs.Reading.{size_test, BeginsWith, leading_coefficient};
ghost use Rattle.dsv_reader.specs.Reading.{by_quotient, divided_list, values_in, padded_list};

use crate::lists::Coefficients;
use crate::numbers::{Coefficient, SpelledNumber};
use dsv_fraction::{Frac, FracList};
use dsv_token::FileRefusal;

/// Tests that the size is the list's length.
pub(crate) fn size_test(size: SpelledNumber, list: &Coefficients) -> Result<(), FileRefusal>
    ensures { result ≡ size_test size list.now }
{
    if size.value == list.as_slice().len() as u64 {
        Ok(())
    } else {
        Err(FileRefusal::SizeMismatch { at: size.at as u64 })
    }
}

/// The leading coefficient, which isn't 0.
pub(crate) fn leading_coefficient(list: &Coefficients) -> Result<Frac, FileRefusal>
    ensures value { result ≡ leading_coefficient list.now }
    ensures apart { IfOk result (λ q. q.num ≢ pos 0) }
    ensures positive { IfOk result (λ q. 0 < q.den) }
    ensures some { IfOk result (λ _. 1 ≤ length list.now) }
    ensures first { IfOk result (λ q. BeginsWith q list.now) }
{
    let [first, ..] = list.as_slice() else {
        return Err(FileRefusal::LeadingZero { at: 0 });
    };
    let (num, _den) = first.value.to_parts();
    if num == 0 {
        return Err(FileRefusal::LeadingZero {
            at: first.at as u64,
        });
    }
    Ok(first.value)
}

/// A coefficient divided by the leading one.
fn quotient(coefficient: &Coefficient, divisor: &Frac) -> Result<Frac, FileRefusal>
    requires { divisor.now.num ≢ pos 0 }
    ensures { result ≡ by_quotient coefficient.now.at
        (bounded_ratio (quotient coefficient.now.value divisor.now)) }
{
    match coefficient.value.div(divisor) {
        Ok(quotient) => Ok(quotient),
        Err(_) => Err(FileRefusal::FractionWide {
            at: coefficient.at as u64,
        }),
    }
}

/// The coefficients divided by the leading one.
pub(crate) fn divided_list(divisor: &Frac, list: &Coefficients) -> Result<FracList, FileRefusal>
    requires { divisor.now.num ≢ pos 0 }
    ensures value { MatchResult result (λ v. divided_list divisor.now list.now ≡ Ok v.items)
        (λ r. divided_list divisor.now list.now ≡ Err r) }
    ensures places { IfOk result (λ v. length v.items ≡ length list.now) }
    ensures few { length list.now ≤ most_coefficients }
{
    let mut quotients = FracList::new();
    for coefficient in list.as_slice() {
        match quotient(coefficient, divisor) {
            Ok(quotient) => quotients.push(quotient),
            Err(refusal) => return Err(refusal),
        }
    }
    Ok(quotients)
}

/// The coefficients as they stand.
pub(crate) fn values_in(list: &Coefficients) -> FracList
    ensures value { result.items ≡ values_in list.now }
    ensures places { length result.items ≡ length list.now }
    ensures few { length list.now ≤ most_coefficients }
{
    let mut values = FracList::new();
    for coefficient in list.as_slice() {
        values.push(coefficient.value);
    }
    values
}

/// The list with zeros after it up to `count` entries.
pub(crate) fn padded_list(list: FracList, count: usize) -> FracList
    requires room { length list.items ≤ count }
    requires few { count ≤ most_coefficients }
    ensures value { result.items ≡ padded_list count list.items }
    ensures places { length result.items ≡ count }
{
    let mut list = list;
    for _ in list.len()..count {
        list.push(Frac::default());
    }
    list
}
