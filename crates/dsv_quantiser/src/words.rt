// Coefficients as words.
#![tactic(auto, using(dsv_algebra::proofs::Casts::casts))]

ghost use Rattle.dsv_word.specs.Words.{IsWord};
ghost use Rattle.std.specs.Prelude.{◌≡◌, ◌+◌, ◌≤◌, ◌<◌, length, drop};
ghost use Rattle.std.specs.Prelude.{[], ◌∷◌, MatchResult, Ok, Err, IfOk};
ghost use Rattle.dsv_fraction.specs.Ratio.{most_coefficients};
ghost use Rattle.dsv_quantiser.specs.QuantisedView.{unit};
ghost use Rattle.dsv_quantiser.specs.Meaning.{IsWordOf};
ghost use Rattle.dsv_quantiser.specs.Parts.{AreWordsOf};
ghost use Rattle.dsv_quantiser.specs.Quantising.{or_wide, fitting_word, word_at};
ghost use Rattle.dsv_quantiser.specs.Quantising.{words_from, a_words, b_words};

use crate::refusal::QuantRefusal;
use arrayvec::ArrayVec;
use dsv_fraction::{Frac, TooWide};
use dsv_names::ListName;
use dsv_word::Format;

/// The most coefficients that a list has.
pub const MOST_COEFFICIENTS: usize = 9;

/// Up to nine coefficients as words.
pub type Coeffs = ArrayVec<i64, MOST_COEFFICIENTS>;

/// The whole number that was made of a fraction.
pub(crate) fn or_wide(
    list: ListName,
    index: u32,
    made: Result<i128, TooWide>,
) -> Result<i128, QuantRefusal>
    ensures value { result ≡ or_wide list index made }
    ensures made { IfOk result (λ whole. made ≡ Ok whole) }
{
    match made {
        Ok(whole) => Ok(whole),
        Err(_) => Err(QuantRefusal::FractionWide { list, index }),
    }
}

/// The word of the number 1, whether or not it is a word of the format.
#[tactic(auto, using(dsv_word::proofs::Powers::power_small))]
fn unit(format: Format) -> i64
    ensures { result ≡ unit format }
{
    1i64 << format.frac_bits
}

/// The number as a word of the format, where it is one.
pub(crate) fn fitting_word(
    format: Format,
    list: ListName,
    index: u32,
    wanted: i128,
) -> Result<i64, QuantRefusal>
    ensures value { result ≡ fitting_word format list index wanted }
    ensures meaning { IfOk result (λ word. (word ≡ wanted) × IsWord format word) }
{
    if format.fits(wanted) {
        Ok(wanted as i64)
    } else {
        Err(QuantRefusal::CoefficientRange {
            list,
            index,
            wanted,
        })
    }
}

/// The word of the fraction, which is that number of its list.
fn word_at(format: Format, list: ListName, index: u32, fraction: &Frac) -> Result<i64, QuantRefusal>
    ensures value { result ≡ word_at format list index fraction.now }
    ensures meaning { IfOk result (IsWordOf format fraction.now) }
{
    let made = format.round_frac(fraction);
    let wanted = or_wide(list, index, made)?;
    fitting_word(format, list, index, wanted)
}

/// The words of the fractions after those of `prefix`.
fn words_from(
    format: Format,
    list: ListName,
    fractions: &[Frac],
    prefix: Coeffs,
) -> Result<Coeffs, QuantRefusal>
    requires { length prefix.items + length fractions.now ≤ most_coefficients }
    ensures value { let meant = words_from format list fractions.now prefix.items in
        MatchResult result (λ words. meant ≡ Ok words.items) (λ refusal. meant ≡ Err refusal) }
    ensures meaning { IfOk result
        (λ words. AreWordsOf format fractions.now prefix.items words.items) }
{
    let mut out = prefix;
    for fraction in fractions {
        let word = word_at(format, list, out.len() as u32, fraction)?;
        out.push(word);
    }
    Ok(out)
}

/// The words of the numerator, which has at most nine coefficients: each is its coefficient times
/// 2^frac_bits, made whole as the format rounds.
///
/// # Errors
///
/// At the first coefficient that has none, as one of the list b: `FractionWide`, and else
/// `CoefficientRange`.
pub fn b_words(format: Format, b: &[Frac]) -> Result<Coeffs, QuantRefusal>
    requires { length b.now ≤ most_coefficients }
    ensures value { let meant = b_words format b.now in
        MatchResult result (λ words. meant ≡ Ok words.items) (λ refusal. meant ≡ Err refusal) }
    ensures meaning { IfOk result (λ words. AreWordsOf format b.now [] words.items) }
{
    words_from(format, ListName::B, b, Coeffs::new())
}

/// The words of the denominator, whose leading coefficient is 1 and isn't tested.
pub(crate) fn a_words(format: Format, a: &[Frac]) -> Result<Coeffs, QuantRefusal>
    requires some { 1 ≤ length a.now }
    requires few { length a.now ≤ most_coefficients }
    ensures value { let meant = a_words format a.now in
        MatchResult result (λ words. meant ≡ Ok words.items) (λ refusal. meant ≡ Err refusal) }
    ensures meaning { IfOk result
        (λ words. AreWordsOf format (drop 1 a.now) (unit format ∷ []) words.items) }
{
    let mut prefix = Coeffs::new();
    prefix.push(unit(format));
    words_from(format, ListName::A, &a[1..], prefix)
}
