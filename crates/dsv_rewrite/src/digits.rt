// A product by a constant is a sum of shifted copies of the other factor. The constant is written
// with signed digits -1, 0 and 1 of which of two neighbours one is 0, the non-adjacent form
// (Reitwiesner, 1960): no such writing has fewer digits that aren't 0, and so no sum fewer copies.
// A digit is taken from the lowest two bits of what is left of the constant.
ghost use Rattle.std.specs.Prelude.{◌≡◌, ◌<◌, ◌*◌, length, IfOk};
ghost use Rattle.dsv_term.specs.Building.{built_of};
ghost use Rattle.dsv_term.specs.Growth.{AreSound};
ghost use Rattle.dsv_term.specs.Terms.{width_of};
ghost use Rattle.dsv_term.specs.Word.{IsWidth};
ghost use Rattle.dsv_rewrite.specs.Digits.{lowest_digit, above_digit, shifted_term};
ghost use Rattle.dsv_rewrite.specs.Digits.{with_added, with_taken, with_digit, copies_term};
ghost use Rattle.dsv_rewrite.specs.Digits.{multiple_term};
ghost use Rattle.dsv_rewrite.specs.Ready.{copies_of, multiple_of, AreCopies, IsSmall};

use crate::constants::constant_term;
use crate::pairs::{difference_term, joined_term, negation_term, sum_term};
use crate::part::{Part, part_term};
use dsv_base::NoMemory;
use dsv_term::{TermId, Terms, Word};

/// A signed digit.
#[derive(Clone, Copy, Debug, PartialEq, Eq)]
pub(crate) enum Digit {
    /// -1.
    Minus,
    Zero,
    Plus,
}

/// The sum of copies so far.
#[derive(Clone, Copy, Debug)]
enum Copies {
    None,
    Sum(TermId),
    /// The negation of this term.
    NegatedSum(TermId),
}

/// The lowest signed digit of a number.
fn lowest_digit(number: &i128) -> Digit
    ensures { result ≡ lowest_digit number.now }
{
    match number.rem_euclid(4) {
        1 => Digit::Plus,
        3 => Digit::Minus,
        _ => Digit::Zero,
    }
}

/// The number without its lowest digit, halved.
fn above_digit(number: &i128) -> i128
    requires { IsSmall number.now }
    ensures { result ≡ above_digit number.now }
{
    let rest = match lowest_digit(number) {
        Digit::Minus => *number + 1,
        Digit::Zero => *number,
        Digit::Plus => *number - 1,
    };
    rest.div_euclid(2)
}

/// The term, so many bits higher.
fn shifted_term(terms: &mut Terms, width: u32, shift: u32, a: TermId) -> Result<TermId, NoMemory>
    requires sound { AreSound terms.old }
    requires stands { a.0 < length terms.old.nodes }
    requires wide { width_of terms.old a ≡ width }
    requires inside { shift < width }
    ensures { IfOk result (λ id. built_of terms.new id ≡ shifted_term terms.old width shift a) }
{
    if shift == 0 {
        return Ok(a);
    }
    let low = Part {
        of: a,
        high: width - 1 - shift,
        low: 0,
    };
    let low = part_term(terms, width - shift, low)?;
    let zeros = Word {
        width: shift,
        number: 0,
    };
    let zeros = constant_term(terms, zeros)?;
    joined_term(terms, low, zeros)
}

/// One copy more is added.
fn with_added(terms: &mut Terms, copy: TermId, copies: Copies) -> Result<Copies, NoMemory>
    requires sound { AreSound terms.old }
    requires stands { copy.0 < length terms.old.nodes }
    requires copies { AreCopies terms.old (copies_of copies) (width_of terms.old copy) }
    ensures { IfOk result (λ new. multiple_of terms.new (copies_of new)
        ≡ with_added (built_of terms.old copy) (copies_of copies)) }
{
    match copies {
        Copies::None => Ok(Copies::Sum(copy)),
        Copies::Sum(a) => Ok(Copies::Sum(sum_term(terms, a, copy)?)),
        Copies::NegatedSum(a) => Ok(Copies::Sum(difference_term(terms, copy, a)?)),
    }
}

/// One copy more is taken away.
fn with_taken(terms: &mut Terms, copy: TermId, copies: Copies) -> Result<Copies, NoMemory>
    requires sound { AreSound terms.old }
    requires stands { copy.0 < length terms.old.nodes }
    requires copies { AreCopies terms.old (copies_of copies) (width_of terms.old copy) }
    ensures { IfOk result (λ new. multiple_of terms.new (copies_of new)
        ≡ with_taken (built_of terms.old copy) (copies_of copies)) }
{
    match copies {
        Copies::None => Ok(Copies::NegatedSum(copy)),
        Copies::Sum(a) => Ok(Copies::Sum(difference_term(terms, a, copy)?)),
        Copies::NegatedSum(a) => Ok(Copies::NegatedSum(sum_term(terms, a, copy)?)),
    }
}

/// One digit more: only a digit that isn't 0 has a copy.
fn with_digit(
    terms: &mut Terms,
    digit: Digit,
    shift: u32,
    a: TermId,
    copies: Copies,
) -> Result<Copies, NoMemory>
    requires sound { AreSound terms.old }
    requires stands { a.0 < length terms.old.nodes }
    requires inside { shift < width_of terms.old a }
    requires copies { AreCopies terms.old (copies_of copies) (width_of terms.old a) }
    ensures { IfOk result (λ new. multiple_of terms.new (copies_of new)
        ≡ with_digit digit (width_of terms.old a) shift a
        (multiple_of terms.old (copies_of copies))) }
{
    let width = terms.width(a);
    match digit {
        Digit::Minus => {
            let copy = shifted_term(terms, width, shift, a)?;
            with_taken(terms, copy, copies)
        }
        Digit::Zero => Ok(copies),
        Digit::Plus => {
            let copy = shifted_term(terms, width, shift, a)?;
            with_added(terms, copy, copies)
        }
    }
}

/// The sum of all copies.
fn copies_term(terms: &mut Terms, width: u32, copies: Copies) -> Result<TermId, NoMemory>
    requires sound { AreSound terms.old }
    requires width { IsWidth width }
    requires copies { AreCopies terms.old (copies_of copies) width }
    ensures { IfOk result
        (λ id. built_of terms.new id ≡ copies_term terms.old width (copies_of copies)) }
{
    match copies {
        Copies::None => terms.constant(width, 0),
        Copies::Sum(a) => Ok(a),
        Copies::NegatedSum(a) => negation_term(terms, a),
    }
}

/// A term as often as a number says, modulo 2 to its width: a sum of shifted copies.
pub(crate) fn multiple_term(terms: &mut Terms, coeff: i64, a: TermId) -> Result<TermId, NoMemory>
    requires sound { AreSound terms.old }
    requires stands { a.0 < length terms.old.nodes }
    ensures { IfOk result (λ id. built_of terms.new id ≡ multiple_term terms.old coeff a) }
{
    let width = terms.width(a);
    let mut rest = i128::from(coeff);
    let mut copies = Copies::None;
    for shift in 0..width {
        copies = with_digit(terms, lowest_digit(&rest), shift, a, copies)?;
        rest = above_digit(&rest);
    }
    copies_term(terms, width, copies)
}
