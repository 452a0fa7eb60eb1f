// Fractions in lowest terms.
use crate::compare::compare_ratios;
use crate::divisor::{cancel, with_sign};
use crate::wholes::{product, size_product, sum};
use arrayvec::ArrayVec;
use std::cmp::Ordering;
use std::marker::Model;
use thiserror::Error;

/// The least size that no part of a fraction may have.
pub(crate) const PART_LIMIT: u128 = 1 << 127;

/// A part of the exact result has a size of 2^127 or more.
#[derive(Clone, Copy, Debug, PartialEq, Eq, Error)]
#[error("a part of the exact result has a size of 2^127 or more")]
pub struct TooWide;

/// An exact fraction in lowest terms. Its denominator is positive, and both parts are below 2^127
/// in size.
#[derive(Clone, Copy, Debug, PartialEq, Eq)]
pub struct Frac {
    num: i128,
    den: i128,
}

/// The most coefficients of a list of them.
pub const MOST_COEFFICIENTS: usize = 9;

/// Up to `MOST_COEFFICIENTS` fractions.
pub type FracList = ArrayVec<Frac, MOST_COEFFICIENTS>;

impl Model for Frac {
    ghost use Rattle.std.specs.Prelude.{pos, ◌<ℤ◌};
    ghost use Rattle.std.specs.Int.RustNames.{unsigned_abs};
    ghost use Rattle.dsv_fraction.specs.Ratio.{Ratio, IsLowest};

    ghost Value = { Ratio };

    ghost use Rattle.dsv_fraction.specs.Inside.{inside_of, same_inside};

    ghost view = { λ f. record { num = f.num; den = unsigned_abs f.den } };

    ghost invariant = { λ f. (pos 0 <ℤ f.den)
        × IsLowest (record { num = f.num; den = unsigned_abs f.den }) };

    ghost inverse = { λ r. inside_of r };

    ghost inverse_ok = { λ a h. same_inside a h.0 };
}

impl Default for Frac {
    ghost use Rattle.std.specs.Prelude.{◌≡◌, pos};

    ghost is_default = { λ f. f ≡ record { num = pos 0; den = 1 } };

    /// The number 0.
    fn default() -> Self {
        Frac { num: 0, den: 1 }
    }
}

impl From<i64> for Frac {
    ghost use Rattle.std.specs.Prelude.{◌≡◌};

    ghost from_gives = { λ value f. f ≡ record { num = value; den = 1 } };

    fn from(value: i64) -> Self {
        Frac {
            num: i128::from(value),
            den: 1,
        }
    }
}

/// The sign and the sizes of both parts.
#[derive(Clone, Copy)]
struct Parts {
    negative: bool,
    num: u128,
    den: u128,
}

impl Frac {
    ghost use Rattle.std.specs.Prelude.{◌≡◌, ◌≢◌, ◌<◌, ◌^◌, ◌*◌, ℤ, pos};
    ghost use Rattle.std.specs.Prelude.{◌*ℤ◌, ◌+ℤ◌, ◌-ℤ◌, IfOk};
    ghost use Rattle.std.specs.Int.RustNames.{unsigned_abs};
    ghost use Rattle.dsv_fraction.specs.Ratio.{IsLowest, part_limit};
    ghost use Rattle.dsv_fraction.specs.Arithmetic.{with_sign, in_lowest_terms, over, times};
    ghost use Rattle.dsv_fraction.specs.Arithmetic.{quotient, opposite, order_between};
    ghost use Rattle.dsv_fraction.specs.Arithmetic.{bounded_ratio, sum_of, difference_of};
    ghost use Rattle.dsv_fraction.specs.Parts.{ArePartsOf, AreCoprime, differ};

    fn den_size(&self) -> u128
        ensures value { result ≡ self.now.den }
        ensures positive { 0 < result }
        ensures narrow { result < part_limit }
    {
        self.den.unsigned_abs()
    }

    fn parts(&self) -> Parts
        ensures { ArePartsOf self.now result.negative result.num result.den }
    {
        Parts {
            negative: self.num < 0,
            num: self.num.unsigned_abs(),
            den: self.den.unsigned_abs(),
        }
    }

    /// The fraction of these sizes, which have no common factor and are below 2^127, negative or
    /// not.
    fn of_sizes(negative: bool, num: u128, den: u128) -> Frac
        requires coprime { AreCoprime num den }
        requires narrow_num { num < part_limit }
        requires narrow_den { den < part_limit }
        ensures { result ≡ record { num = with_sign negative num; den = den } }
    {
        Frac {
            num: with_sign(negative, num),
            den: with_sign(false, den),
        }
    }

    /// The fraction of these sizes, which have no common factor, negative or not.
    fn exact_fraction(negative: bool, num: u128, den: u128) -> Result<Frac, TooWide>
        requires { AreCoprime num den }
        ensures { result ≡ bounded_ratio (record { num = with_sign negative num; den = den }) }
    {
        if num >= PART_LIMIT || den >= PART_LIMIT {
            return Err(TooWide);
        }
        Ok(Frac::of_sizes(negative, num, den))
    }

    /// The fraction of these sizes in lowest terms, negative or not.
    fn bounded_fraction(negative: bool, num: u128, den: u128) -> Result<Frac, TooWide>
        requires { 0 < den }
        ensures { result ≡ bounded_ratio (in_lowest_terms (with_sign negative num) den) }
    {
        let parts = cancel(num, den);
        Frac::exact_fraction(negative, parts.num, parts.den)
    }

    /// The fraction `num / den` in lowest terms, or TooWide where a part of it has a size of 2^127
    /// or more.
    pub fn new(num: i128, den: i128) -> Result<Frac, TooWide>
        requires { den ≢ pos 0 }
        ensures exact { result ≡ bounded_ratio (over num den) }
        ensures value { IfOk result (λ r. r.num *ℤ den ≡ num *ℤ pos r.den) }
    {
        Frac::bounded_fraction(
            (num < 0) != (den < 0),
            num.unsigned_abs(),
            den.unsigned_abs(),
        )
    }

    /// The numerator, which has the fraction's sign.
    pub fn num(&self) -> i128
        ensures { result ≡ self.now.num }
    {
        self.num
    }

    /// The denominator, which is positive.
    pub fn den(&self) -> i128
        ensures { result ≡ pos self.now.den }
    {
        self.den
    }

    /// The numerator and the denominator.
    pub fn to_parts(&self) -> (i128, i128)
        ensures num { result.0 ≡ self.now.num }
        ensures den { result.1 ≡ pos self.now.den }
        ensures lowest { IsLowest self.now }
    {
        (self.num, self.den)
    }

    /// The whole number of that size, negative or not.
    pub(crate) fn whole_number(negative: bool, size: u128) -> Frac
        requires { size < part_limit }
        ensures { result ≡ record { num = with_sign negative size; den = 1 } }
    {
        Frac::of_sizes(negative, size, 1)
    }

    /// One tenth.
    pub(crate) fn tenth() -> Frac
        ensures { result ≡ record { num = pos 1; den = 10 } }
    {
        Frac::of_sizes(false, 1, 10)
    }

    /// The fraction of these parts in lowest terms.
    fn in_lowest_terms(num: i128, den: u128) -> Frac
        requires positive { 0 < den }
        requires narrow_num { unsigned_abs num < part_limit }
        requires narrow_den { den < part_limit }
        ensures { result ≡ in_lowest_terms num den }
    {
        let parts = cancel(num.unsigned_abs(), den);
        Frac::of_sizes(num < 0, parts.num, parts.den)
    }

    /// The product of two fractions. What they have in common crosswise goes before the
    /// multiplication, so a product that doesn't fit here doesn't fit in lowest terms.
    fn product_of(own: Parts, its: Parts) -> Result<Frac, TooWide>
        requires own { AreCoprime own.num own.den }
        requires its { AreCoprime its.num its.den }
        ensures { let num = with_sign (differ own.negative its.negative) (own.num * its.num) in
            result ≡ bounded_ratio (in_lowest_terms num (own.den * its.den)) }
    {
        let first = cancel(own.num, its.den);
        let second = cancel(its.num, own.den);
        let Some(num) = first.num.checked_mul(second.num) else {
            return Err(TooWide);
        };
        let Some(den) = second.den.checked_mul(first.den) else {
            return Err(TooWide);
        };
        Frac::exact_fraction(own.negative != its.negative, num, den)
    }

    /// The product.
    pub fn mul(&self, other: &Frac) -> Result<Frac, TooWide>
        ensures exact { result ≡ bounded_ratio (times self.now other.now) }
        ensures value { IfOk result (λ r.
            r.num *ℤ pos (self.now.den * other.now.den)
            ≡ self.now.num *ℤ other.now.num *ℤ pos r.den) }
    {
        Frac::product_of(self.parts(), other.parts())
    }

    /// The quotient.
    pub fn div(&self, other: &Frac) -> Result<Frac, TooWide>
        requires { other.now.num ≢ pos 0 }
        ensures exact { result ≡ bounded_ratio (quotient self.now other.now) }
        ensures value { IfOk result (λ r.
            r.num *ℤ (pos self.now.den *ℤ other.now.num)
            ≡ self.now.num *ℤ pos other.now.den *ℤ pos r.den) }
    {
        let divisor = other.parts();
        let inverse = Parts {
            negative: divisor.negative,
            num: divisor.den,
            den: divisor.num,
        };
        Frac::product_of(self.parts(), inverse)
    }

    /// The sum, by way of the least common denominator.
    pub fn add(&self, other: &Frac) -> Result<Frac, TooWide>
        ensures exact { result ≡ sum_of self.now other.now }
        ensures value { let total =
            self.now.num *ℤ pos other.now.den +ℤ other.now.num *ℤ pos self.now.den in
            IfOk result (λ r. r.num *ℤ pos (self.now.den * other.now.den) ≡ total *ℤ pos r.den) }
    {
        let scale = cancel(self.den_size(), other.den_size());
        let den = size_product(self.den_size(), scale.den)?;
        let left = product(self.num(), with_sign(false, scale.den))?;
        let right = product(other.num(), with_sign(false, scale.num))?;
        Ok(Frac::in_lowest_terms(sum(left, right)?, den))
    }

    /// The fraction of the other sign.
    fn neg(&self) -> Frac
        ensures { result ≡ opposite self.now }
    {
        let parts = self.parts();
        Frac::of_sizes(!parts.negative, parts.num, parts.den)
    }

    /// The difference.
    pub fn sub(&self, other: &Frac) -> Result<Frac, TooWide>
        ensures exact { result ≡ difference_of self.now other.now }
        ensures value { let total =
            self.now.num *ℤ pos other.now.den -ℤ other.now.num *ℤ pos self.now.den in
            IfOk result (λ r. r.num *ℤ pos (self.now.den * other.now.den) ≡ total *ℤ pos r.den) }
    {
        self.add(&other.neg())
    }

    /// How the fractions stand to one another.
    pub fn cmp(&self, other: &Frac) -> Ordering
        ensures { result ≡ order_between self.now other.now }
    {
        let own = self.parts();
        let its = other.parts();
        match (own.negative, its.negative) {
            (false, false) => compare_ratios(own.num, own.den, its.num, its.den),
            (true, true) => compare_ratios(its.num, its.den, own.num, own.den),
            (true, false) => Ordering::Less,
            (false, true) => Ordering::Greater,
        }
    }
}
