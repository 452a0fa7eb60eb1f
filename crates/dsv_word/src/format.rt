// The format of words.
#![tactic(auto, using(dsv_algebra::proofs::Casts::casts))]

ghost use Rattle.dsv_word.specs.Width.{IsLawful};

use crate::whole::{ceiling_of, floor_of, nearest_to, shift};
use crate::word::{power, saturate, wrap};
use dsv_fraction::{Frac, TooWide};
use dsv_names::{OverflowMode, Rounding};
use thiserror::Error;

/// The most bits that a word has.
pub const WIDEST_WORD: u32 = 48;

/// The widths aren't lawful.
#[derive(Clone, Copy, Debug, PartialEq, Eq, Error)]
#[error("a word has at least one bit before the point, and 2 to {WIDEST_WORD} bits in all")]
pub struct BadWidth;

/// The format of words in two's complement: `int_bits` bits before the point, the sign among them,
/// and `frac_bits` after it, together 2 to `WIDEST_WORD`. The word `w` stands for `w /
/// 2^frac_bits`.
#[derive(Clone, Copy, Debug, PartialEq, Eq)]
pub struct Format {
    pub int_bits: u32,
    pub frac_bits: u32,
    pub rounding: Rounding,
    pub overflow: OverflowMode,
    ghost lawful: { IsLawful int_bits frac_bits },
}

impl Format {
    ghost use Rattle.std.specs.Prelude.{◌≡◌, ◌≤◌, ◌<◌, ◌^◌, ◌↔◌, IsOk};
    ghost use Rattle.std.specs.Prelude.{IfOk, IsTrue, ◌≤ℤ◌, ◌*ℤ◌, pos};
    ghost use Rattle.std.specs.Int.RustNames.{unsigned_abs};
    ghost use Rattle.dsv_fraction.specs.Arithmetic.{times, bounded_ratio};
    ghost use Rattle.dsv_word.specs.Width.{IsLawful, widest_word};
    ghost use Rattle.dsv_word.specs.Words.{width, lo, hi, fit, IsFitted};
    ghost use Rattle.dsv_algebra.specs.Floor.{IsFloor, floor_of};
    ghost use Rattle.dsv_algebra.specs.Narrow.{narrow_limit};
    ghost use Rattle.dsv_word.specs.Quotients.{ceiling_of, whole_shift, rounded_quotient, word_of};
    ghost use Rattle.dsv_word.specs.Quotients.{IsCeiling, IsShifted, IsRounded};

    /// The format of these widths, in bits, and modes.
    pub fn new(
        int_bits: u32,
        frac_bits: u32,
        rounding: Rounding,
        overflow: OverflowMode,
    ) -> Result<Format, BadWidth>
        ensures lawful { IsOk result ↔ IsLawful int_bits frac_bits }
        ensures widths { IfOk result (λ f. (f.int_bits ≡ int_bits) × (f.frac_bits ≡ frac_bits)) }
        ensures modes { IfOk result (λ f. (f.rounding ≡ rounding) × (f.overflow ≡ overflow)) }
    {
        match int_bits.checked_add(frac_bits) {
            Some(bits) if int_bits >= 1 && bits >= 2 && bits <= WIDEST_WORD => Ok(Format {
                int_bits,
                frac_bits,
                rounding,
                overflow,
            }),
            _ => Err(BadWidth),
        }
    }

    /// The number of bits.
    pub fn width(&self) -> u32
        ensures value { result ≡ width self.now }
        ensures least { 2 ≤ result }
        ensures greatest { result ≤ widest_word }
    {
        self.int_bits + self.frac_bits
    }

    /// The least word.
    pub fn lo(&self) -> i64
        ensures { result ≡ lo (width self.now) }
    {
        -power(self.width() - 1)
    }

    /// The greatest word.
    pub fn hi(&self) -> i64
        ensures { result ≡ hi (width self.now) }
    {
        power(self.width() - 1) - 1
    }

    /// Whether the number is a word.
    pub fn fits(&self, v: i128) -> bool
        ensures { IsTrue result ↔ (lo (width self.now) ≤ℤ v) × (v ≤ℤ hi (width self.now)) }
    {
        i128::from(self.lo()) <= v && v <= i128::from(self.hi())
    }

    /// The word that the number becomes.
    pub fn fit(&self, v: i128) -> i64
        ensures word { result ≡ fit self.now.overflow (width self.now) v }
        ensures meaning { IsFitted self.now.overflow (width self.now) v result }
    {
        match self.overflow {
            OverflowMode::Wrap => wrap(v, self.width()),
            OverflowMode::Saturate => saturate(v, self.lo(), self.hi()),
        }
    }

    /// `v / 2^frac_bits` made whole.
    pub fn round_shift(&self, v: i128) -> i128
        requires { unsigned_abs v < narrow_limit }
        ensures value { result ≡ whole_shift self.now.rounding self.now.frac_bits v }
        ensures meaning { IsShifted self.now.rounding self.now.frac_bits v result }
    {
        shift(v, self.frac_bits, self.rounding)
    }

    /// `q * 2^frac_bits` in lowest terms.
    fn in_units(&self, q: &Frac) -> Result<Frac, TooWide>
        ensures positive { 0 < q.now.den }
        ensures value { result ≡ bounded_ratio
            (times q.now (record { num = pos (2 ^ self.now.frac_bits); den = 1 })) }
    {
        let _parts = q.to_parts();
        q.mul(&Frac::from(power(self.frac_bits)))
    }

    /// The greatest whole number that isn't above `q * 2^frac_bits`.
    pub fn floor_frac(&self, q: &Frac) -> Result<i128, TooWide>
        ensures value { result ≡ word_of floor_of self.now.frac_bits q.now }
        ensures meaning { IfOk result
            (IsFloor (q.now.num *ℤ pos (2 ^ self.now.frac_bits)) q.now.den) }
    {
        Ok(floor_of(&self.in_units(q)?))
    }

    /// The least whole number that isn't below `q * 2^frac_bits`.
    pub fn ceil_frac(&self, q: &Frac) -> Result<i128, TooWide>
        ensures value { result ≡ word_of ceiling_of self.now.frac_bits q.now }
        ensures meaning { IfOk result
            (IsCeiling (q.now.num *ℤ pos (2 ^ self.now.frac_bits)) q.now.den) }
    {
        Ok(ceiling_of(&self.in_units(q)?))
    }

    /// `q * 2^frac_bits` made whole, or TooWide where a part of it in lowest terms has a size of
    /// 2^127 or more.
    pub fn round_frac(&self, q: &Frac) -> Result<i128, TooWide>
        ensures value { result ≡ word_of (rounded_quotient self.now.rounding) self.now.frac_bits
            q.now }
        ensures meaning { IfOk result
            (IsRounded self.now.rounding (q.now.num *ℤ pos (2 ^ self.now.frac_bits)) q.now.den) }
    {
        match self.rounding {
            Rounding::Floor => self.floor_frac(q),
            Rounding::Ceil => self.ceil_frac(q),
            Rounding::Nearest => Ok(nearest_to(&self.in_units(q)?)),
        }
    }
}
