// Words, and what the functions of SMT-LIB make of them.
ghost use Rattle.std.specs.Prelude.{◌≡◌, ◌+◌, ◌-◌, ◌%◌, ◌^◌, ◌≤◌, ◌<◌};
ghost use Rattle.dsv_term.specs.Limits.{max_width};
ghost use Rattle.dsv_term.specs.Word.{IsWidth, bit_of};

/// A bit vector: how many bits it has, and the number that they spell without a sign.
#[derive(Clone, Copy, Debug, PartialEq, Eq)]
pub struct Word {
    pub width: u32,
    pub number: u128,
}

/// The number of so many bits that are all 1.
pub(crate) fn mask(width: u32) -> u128
    requires { IsWidth width }
    ensures { result ≡ 2 ^ width - 1 }
{
    u128::MAX >> (128 - width)
}

/// A number's lowest bits.
fn low_bits(number: u128, width: u32) -> u128
    requires { IsWidth width }
    ensures { result ≡ number % 2 ^ width }
{
    number & mask(width)
}

/// One bit that says a truth.
fn bit(truth: bool) -> Word
    ensures { result ≡ bit_of truth }
{
    Word {
        width: 1,
        number: u128::from(truth),
    }
}

// The names of SMT-LIB's functions stand in the definitions that the clauses cite.
impl Word {
    ghost use Rattle.dsv_term.specs.Word.{residue, sum_of, difference_of, negation_of};
    ghost use Rattle.dsv_term.specs.Word.{product_of, and_of, or_of, complement_of};
    ghost use Rattle.dsv_term.specs.Word.{signed_of, signed_less_of, signed_at_most_of};
    ghost use Rattle.dsv_term.specs.Word.{less_of, same_of, choice_of};
    ghost use Rattle.dsv_term.specs.Word.{IsWidth, IsWord, joined_of, extended_of, extract_of};

    /// The word of so many bits that differs from a number by a multiple of 2 to the width.
    pub fn of_signed(width: u32, z: i128) -> Word
        requires { IsWidth width }
        ensures { result ≡ record { width = width; number = residue width z } }
    {
        Word {
            width,
            number: low_bits(z.cast_unsigned(), width),
        }
    }

    /// The sum, modulo 2 to the width.
    pub fn sum(self, other: Word) -> Word
        requires { IsWord self }
        ensures { result ≡ sum_of self other }
    {
        Word {
            width: self.width,
            number: low_bits(self.number.wrapping_add(other.number), self.width),
        }
    }

    /// The difference, modulo 2 to the width.
    pub fn difference(self, other: Word) -> Word
        requires { IsWord self }
        ensures { result ≡ difference_of self other }
    {
        Word {
            width: self.width,
            number: low_bits(self.number.wrapping_sub(other.number), self.width),
        }
    }

    /// The negation, modulo 2 to the width.
    pub fn negation(self) -> Word
        requires { IsWord self }
        ensures { result ≡ negation_of self }
    {
        Word {
            width: self.width,
            number: low_bits(0u128.wrapping_sub(self.number), self.width),
        }
    }

    /// The product by a constant, modulo 2 to the width.
    pub fn product(self, coeff: i64) -> Word
        requires { IsWord self }
        ensures { result ≡ product_of coeff self }
    {
        Word {
            width: self.width,
            number: low_bits(
                i128::from(coeff).cast_unsigned().wrapping_mul(self.number),
                self.width,
            ),
        }
    }

    /// The number in two's complement.
    pub fn signed_value(self) -> i128
        requires { IsWord self }
        ensures { result ≡ signed_of self }
    {
        let all = mask(self.width);
        if self.number <= all >> 1 {
            self.number as i128
        } else {
            -1 - (all - self.number) as i128
        }
    }

    /// Whether the number is less, in two's complement.
    pub fn signed_less(self, other: Word) -> Word
        requires first { IsWord self }
        requires second { IsWord other }
        ensures { result ≡ signed_less_of self other }
    {
        bit(self.signed_value() < other.signed_value())
    }

    /// Whether the number is at most the other, in two's complement.
    pub fn signed_at_most(self, other: Word) -> Word
        requires first { IsWord self }
        requires second { IsWord other }
        ensures { result ≡ signed_at_most_of self other }
    {
        bit(self.signed_value() <= other.signed_value())
    }

    /// Whether the number is less, without signs.
    pub fn less_than(self, other: Word) -> Word
        ensures { result ≡ less_of self other }
    {
        bit(self.number < other.number)
    }

    /// Whether the numbers are the same.
    pub fn same_as(self, other: Word) -> Word
        ensures { result ≡ same_of self other }
    {
        bit(self.number == other.number)
    }

    /// The bits that both have.
    pub fn and(self, other: Word) -> Word
        ensures { result ≡ and_of self other }
    {
        Word {
            width: self.width,
            number: self.number & other.number,
        }
    }

    /// The bits that one of the two has.
    pub fn or(self, other: Word) -> Word
        ensures { result ≡ or_of self other }
    {
        Word {
            width: self.width,
            number: self.number | other.number,
        }
    }

    /// The bits turned over.
    pub fn complement(self) -> Word
        requires { IsWord self }
        ensures { result ≡ complement_of self }
    {
        Word {
            width: self.width,
            number: mask(self.width) - self.number,
        }
    }

    /// The bits above those of another word.
    pub fn concatenation(self, other: Word) -> Word
        requires first { IsWord self }
        requires second { IsWord other }
        requires narrow { self.width + other.width ≤ max_width }
        ensures { result ≡ joined_of self other }
    {
        Word {
            width: self.width + other.width,
            number: self.number << other.width | other.number,
        }
    }

    /// The same number in two's complement, in so many bits.
    pub fn sign_extension(self, width: u32) -> Word
        requires word { IsWord self }
        requires width { IsWidth width }
        ensures { result ≡ extended_of width self }
    {
        Word {
            width,
            number: low_bits(self.signed_value().cast_unsigned(), width),
        }
    }

    /// The bits from `lowest` to `highest`, both among them.
    pub fn extract(self, highest: u32, lowest: u32) -> Word
        requires word { IsWord self }
        requires order { lowest ≤ highest }
        requires inside { highest < self.width }
        ensures { result ≡ extract_of highest lowest self }
    {
        let width = highest + 1 - lowest;
        Word {
            width,
            number: low_bits(self.number >> lowest, width),
        }
    }

    /// The first where this word is 1, and else the second.
    pub fn choice(self, first: Word, second: Word) -> Word
        ensures { result ≡ choice_of self first second }
    {
        if self.number == 1 { first } else { second }
    }
}
