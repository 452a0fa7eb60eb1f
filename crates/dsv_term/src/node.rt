// What a term is.

/// How many bits a term has at most.
pub const MAX_WIDTH: u32 = 128;

/// The number of a term: its place in the order in which the terms were made, from 0 on.
#[derive(Clone, Copy, Debug, PartialEq, Eq, Hash)]
pub struct TermId(pub u32);

/// A term over earlier terms. The names are those of SMT-LIB's functions on bit vectors, without
/// their `bv`. A comparison has one bit, which is 1 where it holds.
#[derive(Clone, Copy, Debug, PartialEq, Eq, Hash)]
pub enum TermNode {
    /// The input of this number.
    Input(u32),
    Constant { width: u32, value: u128 },
    Add(TermId, TermId),
    Sub(TermId, TermId),
    /// Less, in two's complement.
    Slt(TermId, TermId),
    /// Less or equal, in two's complement.
    Sle(TermId, TermId),
    /// Less, without signs.
    Ult(TermId, TermId),
    Eq(TermId, TermId),
    And(TermId, TermId),
    Or(TermId, TermId),
    /// The bits of the first above those of the second.
    Concat(TermId, TermId),
    Neg(TermId),
    Not(TermId),
    /// The product by a constant, modulo 2 to the width.
    MulConst { of: TermId, coeff: i64 },
    /// The same number in two's complement, in this many bits.
    Sext { of: TermId, width: u32 },
    /// The bits from `low` to `high`, both among them.
    Extract { of: TermId, high: u32, low: u32 },
    /// The second where the first is 1, and else the third.
    Ite(TermId, TermId, TermId),
}
