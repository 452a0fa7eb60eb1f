// Limits of candidates.

/// The most registers that a shape has.
pub const MOST_REGISTERS: usize = 16;

/// The most inequalities of a candidate.
pub const MOST_INEQUALITIES: usize = 32;

/// The greatest size of a coefficient.
pub const MOST_COEFFICIENT: u64 = 1 << 24;

/// The most bits that the sizes of all coefficients of a candidate take together.
pub const MOST_BIT_LENGTHS: u32 = 1024;

/// The greatest size of a bound.
pub const MOST_BOUND: u64 = 1 << 60;

/// The greatest depth.
pub const MOST_DEPTH: u32 = 8;
