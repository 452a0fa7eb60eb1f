// Signals: what the nodes of a network give.
use dsv_algebra::NarrowInteger;
use dsv_linear::Range;

/// A quotient with an error: w is near v over the divisor d, so that 2^bits (d w - v) / d is from
/// the least to the greatest error.
#[derive(Clone, Copy, Debug, PartialEq, Eq)]
pub struct NearQuotient {
    /// The node whose value is divided.
    pub of: u32,
    /// What it is divided by; 0 gives nothing.
    pub divisor: u64,
    /// The bits after the point of an error, at most as many as a word has; with more it gives
    /// nothing.
    pub bits: u32,
    /// The least and the greatest error.
    pub errors: Range,
}

/// What a node gives in each sample, from the registers and from the nodes before it.
#[derive(Clone, Copy, Debug, PartialEq, Eq)]
pub enum Signal {
    /// Any number of a range, anew in each sample. The ends are times
    /// [`RANGE_SCALE`](dsv_linear::RANGE_SCALE).
    Outer(Range),
    /// The number in a register.
    Register(u32),
    /// The product of a whole number and what a node gives.
    Product { coeff: NarrowInteger, of: u32 },
    /// The sum of what two nodes give.
    Sum(u32, u32),
    /// What one node gives less what the other gives.
    Difference(u32, u32),
    /// A quotient with an error.
    Near(NearQuotient),
    /// A whole number, which passes unchanged as long as it is a word. Its range is shown.
    Checked(u32),
    /// Any number, unchanged. Its range is shown.
    Shown(u32),
}
