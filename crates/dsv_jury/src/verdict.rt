// What the recursion says of a polynomial.

/// What the recursion answers for a polynomial. Rows count from 0, which is the polynomial itself.
/// The answer is a verdict alone: that the roots lie as Jury's criterion says isn't proved here.
#[derive(Clone, Copy, Debug, PartialEq, Eq)]
pub enum Jury {
    /// In each row the first number was greater in size than the last: the roots are inside the
    /// unit circle.
    Inside,
    /// The last number of this row is at least as great in size as the first: a root isn't inside
    /// the unit circle.
    NotInside { row: u32 },
    /// No answer: an entry of this row passes 2^62.
    Wide { row: u32 },
}
