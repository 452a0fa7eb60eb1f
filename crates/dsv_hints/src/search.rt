// What searches come to.
use crate::step::Log;

/// What a search for what makes a formula true came to. Contracts take it apart by
/// `specs/Searches`.
#[derive(Drop)]
pub enum Searched<T> {
    /// It never happens: the log refutes the formula.
    Never(Log),
    /// It happens, by this.
    Happens(T),
    /// The search gave up after so many conflicts: the log of the clauses that it learned.
    Spent(Log),
}
