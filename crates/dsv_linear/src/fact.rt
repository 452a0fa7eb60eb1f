// What is known of an exact value.

/// What is known of an exact value of a run, if all exact values before it are words.
#[derive(Clone, Copy, Debug, PartialEq, Eq)]
pub enum Fact {
    /// Nothing.
    Open,
    /// It is a word, as its linear form shows.
    Inside,
    /// It is a word, as the ranges of the node's operands show without a form; its linear form
    /// shows that it is from `low` to `high`, which are words.
    Within { low: i64, high: i64 },
}
