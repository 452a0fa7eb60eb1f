// What was found of a candidate.
use dsv_base::WordList;
use dsv_hints::Log;

/// The sentences that make a candidate good.
#[derive(Clone, Copy, Debug, PartialEq, Eq)]
pub enum SetPart {
    /// From registers of zeros the first states are in the set.
    Base,
    /// Where as many states in a row as the depth are in the set, the next one is.
    Step,
    /// From a state in the set no sample has an exact value that is no word.
    Safe,
}

/// A log for each sentence: each refutes the formula that the sentence is broken.
#[derive(Drop)]
pub struct ThreeLogs {
    pub base: Log,
    pub step: Log,
    pub safe: Log,
}

/// What was found of a candidate.
#[derive(Drop)]
pub enum Why {
    /// The three sentences hold.
    Good(ThreeLogs),
    /// From registers of zeros these inputs leave the set too early.
    Base {
        inputs: WordList,
    },
    /// The states from this start are in the set, and the one after these inputs isn't.
    Leaves {
        start: WordList,
        inputs: WordList,
    },
    /// The start is in the set, and at this input the exact value of this number is `exact`, which
    /// is no word.
    Unsafe {
        start: WordList,
        input: i64,
        value: u32,
        exact: i128,
    },
    /// The search for values that break this sentence gave up after so many learned clauses.
    Spent {
        part: SetPart,
        log: Log,
    },
    /// The candidate's numbers aren't as they have to be.
    BadShape,
}
