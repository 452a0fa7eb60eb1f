// Why a command line is none.
use crate::parts::{Key, Part};

/// Why a command line is none. Options stand here by their names, without the dashes.
#[derive(Clone, Copy)]
pub enum Reason<'a> {
    /// The argument begins with `-`, and the command has no such option.
    Unknown(&'a str),
    /// FILE or the option is given a second time.
    Twice(Key<'a>),
    /// The option has no value.
    LacksValue(&'a str),
    /// The option takes no value and has one.
    TakesNone(&'a str),
    /// FILE or the option's value is empty.
    IsBlank(Key<'a>),
    /// The value of the option isn't one of its values.
    BadValue(&'a str, &'a str),
    /// Two parts don't go together.
    Apart(Part<'a>, Part<'a>),
    /// The first option is given only together with the second.
    Wants(&'a str, &'a str),
    /// Stability of a state-space controller, and nothing says how it is decided.
    WantsForm,
    /// Nothing is asked.
    NoTask,
    /// No file is named.
    NoFile,
}
