// The parts of a command line.

/// A part of a command line.
#[derive(Clone, Copy)]
pub enum Part<'a> {
    /// The argument that belongs to no option.
    File(&'a str),
    /// An option, by its name.
    Flag(&'a str),
    /// An option by its name, and its value.
    Choice(&'a str, &'a str),
}

/// What a part is given for.
#[derive(Clone, Copy)]
pub enum Key<'a> {
    /// FILE.
    File,
    /// The option of this name.
    Option(&'a str),
}
