// The kinds of what the command is asked about.

/// A kind of what is asked about.
#[derive(Clone, Copy)]
pub enum Kind {
    /// The controller in a file.
    Controller,
    /// The controllers in several files in series.
    Cascade,
    /// The state-space controller in a file.
    States,
    /// The loop of the controller in a file with the plant in another.
    Loop,
    /// The loop of a cascade with the plant in another file.
    CascadeLoop,
}
