//! Tests of the facts of linear forms, by public calls: beside enumerated runs, and beside facts
//! that are worked out by hand.
#![tactic(auto)]

#[cfg(test)]
mod ends;
#[cfg(test)]
mod fine_ends;
#[cfg(test)]
mod runs;
