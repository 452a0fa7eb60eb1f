//! Tests of what is found of runs of any length, by public calls: ranges beside enumerated runs and
//! beside those that are worked out by hand, and lists that break.
#![tactic(auto)]

#[cfg(test)]
mod answers;
#[cfg(test)]
mod controllers;
#[cfg(test)]
mod errors;
#[cfg(test)]
mod lists;
#[cfg(test)]
mod runs;
