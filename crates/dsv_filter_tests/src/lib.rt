//! Tests of netlists and of the written equations, by public calls. Expected values are worked out
//! by hand from the definitions. What the program shows of runs stands beside a model
//! (`.ci/equations`).
#![tactic(auto)]

#[cfg(test)]
mod netlists;
#[cfg(test)]
mod replays;
#[cfg(test)]
mod runs;
