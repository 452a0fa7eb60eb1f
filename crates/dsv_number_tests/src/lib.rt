//! Tests of the crates of numbers, by their public calls: fractions, decimals, words, coefficients
//! in the delta operator and forms with squares.
#![tactic(auto)]

#[cfg(test)]
mod decimals;
#[cfg(test)]
mod deltas;
#[cfg(test)]
mod forms;
#[cfg(test)]
mod fractions;
#[cfg(test)]
mod words;
