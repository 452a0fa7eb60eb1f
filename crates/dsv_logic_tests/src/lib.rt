//! Tests of the logic: terms, formulas, and the checker of hints.
#![tactic(auto)]

#[cfg(test)]
mod formulas;
#[cfg(test)]
mod hints;
#[cfg(test)]
mod terms;
