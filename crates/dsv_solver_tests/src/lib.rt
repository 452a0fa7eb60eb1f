//! Tests of the solver: small formulas, a multiplier, random ones against enumeration, and a
//! worked trail.
#![tactic(auto)]

#[cfg(test)]
mod multiplier;
#[cfg(test)]
mod random;
#[cfg(test)]
mod small;
#[cfg(test)]
mod trails;
