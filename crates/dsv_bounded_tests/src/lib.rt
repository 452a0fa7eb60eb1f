//! Tests of the limit cycles that are found of netlists, by public calls. Expected values were
//! found by hand. What is found of controllers stands beside a model (`.ci/equations`).
#![tactic(auto)]

#[cfg(test)]
mod netlist_cycles;
