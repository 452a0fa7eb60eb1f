//! Tests of the goals over netlists, by public calls: at how many values of the inputs their roots
//! are 1, which is worked out by hand from the written equations. That a root is 1 exactly where
//! the netlist breaks, cycles or leaves a set is a clause of each goal.
#![tactic(auto)]

#[cfg(test)]
mod accumulators;
#[cfg(test)]
mod goals;
#[cfg(test)]
mod netlists;
#[cfg(test)]
mod sets;
