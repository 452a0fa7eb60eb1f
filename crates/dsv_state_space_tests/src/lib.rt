//! Tests of state-space controllers, by public calls: their words, their rows beside those of a
//! model of the equations, overflow and limit cycles beside all lists and all starts, ranges over
//! all time, forms that fall, and the tables of their polynomials. What is wanted is worked out by
//! hand or by a model.
#![tactic(auto)]

#[cfg(test)]
mod forms;
#[cfg(test)]
mod gains;
#[cfg(test)]
mod models;
#[cfg(test)]
mod refusals;
#[cfg(test)]
mod rows;
#[cfg(test)]
mod systems;
#[cfg(test)]
mod tables;
#[cfg(test)]
mod verdicts;
