//! Tests of ellipsoids, by public calls: offers that are found for controllers, with bounds beside
//! those that were worked out outside, controllers that have none, and an offer that was worked out
//! by hand with what refuses it.
#![tactic(auto)]

#[cfg(test)]
mod controllers;
#[cfg(test)]
mod offers;
#[cfg(test)]
mod places;
#[cfg(test)]
mod refusals;
