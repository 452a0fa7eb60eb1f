//! Tests of cascades, by public calls: which sections make one, what closed forms say of their
//! stability, and runs and overflow beside those of the sections by themselves. What is wanted is
//! worked out by hand or by a model.
#![tactic(auto)]

#[cfg(test)]
mod gains;
#[cfg(test)]
mod netlists;
#[cfg(test)]
mod overflows;
#[cfg(test)]
mod refusals;
#[cfg(test)]
mod runs;
#[cfg(test)]
mod sections;
#[cfg(test)]
mod single;
#[cfg(test)]
mod stability;
