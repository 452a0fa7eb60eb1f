//! Tests of networks, by public calls: ranges beside those that are worked out by hand.
#![tactic(auto)]

#[cfg(test)]
mod ranges;
