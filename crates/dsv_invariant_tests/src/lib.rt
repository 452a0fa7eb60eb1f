//! Tests of what is found of candidates, and of the boxes that are built in, by public calls. What
//! is wanted comes of going through all states and all inputs of a model of the written equation,
//! or is worked out by hand. That each break replays, and that the logs of a good candidate are
//! accepted, are clauses of `check_candidate`.
#![tactic(auto)]

#[cfg(test)]
mod boxes;
#[cfg(test)]
mod designs;
#[cfg(test)]
mod shapes;
#[cfg(test)]
mod verdicts;
