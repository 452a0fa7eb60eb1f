//! Tests of the command's calls over files and sinks in memory, and of the real files and output.
//! What the command answers to arguments and files stands in `cases/answers.txt`, with which
//! `.ci/cases` compares what the program writes.
#![tactic(auto)]

#[cfg(test)]
mod certificates;
#[cfg(test)]
mod faults;
#[cfg(test)]
mod formulas;
#[cfg(test)]
mod lists;
#[cfg(test)]
mod loops;
#[cfg(test)]
mod outside;
#[cfg(test)]
mod pieces;
#[cfg(test)]
mod proposers;
#[cfg(test)]
mod runs;
#[cfg(test)]
mod samples;
#[cfg(test)]
mod sets;
