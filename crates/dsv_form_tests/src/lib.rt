//! Tests of the crates of forms, by their public calls: closed forms, sums of steps, Schur-Cohn
//! forms, Jury's recursion and offers that are refused. The tested polynomial is tested by the
//! stored cases.
#![tactic(auto)]

#[cfg(test)]
mod closed_forms;
#[cfg(test)]
mod refusals;
#[cfg(test)]
mod schur_cohn;
#[cfg(test)]
mod schur_cohn_run;
#[cfg(test)]
mod sums;
#[cfg(test)]
mod verdicts;
