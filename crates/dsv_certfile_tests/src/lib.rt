//! Tests of certificates: their text, and their check, that of loops too; and of texts that offer
//! an ellipsoid. Certificates that the command writes are checked in `dsv_cli_tests`.
#![tactic(auto)]

#[cfg(test)]
mod certificates;
#[cfg(test)]
mod checks;
#[cfg(test)]
mod ellipsoids;
#[cfg(test)]
mod loops;
#[cfg(test)]
mod refusals;
