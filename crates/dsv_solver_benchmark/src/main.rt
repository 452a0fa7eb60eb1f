#![tactic(auto)]
//! Solves formulas in DIMACS text. Without arguments it solves those that lie beside it, tests each
//! model and judges each log. With the arguments FILE CONFLICTS it solves that file, and prints the
//! number of steps of its log, which isn't judged. Time it from outside.

use dsv_cnf::{Assignment, Formula, holds, read_dimacs};
use dsv_hints::{Log, Searched, Verdict, check};
use dsv_solver::solve;
use std::fs::File;
use std::io;
use std::io::Read;

/// The formulas that are solved where there are no arguments.
const FILES: [&str; 3] = ["pigeons.cnf", "commuting.cnf", "factors.cnf"];

/// How many conflicts are allowed where there are no arguments.
const CONFLICTS: u32 = 100_000;

fn bytes_of(rt: &HostRuntime, name: &str) -> io::Result<Vec<u8>> {
    let mut file = File::open(rt, name)?;
    let mut bytes = Vec::new(rt.alloc());
    file.read_to_end(&mut bytes)?;
    Ok(bytes)
}

/// Whether every clause is true.
fn is_model(formula: &Formula, values: &Assignment) -> bool {
    if values.vars() != formula.vars() {
        return false;
    }
    for i in 0..formula.len() {
        if !holds(formula.clause(i), values) {
            return false;
        }
    }
    true
}

/// What the checker of hints says of a log.
fn verdict_on(rt: &HostRuntime, formula: &Formula, log: &Log) -> &'static str {
    if log.as_slice().len() >= u32::MAX as usize {
        return "too long";
    }
    match check(rt.alloc(), formula, log) {
        Ok(Verdict::Accepted) => "accepted",
        Ok(Verdict::Refused { .. }) => "refused",
        Err(_) => "no memory",
    }
}

/// What the solver answered, judged.
fn judgement(rt: &HostRuntime, formula: &Formula, answer: &Searched<Assignment>) -> &'static str {
    match answer {
        Searched::Happens(values) => {
            if is_model(formula, values) {
                "a model"
            } else {
                "no model"
            }
        }
        Searched::Never(log) => verdict_on(rt, formula, log),
        Searched::Spent(_) => "spent",
    }
}

/// What comes of a formula in this text.
fn outcome(rt: &HostRuntime, text: &[u8]) -> &'static str {
    let Ok(formula) = read_dimacs(rt.alloc(), text) else {
        return "no formula";
    };
    match solve(rt.alloc(), &formula, CONFLICTS) {
        Ok(answer) => judgement(rt, &formula, &answer),
        Err(_) => "no memory",
    }
}

fn judge(rt: &HostRuntime, name: &str) -> io::Result<()> {
    let text = bytes_of(rt, name)?;
    println!(rt; "{name}: {}", outcome(rt, &text))
}

fn measure(rt: &HostRuntime, name: &str, conflicts: u32) -> io::Result<()> {
    let text = bytes_of(rt, name)?;
    let Ok(formula) = read_dimacs(rt.alloc(), &text) else {
        return println!(rt; "no formula");
    };
    match solve(rt.alloc(), &formula, conflicts.clamp(1, 1 << 30)) {
        Ok(Searched::Happens(_)) => println!(rt; "satisfiable"),
        Ok(Searched::Never(log)) => println!(rt; "unsatisfiable {}", log.as_slice().len()),
        Ok(Searched::Spent(log)) => println!(rt; "spent {}", log.as_slice().len()),
        Err(_) => println!(rt; "no memory"),
    }
}

fn main(rt: HostRuntime) -> io::Result<()> {
    let mut arguments = Vec::new(rt.alloc());
    for argument in std::env::args(&rt)?.skip(1) {
        arguments.push(argument)?;
    }
    if arguments.len() == 2 {
        return measure(
            &rt,
            &arguments[0],
            arguments[1].parse().unwrap_or(CONFLICTS),
        );
    }
    for name in &FILES {
        judge(&rt, *name)?;
    }
    Ok(())
}
