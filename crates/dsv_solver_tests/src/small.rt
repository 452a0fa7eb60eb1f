// Small formulas. Each model is tested and each log judged.
use dsv_cnf::{Assignment, Formula, holds, read_dimacs};
use dsv_hints::{Log, Searched, Verdict, check};
use dsv_solver::solve;
use std::alloc::Global;

/// What a solver answers, where its model satisfies and its log is accepted.
#[derive(Clone, Copy, PartialEq, Eq)]
pub enum SolverOutcome {
    Satisfiable,
    Unsatisfiable,
    Spent(usize),
    /// A model that doesn't satisfy, or a log that isn't accepted.
    Wrong,
}

/// A formula, how many conflicts are allowed, and what is answered.
struct Case {
    formula: &'static str,
    conflicts: u32,
    outcome: SolverOutcome,
}

/// All four clauses over two variables.
const FOUR: &str = "p cnf 2 4\n1 2 0\n1 -2 0\n-1 2 0\n-1 -2 0\n";

/// Five pigeons in four holes; pigeon p sits in hole h where variable 4 p + h is true.
const PIGEONS: &str = "p cnf 20 45
1 2 3 4 0
5 6 7 8 0
9 10 11 12 0
13 14 15 16 0
17 18 19 20 0
-1 -5 0
-1 -9 0
-1 -13 0
-1 -17 0
-5 -9 0
-5 -13 0
-5 -17 0
-9 -13 0
-9 -17 0
-13 -17 0
-2 -6 0
-2 -10 0
-2 -14 0
-2 -18 0
-6 -10 0
-6 -14 0
-6 -18 0
-10 -14 0
-10 -18 0
-14 -18 0
-3 -7 0
-3 -11 0
-3 -15 0
-3 -19 0
-7 -11 0
-7 -15 0
-7 -19 0
-11 -15 0
-11 -19 0
-15 -19 0
-4 -8 0
-4 -12 0
-4 -16 0
-4 -20 0
-8 -12 0
-8 -16 0
-8 -20 0
-12 -16 0
-12 -20 0
-16 -20 0
";

const CASES: [Case; 11] = [
    Case {
        formula: FOUR,
        conflicts: 10,
        outcome: SolverOutcome::Unsatisfiable,
    },
    Case {
        formula: FOUR,
        conflicts: 1,
        outcome: SolverOutcome::Unsatisfiable,
    },
    Case {
        formula: "p cnf 1 1\n0\n",
        conflicts: 1,
        outcome: SolverOutcome::Unsatisfiable,
    },
    Case {
        formula: "p cnf 1 1\n1 1 0\n",
        conflicts: 1,
        outcome: SolverOutcome::Satisfiable,
    },
    Case {
        formula: "p cnf 1 2\n1 1 0\n-1 -1 0\n",
        conflicts: 1,
        outcome: SolverOutcome::Unsatisfiable,
    },
    Case {
        formula: "p cnf 1 1\n1 -1 0\n",
        conflicts: 1,
        outcome: SolverOutcome::Satisfiable,
    },
    Case {
        formula: "p cnf 1 2\n1 0\n-1 0\n",
        conflicts: 1,
        outcome: SolverOutcome::Unsatisfiable,
    },
    Case {
        formula: "p cnf 3 0\n",
        conflicts: 1,
        outcome: SolverOutcome::Satisfiable,
    },
    Case {
        formula: "p cnf 0 0\n",
        conflicts: 1,
        outcome: SolverOutcome::Satisfiable,
    },
    Case {
        formula: PIGEONS,
        conflicts: 100_000,
        outcome: SolverOutcome::Unsatisfiable,
    },
    Case {
        formula: PIGEONS,
        conflicts: 10,
        outcome: SolverOutcome::Spent(10),
    },
];

/// Whether every clause is true.
fn is_model(formula: &Formula, values: &Assignment) -> bool {
    if values.vars() != formula.vars() {
        return false;
    }
    for i in 0..formula.len() {
        if !holds(formula.clause(i), values) {
            return false;
        }
    }
    true
}

fn is_accepted(alloc: Global, formula: &Formula, log: &Log) -> bool {
    if log.as_slice().len() >= u32::MAX as usize {
        return false;
    }
    matches!(check(alloc, formula, log), Ok(Verdict::Accepted))
}

fn outcome_if(right: bool, outcome: SolverOutcome) -> SolverOutcome {
    if right { outcome } else { SolverOutcome::Wrong }
}

/// What the solver answers; none where there is no memory.
pub fn outcome_of(alloc: Global, formula: &Formula, conflicts: u32) -> Option<SolverOutcome> {
    match solve(alloc, formula, conflicts.clamp(1, 1 << 30)) {
        Ok(Searched::Happens(values)) => {
            Some(outcome_if(is_model(formula, &values), SolverOutcome::Satisfiable))
        }
        Ok(Searched::Never(log)) => {
            Some(outcome_if(
                is_accepted(alloc, formula, &log),
                SolverOutcome::Unsatisfiable,
            ))
        }
        Ok(Searched::Spent(log)) => Some(SolverOutcome::Spent(log.as_slice().len())),
        Err(_) => None,
    }
}

fn is_answered(alloc: Global, case: &Case) -> bool {
    match read_dimacs(alloc, case.formula.as_bytes()) {
        Ok(formula) => outcome_of(alloc, &formula, case.conflicts) == Some(case.outcome),
        Err(_) => false,
    }
}

#[test]
fn small_formulas_are_decided(rt: HostRuntime) {
    let alloc = rt.alloc();
    for case in &CASES {
        assert!(rt; is_answered(alloc, case));
    }
}

/// How many steps the log of a formula has that is refuted.
fn steps_of(alloc: Global, text: &str, conflicts: u32) -> Option<usize> {
    let formula = read_dimacs(alloc, text.as_bytes()).ok()?;
    match solve(alloc, &formula, conflicts.clamp(1, 1 << 30)).ok()? {
        Searched::Never(log) => Some(log.as_slice().len()),
        _ => None,
    }
}

#[test]
fn an_empty_clause_is_one_step(rt: HostRuntime) {
    let steps = steps_of(rt.alloc(), "p cnf 1 2\n1 0\n0\n", 1);
    assert!(rt; steps == Some(1));
}

#[test]
fn one_conflict_refutes_the_four_clauses_in_two_steps(rt: HostRuntime) {
    let steps = steps_of(rt.alloc(), FOUR, 1);
    assert!(rt; steps == Some(2));
}
