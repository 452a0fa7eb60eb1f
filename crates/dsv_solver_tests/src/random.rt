// Random formulas of 20 variables against enumeration.
ghost use Rattle.std.specs.Prelude.{◌<◌};

use crate::small::{SolverOutcome, outcome_of};
use dsv_base::NoMemory;
use dsv_cnf::{Formula, Lit};
use std::alloc::Global;

const VARS: u32 = 20;

/// About as many clauses as leave half of the formulas satisfiable.
const CLAUSES: u32 = 91;

/// Numbers by a linear congruence.
#[derive(Clone, Copy)]
struct Draws {
    state: u32,
}

impl Draws {
    fn next(&mut self) -> u32 {
        self.state = self.state.wrapping_mul(1_103_515_245).wrapping_add(12_345);
        self.state >> 16
    }

    fn literal(&mut self) -> Lit
        ensures { result.var < 20 }
    {
        let var = self.next() % VARS;
        let positive = self.next() % 2 == 0;
        Lit::new(var, positive)
    }
}

fn random_formula(alloc: Global, seed: u32) -> Result<Formula, NoMemory> {
    let mut draws = Draws { state: seed };
    let mut formula = Formula::new(alloc, VARS)?;
    for _ in 0..CLAUSES {
        let one = draws.literal();
        let two = draws.literal();
        let three = draws.literal();
        if formula.vars() == VARS && formula.len() < CLAUSES {
            formula.push_clause(&[one, two, three])?;
        }
    }
    Ok(formula)
}

/// Whether the assignment that the bits of a number are makes a literal true.
fn is_true(literal: Lit, bits: u32) -> bool {
    (bits >> (literal.var() % 32)) % 2 == u32::from(literal.is_positive())
}

fn satisfies(formula: &Formula, bits: u32) -> bool {
    for i in 0..formula.len() {
        if !formula
            .clause(i)
            .iter()
            .any(|literal| is_true(*literal, bits))
        {
            return false;
        }
    }
    true
}

/// Whether some assignment of 20 variables satisfies the formula.
fn is_satisfiable(formula: &Formula) -> bool {
    for bits in 0..1 << VARS {
        if satisfies(formula, bits) {
            return true;
        }
    }
    false
}

fn is_decided(alloc: Global, seed: u32) -> bool {
    let Ok(formula) = random_formula(alloc, seed) else {
        return false;
    };
    let expected = if is_satisfiable(&formula) {
        SolverOutcome::Satisfiable
    } else {
        SolverOutcome::Unsatisfiable
    };
    outcome_of(alloc, &formula, 1_000_000) == Some(expected)
}

#[test]
fn random_formulas_are_decided_as_by_enumeration(rt: HostRuntime) {
    let alloc = rt.alloc();
    for seed in 0..8 {
        assert!(rt; is_decided(alloc, seed));
    }
}
