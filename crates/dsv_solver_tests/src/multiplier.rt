// Two multipliers of two bits, the second with its factors exchanged: their products are the same.
use crate::small::{SolverOutcome, outcome_of};
use dsv_cnf::{Formula, Lit};
use std::alloc::Global;

/// How many variables there are: four inputs, and one for each gate.
const VARS: u32 = 27;

/// Gates as clauses.
#[derive(Drop)]
struct Circuit {
    formula: Formula,
    /// The next variable that is not used yet.
    next: u32,
}

impl Circuit {
    fn wire(&mut self) -> Option<Lit> {
        let var = self.next;
        if var >= self.formula.vars() {
            return None;
        }
        self.next = var + 1;
        Some(Lit::new(var, true))
    }

    fn push(&mut self, one: Lit, two: Lit, three: Lit) -> Option<()> {
        let vars = self.formula.vars();
        if one.var() >= vars || two.var() >= vars || three.var() >= vars {
            return None;
        }
        if self.formula.len() == u32::MAX {
            return None;
        }
        self.formula.push_clause(&[one, two, three]).ok()
    }

    fn and(&mut self, one: Lit, two: Lit) -> Option<Lit> {
        let both = self.wire()?;
        self.push(one.negation(), two.negation(), both)?;
        self.push(one, both.negation(), both.negation())?;
        self.push(two, both.negation(), both.negation())?;
        Some(both)
    }

    fn or(&mut self, one: Lit, two: Lit) -> Option<Lit> {
        Some(self.and(one.negation(), two.negation())?.negation())
    }

    fn xor(&mut self, one: Lit, two: Lit) -> Option<Lit> {
        let apart = self.wire()?;
        self.push(one, two, apart.negation())?;
        self.push(one.negation(), two.negation(), apart.negation())?;
        self.push(one.negation(), two, apart)?;
        self.push(one, two.negation(), apart)?;
        Some(apart)
    }

    /// The four bits of a product, the lowest first.
    fn product(&mut self, left: [Lit; 2], right: [Lit; 2]) -> Option<[Lit; 4]> {
        let ones = self.and(left[0], right[0])?;
        let first = self.and(left[1], right[0])?;
        let second = self.and(left[0], right[1])?;
        let twos = self.xor(first, second)?;
        let carry = self.and(first, second)?;
        let high = self.and(left[1], right[1])?;
        let fours = self.xor(high, carry)?;
        let eights = self.and(high, carry)?;
        Some([ones, twos, fours, eights])
    }
}

/// That the two products differ.
fn difference(alloc: Global) -> Option<Formula> {
    let formula = Formula::new(alloc, VARS).ok()?;
    let mut circuit = Circuit { formula, next: 0 };
    let left = [circuit.wire()?, circuit.wire()?];
    let right = [circuit.wire()?, circuit.wire()?];
    let product = circuit.product(left, right)?;
    let exchanged = circuit.product(right, left)?;
    let mut differs = circuit.xor(product[0], exchanged[0])?;
    for k in 1..4 {
        let apart = circuit.xor(product[k], exchanged[k])?;
        differs = circuit.or(differs, apart)?;
    }
    circuit.push(differs, differs, differs)?;
    Some(circuit.formula)
}

/// Whether it is found that they never differ, and the log is accepted.
fn is_refuted(alloc: Global) -> bool {
    match difference(alloc) {
        Some(formula) => outcome_of(alloc, &formula, 1_000) == Some(SolverOutcome::Unsatisfiable),
        None => false,
    }
}

#[test]
fn a_multiplier_commutes(rt: HostRuntime) {
    let alloc = rt.alloc();
    assert!(rt; is_refuted(alloc));
}
