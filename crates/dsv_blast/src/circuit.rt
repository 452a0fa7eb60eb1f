// Gates: each has a variable of its own, and clauses that hold exactly where the variable is the
// gate's function.
ghost use Rattle.std.specs.Prelude.{◌+◌, ◌-◌, ◌^◌, ◌<◌, ◌≤◌, OnOk, OnErr};

use dsv_base::NoMemory;
use dsv_cnf::{Formula, Lit};
use std::alloc::Global;
use std::marker::Model;

/// So many variables a formula has at most.
const MAX_VARIABLES: u32 = 0x8000_0000;

/// So many clauses a formula has at most.
const MAX_CLAUSES: u32 = 0xffff_fffe;

/// Accepts one clause more than so many, if these are fewer than 2^32 - 2.
fn accept_clause(clauses: u32) -> Result<(), NoMemory>
    ensures few { OnOk result (clauses < 2 ^ 32 - 2) }
    ensures many { OnErr result (2 ^ 32 - 2 ≤ clauses) }
{
    if clauses >= MAX_CLAUSES {
        return Err(NoMemory);
    }
    Ok(())
}

/// Accepts so many variables more than those, if together they are fewer than 2^31.
pub(crate) fn accept_variables(variables: u32, more: u32) -> Result<(), NoMemory>
    requires { variables ≤ 2 ^ 31 }
    ensures few { OnOk result (variables + more < 2 ^ 31) }
    ensures many { OnErr result (2 ^ 31 ≤ variables + more) }
{
    if more >= MAX_VARIABLES - variables {
        return Err(NoMemory);
    }
    Ok(())
}

/// Accepts one variable more than so many, if these are fewer than 2^31.
fn accept_variable(variables: u32) -> Result<(), NoMemory>
    ensures few { OnOk result (variables < 2 ^ 31) }
    ensures many { OnErr result (2 ^ 31 ≤ variables) }
{
    if variables >= MAX_VARIABLES {
        return Err(NoMemory);
    }
    Ok(())
}

/// A formula that grows by gates, and a literal that is true in it.
#[derive(Drop)]
pub(crate) struct Circuit {
    one: Lit,
    formula: Formula,
}

impl Model for Circuit {
    ghost use Rattle.std.specs.Prelude.{◌<◌};
    ghost use Rattle.dsv_blast.specs.CircuitView.{CircuitView};

    ghost Value = { CircuitView };

    ghost view = { λ c. record { one = c.one; formula = c.formula } };

    ghost invariant = { λ c. c.one.var < c.formula.vars };
}

impl Circuit {
    ghost use Rattle.std.specs.Prelude.{◌≡◌, ◌<◌, ◌^◌, ◌∷◌, [], OnOk, IfOk};
    ghost use Rattle.dsv_cnf.specs.Formula.{IsOver};
    ghost use Rattle.dsv_blast.specs.Gates.{positive, zero_of, and_clauses, exclusive_clauses};
    ghost use Rattle.dsv_blast.specs.Gates.{exclusive_unless, two_make, chosen_makes};
    ghost use Rattle.dsv_blast.specs.Blast.{first_circuit};
    ghost use Rattle.dsv_blast.specs.Pushing.{with_clauses, with_variable};

    /// No gates. After so many variables there is one that a clause makes true.
    pub(crate) fn new(alloc: Global, inputs: u32) -> Result<Self, NoMemory>
        requires { inputs < 2 ^ 31 }
        ensures { IfOk result (λ c. c ≡ first_circuit inputs) }
    {
        let one = Lit::new(inputs, true);
        let mut formula = Formula::new(alloc, inputs + 1)?;
        formula.push_clause(&[one])?;
        Ok(Circuit { one, formula })
    }

    /// A literal that is true.
    pub(crate) fn one(&self) -> Lit
        ensures one { result ≡ self.now.one }
        ensures over { result.var < self.now.formula.vars }
    {
        self.one
    }

    /// A literal that is false.
    pub(crate) fn zero(&self) -> Lit
        ensures zero { result ≡ zero_of self.now }
        ensures over { result.var < self.now.formula.vars }
    {
        self.one.negation()
    }

    /// The formula.
    pub(crate) fn into_formula(self) -> Formula
        ensures { result ≡ self.formula }
    {
        self.formula
    }

    /// One more clause.
    pub(crate) fn push(&mut self, clause: &[Lit]) -> Result<(), NoMemory>
        requires { IsOver self.old.formula.vars clause.now }
        ensures { OnOk result (self.new ≡ with_clauses self.old (clause.now ∷ [])) }
    {
        accept_clause(self.formula.len())?;
        self.formula.push_clause(clause)?;
        Ok(())
    }

    /// The next variable.
    pub(crate) fn next_variable(&mut self) -> Result<Lit, NoMemory>
        ensures circuit { OnOk result (self.new ≡ with_variable self.old) }
        ensures bit { IfOk result (λ l. l ≡ positive self.old.formula.vars) }
    {
        accept_variable(self.formula.vars())?;
        Ok(Lit::new(self.formula.fresh_variable(), true))
    }

    /// Three clauses: the output is true exactly where both inputs are.
    pub(crate) fn push_and(&mut self, a: Lit, b: Lit, output: Lit) -> Result<(), NoMemory>
        requires first { a.var < self.old.formula.vars }
        requires second { b.var < self.old.formula.vars }
        requires output { output.var < self.old.formula.vars }
        ensures { OnOk result (self.new ≡ with_clauses self.old (and_clauses a b output)) }
    {
        self.push(&[a.negation(), b.negation(), output])?;
        self.push(&[a, output.negation()])?;
        self.push(&[b, output.negation()])
    }

    /// Four clauses: the output is true exactly where one input is and the other is not.
    pub(crate) fn push_exclusive(&mut self, a: Lit, b: Lit, output: Lit) -> Result<(), NoMemory>
        requires first { a.var < self.old.formula.vars }
        requires second { b.var < self.old.formula.vars }
        requires output { output.var < self.old.formula.vars }
        ensures { OnOk result (self.new ≡ with_clauses self.old (exclusive_clauses a b output)) }
    {
        self.push(&[a.negation(), b.negation(), output.negation()])?;
        self.push(&[a, b, output.negation()])?;
        self.push(&[a.negation(), b, output])?;
        self.push(&[a, b.negation(), output])
    }

    /// Four clauses: unless the first literal is true, the output is true exactly where one input
    /// is and the other is not.
    pub(crate) fn push_exclusive_unless(
        &mut self,
        unless: Lit,
        a: Lit,
        b: Lit,
        output: Lit,
    ) -> Result<(), NoMemory>
        requires unless { unless.var < self.old.formula.vars }
        requires first { a.var < self.old.formula.vars }
        requires second { b.var < self.old.formula.vars }
        requires output { output.var < self.old.formula.vars }
        ensures { OnOk result
            (self.new ≡ with_clauses self.old (exclusive_unless unless a b output)) }
    {
        self.push(&[unless, a.negation(), b.negation(), output.negation()])?;
        self.push(&[unless, a, b, output.negation()])?;
        self.push(&[unless, a.negation(), b, output])?;
        self.push(&[unless, a, b.negation(), output])
    }

    /// Three clauses: the output is true where two of the three inputs are.
    pub(crate) fn push_two_make(
        &mut self,
        a: Lit,
        b: Lit,
        c: Lit,
        output: Lit,
    ) -> Result<(), NoMemory>
        requires first { a.var < self.old.formula.vars }
        requires second { b.var < self.old.formula.vars }
        requires third { c.var < self.old.formula.vars }
        requires output { output.var < self.old.formula.vars }
        ensures { OnOk result (self.new ≡ with_clauses self.old (two_make a b c output)) }
    {
        self.push(&[a.negation(), b.negation(), output])?;
        self.push(&[a.negation(), c.negation(), output])?;
        self.push(&[b.negation(), c.negation(), output])
    }

    /// Three clauses: the output is true where the chosen input is, `a` where the test is true and
    /// else `b`.
    pub(crate) fn push_chosen_makes(
        &mut self,
        test: Lit,
        a: Lit,
        b: Lit,
        output: Lit,
    ) -> Result<(), NoMemory>
        requires test { test.var < self.old.formula.vars }
        requires first { a.var < self.old.formula.vars }
        requires second { b.var < self.old.formula.vars }
        requires output { output.var < self.old.formula.vars }
        ensures { OnOk result (self.new ≡ with_clauses self.old (chosen_makes test a b output)) }
    {
        self.push(&[test.negation(), a.negation(), output])?;
        self.push(&[test, b.negation(), output])?;
        self.push(&[a.negation(), b.negation(), output])
    }
}
