// Formulas: clauses that lie one after another in one list.
ghost use Rattle.std.specs.Prelude.{◌≡◌, ◌+◌, ◌-◌, ◌^◌, ◌<◌, ◌≤◌, [], ◌∷◌};
ghost use Rattle.std.specs.Prelude.{◌++◌, length, slice_get, slice_range, IfOk, OnOk, OnErr};
ghost use Rattle.dsv_cnf.specs.Formula.{AreOver, IsOver};

use crate::Lit;
use dsv_base::NoMemory;
use std::alloc::Global;
use std::marker::Model;

fn piece(literals: &[Lit], start: usize, end: usize) -> &[Lit]
    requires order { start ≤ end }
    requires inside { end ≤ length literals.now }
    ensures { result.now ≡ slice_range literals.now start end }
{
    &literals[start..end]
}

/// Clauses over numbered variables. The literals of all clauses lie in one list, clause after
/// clause. Beside it stands where the first clause begins and where each clause ends.
#[derive(Drop)]
pub struct Formula {
    vars: u32,
    literals: Vec<Lit>,
    bounds: Vec<usize>,
}

impl Model for Formula {
    ghost use Rattle.dsv_cnf.specs.FormulaView.{FormulaView};

    ghost Value = { FormulaView };

    ghost use Rattle.dsv_cnf.specs.FormulaInside.{view_of, IsFormula};

    ghost view = { view_of };

    ghost invariant = { IsFormula };
}

impl Formula {
    /// No clauses over so many variables, at most 2^31.
    pub fn new(alloc: Global, vars: u32) -> Result<Self, NoMemory>
        requires { vars ≤ 2 ^ 31 }
        ensures { IfOk result (λ f. f ≡ record { vars = vars; clauses = [] }) }
    {
        Ok(Formula {
            vars,
            literals: Vec::new(alloc),
            bounds: vec![in alloc; 0]?,
        })
    }

    /// Adds a clause at the end; where there is no memory for it, the formula stays as it was.
    pub fn push_clause(&mut self, lits: &[Lit]) -> Result<(), NoMemory>
        requires over { IsOver self.old.vars lits.now }
        requires room { length self.old.clauses < 2 ^ 32 - 1 }
        ensures ok { OnOk result (self.new
            ≡ record self.old { clauses = self.old.clauses ++ lits.now ∷ [] }) }
        ensures err { OnErr result (self.new ≡ self.old) }
    {
        self.bounds.reserve(1)?;
        self.literals.extend_from_slice(lits)?;
        self.bounds.push_reserved(self.literals.len());
        Ok(())
    }

    /// The literals of the clause with this number, from 0 on.
    pub fn clause(&self, i: u32) -> &[Lit]
        requires { i < length self.now.clauses }
        ensures at { slice_get self.now.clauses i ≡ Some result.now }
        ensures over { IsOver self.now.vars result.now }
    {
        let i = i as usize;
        piece(self.literals.as_slice(), self.bounds[i], self.bounds[i + 1])
    }

    /// How many clauses there are.
    pub fn len(&self) -> u32
        ensures { result ≡ length self.now.clauses }
    {
        (self.bounds.len() - 1) as u32
    }

    /// How many variables there are; they are numbered from 0.
    pub fn vars(&self) -> u32
        ensures value { result ≡ self.now.vars }
        ensures small { result ≤ 2 ^ 31 }
        ensures over { AreOver self.now.vars self.now.clauses }
    {
        self.vars
    }

    /// Adds a variable and answers its number. It takes no memory.
    pub fn fresh_variable(&mut self) -> u32
        requires { self.old.vars < 2 ^ 31 }
        ensures number { result ≡ self.old.vars }
        ensures more { self.new ≡ record self.old { vars = self.old.vars + 1 } }
    {
        let var = self.vars;
        self.vars += 1;
        var
    }
}
