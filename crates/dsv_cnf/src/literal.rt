// Literals.
use std::marker::Model;

/// A variable or its negation. It is kept as twice the variable's number, and one more for a
/// negation.
#[derive(Clone, Copy, Debug, Default)]
pub struct Lit(u32);

impl Model for Lit {
    ghost use Rattle.dsv_cnf.specs.Literal.{Literal, code_of};

    ghost Value = { Literal };

    ghost use Rattle.dsv_cnf.specs.LiteralCode.{literal_of};
    ghost use Rattle.dsv_cnf.specs.LitInside.{inside_of, same_inside};

    ghost view = { λ l. literal_of l.0 };

    ghost inverse = { λ l. inside_of (code_of l) };

    ghost inverse_ok = { λ a h. same_inside a };
}

impl Lit {
    ghost use Rattle.std.specs.Prelude.{◌≡◌, ◌<◌, ◌^◌};
    ghost use Rattle.dsv_cnf.specs.Literal.{code_of, literal_eq, negation};

    /// The variable `var`, or its negation. Variables are numbered from 0, below 2^31.
    pub fn new(var: u32, positive: bool) -> Self
        requires { var < 2 ^ 31 }
        ensures { result ≡ record { var = var; positive = positive } }
    {
        Lit(if positive { 2 * var } else { 2 * var + 1 })
    }

    /// The number of the variable, from 0 on and below 2^31.
    pub fn var(&self) -> u32
        ensures value { result ≡ self.now.var }
        ensures small { result < 2 ^ 31 }
    {
        self.0 / 2
    }

    /// Whether it is the variable itself, and not its negation.
    pub fn is_positive(&self) -> bool
        ensures { result ≡ self.now.positive }
    {
        self.0 % 2 == 0
    }

    /// The literal that is true where this one is false.
    pub fn negation(&self) -> Self
        ensures { result ≡ negation self.now }
    {
        Lit::new(self.var(), !self.is_positive())
    }

    /// The literal's number: twice the variable, and one more for a negation.
    pub fn code(&self) -> u32
        ensures { result ≡ code_of self.now }
    {
        self.0
    }

    /// Whether the two literals are the same.
    pub fn is(&self, other: &Lit) -> bool
        ensures { result ≡ literal_eq self.now other.now }
    {
        self.0 == other.0
    }
}
