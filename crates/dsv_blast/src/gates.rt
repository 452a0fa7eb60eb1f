// Gates as clauses, by Tseitin's encoding (1968): a gate has a variable of its own, and the prime
// clauses that hold exactly where the variable is the gate's function. A gate that a constant, or
// two equal or opposite inputs, make simpler is folded first: to a literal, which adds no
// variable, or to a smaller gate. Of three inputs it suffices that two of them are so.
use crate::circuit::Circuit;
use dsv_base::NoMemory;
use dsv_cnf::Lit;

impl Circuit {
    ghost use Rattle.std.specs.Prelude.{◌≡◌, ◌<◌, ◌≤◌, OnOk, IfOk};
    ghost use Rattle.dsv_blast.specs.Gates.{gated, and_clauses, exclusive_clauses, parity_clauses};
    ghost use Rattle.dsv_blast.specs.Gates.{majority_clauses, choice_clauses, is_constant};
    ghost use Rattle.dsv_blast.specs.Gates.{is_settled, and_wired, or_wired, exclusive_wired};
    ghost use Rattle.dsv_blast.specs.Gates.{parity_wired, choice_wired, majority_wired};
    ghost use Rattle.dsv_blast.specs.Gates.{exclusive_then, choice_then};

    fn and_gate(&mut self, a: Lit, b: Lit) -> Result<Lit, NoMemory>
        requires first { a.var < self.old.formula.vars }
        requires second { b.var < self.old.formula.vars }
        ensures circuit { OnOk result (self.new ≡ (gated self.old (and_clauses a b)).circuit) }
        ensures bit { IfOk result (λ l. l ≡ (gated self.old (and_clauses a b)).bit) }
        ensures over { IfOk result (λ l. l.var < self.new.formula.vars) }
        ensures longer { OnOk result (self.old.formula.vars ≤ self.new.formula.vars) }
    {
        let output = self.next_variable()?;
        self.push_and(a, b, output)?;
        Ok(output)
    }

    /// Whether both are true.
    #[tactic(auto, unfolding(crate::specs::Gates::and_wired))]
    pub(crate) fn and(&mut self, a: Lit, b: Lit) -> Result<Lit, NoMemory>
        requires first { a.var < self.old.formula.vars }
        requires second { b.var < self.old.formula.vars }
        ensures circuit { OnOk result (self.new ≡ (and_wired self.old a b).circuit) }
        ensures bit { IfOk result (λ l. l ≡ (and_wired self.old a b).bit) }
        ensures over { IfOk result (λ l. l.var < self.new.formula.vars) }
        ensures longer { OnOk result (self.old.formula.vars ≤ self.new.formula.vars) }
    {
        let one = self.one();
        let zero = self.zero();
        if a.is(&b) {
            return Ok(a);
        }
        if a.is(&b.negation()) {
            return Ok(zero);
        }
        if a.is(&one) {
            return Ok(b);
        }
        if b.is(&one) {
            return Ok(a);
        }
        if a.is(&zero) {
            return Ok(a);
        }
        if b.is(&zero) {
            return Ok(b);
        }
        self.and_gate(a, b)
    }

    /// Whether one of the two is true.
    pub(crate) fn or(&mut self, a: Lit, b: Lit) -> Result<Lit, NoMemory>
        requires first { a.var < self.old.formula.vars }
        requires second { b.var < self.old.formula.vars }
        ensures circuit { OnOk result (self.new ≡ (or_wired self.old a b).circuit) }
        ensures bit { IfOk result (λ l. l ≡ (or_wired self.old a b).bit) }
        ensures over { IfOk result (λ l. l.var < self.new.formula.vars) }
        ensures longer { OnOk result (self.old.formula.vars ≤ self.new.formula.vars) }
    {
        let neither = self.and(a.negation(), b.negation())?;
        Ok(neither.negation())
    }

    fn exclusive_gate(&mut self, a: Lit, b: Lit) -> Result<Lit, NoMemory>
        requires first { a.var < self.old.formula.vars }
        requires second { b.var < self.old.formula.vars }
        ensures circuit { OnOk result
            (self.new ≡ (gated self.old (exclusive_clauses a b)).circuit) }
        ensures bit { IfOk result (λ l. l ≡ (gated self.old (exclusive_clauses a b)).bit) }
        ensures over { IfOk result (λ l. l.var < self.new.formula.vars) }
        ensures longer { OnOk result (self.old.formula.vars ≤ self.new.formula.vars) }
    {
        let output = self.next_variable()?;
        self.push_exclusive(a, b, output)?;
        Ok(output)
    }

    /// Whether one of the two is true, and the other is not.
    #[tactic(auto, unfolding(crate::specs::Gates::exclusive_wired))]
    pub(crate) fn exclusive_or(&mut self, a: Lit, b: Lit) -> Result<Lit, NoMemory>
        requires first { a.var < self.old.formula.vars }
        requires second { b.var < self.old.formula.vars }
        ensures circuit { OnOk result (self.new ≡ (exclusive_wired self.old a b).circuit) }
        ensures bit { IfOk result (λ l. l ≡ (exclusive_wired self.old a b).bit) }
        ensures over { IfOk result (λ l. l.var < self.new.formula.vars) }
        ensures longer { OnOk result (self.old.formula.vars ≤ self.new.formula.vars) }
    {
        let one = self.one();
        let zero = self.zero();
        if a.is(&b) {
            return Ok(zero);
        }
        if a.is(&b.negation()) {
            return Ok(one);
        }
        if a.is(&one) {
            return Ok(b.negation());
        }
        if b.is(&one) {
            return Ok(a.negation());
        }
        if a.is(&zero) {
            return Ok(b);
        }
        if b.is(&zero) {
            return Ok(a);
        }
        self.exclusive_gate(a, b)
    }

    /// Whether a literal is constant.
    fn is_constant(&self, a: Lit) -> bool
        ensures { result ≡ is_constant self.now a }
    {
        a.is(&self.one()) || a.is(&self.zero())
    }

    /// Whether one of the two is constant, or they are equal or opposite.
    fn is_settled(&self, a: Lit, b: Lit) -> bool
        ensures { result ≡ is_settled self.now a b }
    {
        (a.is(&b) || a.is(&b.negation())) || (self.is_constant(a) || self.is_constant(b))
    }

    fn parity_gate(&mut self, a: Lit, b: Lit, c: Lit) -> Result<Lit, NoMemory>
        requires first { a.var < self.old.formula.vars }
        requires second { b.var < self.old.formula.vars }
        requires third { c.var < self.old.formula.vars }
        ensures circuit { OnOk result (self.new ≡ (gated self.old (parity_clauses a b c)).circuit) }
        ensures bit { IfOk result (λ l. l ≡ (gated self.old (parity_clauses a b c)).bit) }
        ensures over { IfOk result (λ l. l.var < self.new.formula.vars) }
        ensures longer { OnOk result (self.old.formula.vars ≤ self.new.formula.vars) }
    {
        let output = self.next_variable()?;
        self.push_exclusive_unless(a, b, c, output)?;
        self.push_exclusive_unless(a.negation(), b, c, output.negation())?;
        Ok(output)
    }

    /// The exclusive or of two, and then that with a third.
    fn exclusive_then(&mut self, a: Lit, b: Lit, c: Lit) -> Result<Lit, NoMemory>
        requires first { a.var < self.old.formula.vars }
        requires second { b.var < self.old.formula.vars }
        requires third { c.var < self.old.formula.vars }
        ensures circuit { OnOk result
            (self.new ≡ (exclusive_then (exclusive_wired self.old a b) c).circuit) }
        ensures bit { IfOk result (λ l. l ≡ (exclusive_then (exclusive_wired self.old a b) c).bit) }
        ensures over { IfOk result (λ l. l.var < self.new.formula.vars) }
        ensures longer { OnOk result (self.old.formula.vars ≤ self.new.formula.vars) }
    {
        let both = self.exclusive_or(a, b)?;
        self.exclusive_or(both, c)
    }

    /// Whether one of the three is true, or all are.
    #[tactic(auto, unfolding(crate::specs::Gates::parity_wired))]
    pub(crate) fn parity(&mut self, a: Lit, b: Lit, c: Lit) -> Result<Lit, NoMemory>
        requires first { a.var < self.old.formula.vars }
        requires second { b.var < self.old.formula.vars }
        requires third { c.var < self.old.formula.vars }
        ensures circuit { OnOk result (self.new ≡ (parity_wired self.old a b c).circuit) }
        ensures bit { IfOk result (λ l. l ≡ (parity_wired self.old a b c).bit) }
        ensures over { IfOk result (λ l. l.var < self.new.formula.vars) }
        ensures longer { OnOk result (self.old.formula.vars ≤ self.new.formula.vars) }
    {
        if self.is_settled(a, b) {
            return self.exclusive_then(a, b, c);
        }
        if self.is_settled(a, c) {
            return self.exclusive_then(a, c, b);
        }
        if self.is_settled(b, c) {
            return self.exclusive_then(b, c, a);
        }
        self.parity_gate(a, b, c)
    }

    fn choice_gate(&mut self, test: Lit, a: Lit, b: Lit) -> Result<Lit, NoMemory>
        requires test { test.var < self.old.formula.vars }
        requires first { a.var < self.old.formula.vars }
        requires second { b.var < self.old.formula.vars }
        ensures circuit { OnOk result
            (self.new ≡ (gated self.old (choice_clauses test a b)).circuit) }
        ensures bit { IfOk result (λ l. l ≡ (gated self.old (choice_clauses test a b)).bit) }
        ensures over { IfOk result (λ l. l.var < self.new.formula.vars) }
        ensures longer { OnOk result (self.old.formula.vars ≤ self.new.formula.vars) }
    {
        let output = self.next_variable()?;
        self.push_chosen_makes(test, a, b, output)?;
        self.push_chosen_makes(test, a.negation(), b.negation(), output.negation())?;
        Ok(output)
    }

    /// The first where the test is true, and else the second.
    #[tactic(auto, unfolding(crate::specs::Gates::choice_wired))]
    pub(crate) fn choice(&mut self, test: Lit, a: Lit, b: Lit) -> Result<Lit, NoMemory>
        requires test { test.var < self.old.formula.vars }
        requires first { a.var < self.old.formula.vars }
        requires second { b.var < self.old.formula.vars }
        ensures circuit { OnOk result (self.new ≡ (choice_wired self.old test a b).circuit) }
        ensures bit { IfOk result (λ l. l ≡ (choice_wired self.old test a b).bit) }
        ensures over { IfOk result (λ l. l.var < self.new.formula.vars) }
        ensures longer { OnOk result (self.old.formula.vars ≤ self.new.formula.vars) }
    {
        let one = self.one();
        let zero = self.zero();
        if test.is(&one) {
            return Ok(a);
        }
        if test.is(&zero) {
            return Ok(b);
        }
        if a.is(&b) {
            return Ok(a);
        }
        if a.is(&b.negation()) {
            return self.exclusive_or(test, b);
        }
        if a.is(&one) || a.is(&test) {
            return self.or(test, b);
        }
        if a.is(&zero) || a.is(&test.negation()) {
            return self.and(test.negation(), b);
        }
        if b.is(&one) || b.is(&test.negation()) {
            return self.or(test.negation(), a);
        }
        if b.is(&zero) || b.is(&test) {
            return self.and(test, a);
        }
        self.choice_gate(test, a, b)
    }

    fn majority_gate(&mut self, a: Lit, b: Lit, c: Lit) -> Result<Lit, NoMemory>
        requires first { a.var < self.old.formula.vars }
        requires second { b.var < self.old.formula.vars }
        requires third { c.var < self.old.formula.vars }
        ensures circuit { OnOk result
            (self.new ≡ (gated self.old (majority_clauses a b c)).circuit) }
        ensures bit { IfOk result (λ l. l ≡ (gated self.old (majority_clauses a b c)).bit) }
        ensures over { IfOk result (λ l. l.var < self.new.formula.vars) }
        ensures longer { OnOk result (self.old.formula.vars ≤ self.new.formula.vars) }
    {
        let output = self.next_variable()?;
        self.push_two_make(a, b, c, output)?;
        self.push_two_make(a.negation(), b.negation(), c.negation(), output.negation())?;
        Ok(output)
    }

    /// The majority of three of which the first two are settled: the third where these differ, and
    /// else the first.
    fn settled_majority(&mut self, a: Lit, b: Lit, third: Lit) -> Result<Lit, NoMemory>
        requires first { a.var < self.old.formula.vars }
        requires second { b.var < self.old.formula.vars }
        requires third { third.var < self.old.formula.vars }
        ensures circuit { OnOk result
            (self.new ≡ (choice_then (exclusive_wired self.old a b) third a).circuit) }
        ensures bit { IfOk result
            (λ l. l ≡ (choice_then (exclusive_wired self.old a b) third a).bit) }
        ensures over { IfOk result (λ l. l.var < self.new.formula.vars) }
        ensures longer { OnOk result (self.old.formula.vars ≤ self.new.formula.vars) }
    {
        let apart = self.exclusive_or(a, b)?;
        self.choice(apart, third, a)
    }

    /// Whether two of the three are true.
    #[tactic(auto, unfolding(crate::specs::Gates::majority_wired))]
    pub(crate) fn majority(&mut self, a: Lit, b: Lit, c: Lit) -> Result<Lit, NoMemory>
        requires first { a.var < self.old.formula.vars }
        requires second { b.var < self.old.formula.vars }
        requires third { c.var < self.old.formula.vars }
        ensures circuit { OnOk result (self.new ≡ (majority_wired self.old a b c).circuit) }
        ensures bit { IfOk result (λ l. l ≡ (majority_wired self.old a b c).bit) }
        ensures over { IfOk result (λ l. l.var < self.new.formula.vars) }
        ensures longer { OnOk result (self.old.formula.vars ≤ self.new.formula.vars) }
    {
        if self.is_settled(a, b) {
            return self.settled_majority(a, b, c);
        }
        if self.is_settled(a, c) {
            return self.settled_majority(a, c, b);
        }
        if self.is_settled(b, c) {
            return self.settled_majority(b, c, a);
        }
        self.majority_gate(a, b, c)
    }
}
