// The makers of terms. Each answers the term that stands already where there is one.
ghost use Rattle.std.specs.Prelude.{◌≡◌, ℕ, ◌+◌, ◌^◌, ◌<◌, ◌≤◌, List};
ghost use Rattle.std.specs.Prelude.{length, OnErr, IfOk};
ghost use Rattle.dsv_term.specs.Limits.{max_width};
ghost use Rattle.dsv_term.specs.Terms.{Makes, width_of, word_of};
ghost use Rattle.dsv_term.specs.Word.{IsWidth, sum_of, difference_of, negation_of};
ghost use Rattle.dsv_term.specs.Word.{product_of, and_of, or_of, complement_of};
ghost use Rattle.dsv_term.specs.Word.{signed_less_of, signed_at_most_of, less_of, same_of};
ghost use Rattle.dsv_term.specs.Word.{joined_of, extended_of, extract_of, choice_of};

use crate::node::{TermId, TermNode};
use crate::terms::Terms;
use dsv_base::NoMemory;

impl Terms {
    /// A constant.
    pub fn constant(&mut self, width: u32, value: u128) -> Result<TermId, NoMemory>
        requires width { IsWidth width }
        requires fits { value < 2 ^ width }
        ensures made { IfOk result
            (λ id. Makes self.old self.new (TermNode.Constant width value) id) }
        ensures value { IfOk result (λ id. (values : List ℕ) →
            word_of self.new values id
            ≡ record { width = width; number = value }) }
        ensures err { OnErr result (self.new ≡ self.old) }
    {
        self.make(TermNode::Constant { width, value }, width)
    }

    /// The sum, `bvadd`.
    pub fn add(&mut self, a: TermId, b: TermId) -> Result<TermId, NoMemory>
        requires first { a.0 < length self.old.nodes }
        requires second { b.0 < length self.old.nodes }
        requires alike { width_of self.old a ≡ width_of self.old b }
        ensures made { IfOk result (λ id. Makes self.old self.new (TermNode.Add a b) id) }
        ensures value { IfOk result (λ id. (values : List ℕ) →
            word_of self.new values id
            ≡ sum_of (word_of self.old values a) (word_of self.old values b)) }
        ensures err { OnErr result (self.new ≡ self.old) }
    {
        let width = self.width(a);
        self.make(TermNode::Add(a, b), width)
    }

    /// The difference, `bvsub`.
    pub fn sub(&mut self, a: TermId, b: TermId) -> Result<TermId, NoMemory>
        requires first { a.0 < length self.old.nodes }
        requires second { b.0 < length self.old.nodes }
        requires alike { width_of self.old a ≡ width_of self.old b }
        ensures made { IfOk result (λ id. Makes self.old self.new (TermNode.Sub a b) id) }
        ensures value { IfOk result (λ id. (values : List ℕ) →
            word_of self.new values id
            ≡ difference_of (word_of self.old values a) (word_of self.old values b)) }
        ensures err { OnErr result (self.new ≡ self.old) }
    {
        let width = self.width(a);
        self.make(TermNode::Sub(a, b), width)
    }

    /// Whether a is less than b in two's complement, `bvslt`.
    #[tactic(auto, using(crate::proofs::Made::widths_count))]
    pub fn slt(&mut self, a: TermId, b: TermId) -> Result<TermId, NoMemory>
        requires first { a.0 < length self.old.nodes }
        requires second { b.0 < length self.old.nodes }
        requires alike { width_of self.old a ≡ width_of self.old b }
        ensures made { IfOk result (λ id. Makes self.old self.new (TermNode.Slt a b) id) }
        ensures value { IfOk result (λ id. (values : List ℕ) →
            word_of self.new values id
            ≡ signed_less_of (word_of self.old values a) (word_of self.old values b)) }
        ensures err { OnErr result (self.new ≡ self.old) }
    {
        self.make(TermNode::Slt(a, b), 1)
    }

    /// Whether a is at most b in two's complement, `bvsle`.
    #[tactic(auto, using(crate::proofs::Made::widths_count))]
    pub fn sle(&mut self, a: TermId, b: TermId) -> Result<TermId, NoMemory>
        requires first { a.0 < length self.old.nodes }
        requires second { b.0 < length self.old.nodes }
        requires alike { width_of self.old a ≡ width_of self.old b }
        ensures made { IfOk result (λ id. Makes self.old self.new (TermNode.Sle a b) id) }
        ensures value { IfOk result (λ id. (values : List ℕ) →
            word_of self.new values id
            ≡ signed_at_most_of (word_of self.old values a) (word_of self.old values b)) }
        ensures err { OnErr result (self.new ≡ self.old) }
    {
        self.make(TermNode::Sle(a, b), 1)
    }

    /// Whether a is less than b, `bvult`.
    #[tactic(auto, using(crate::proofs::Made::widths_count))]
    pub fn ult(&mut self, a: TermId, b: TermId) -> Result<TermId, NoMemory>
        requires first { a.0 < length self.old.nodes }
        requires second { b.0 < length self.old.nodes }
        requires alike { width_of self.old a ≡ width_of self.old b }
        ensures made { IfOk result (λ id. Makes self.old self.new (TermNode.Ult a b) id) }
        ensures value { IfOk result (λ id. (values : List ℕ) →
            word_of self.new values id
            ≡ less_of (word_of self.old values a) (word_of self.old values b)) }
        ensures err { OnErr result (self.new ≡ self.old) }
    {
        self.make(TermNode::Ult(a, b), 1)
    }

    /// Whether a and b are the same, `=`.
    #[tactic(auto, using(crate::proofs::Made::widths_count))]
    pub fn eq(&mut self, a: TermId, b: TermId) -> Result<TermId, NoMemory>
        requires first { a.0 < length self.old.nodes }
        requires second { b.0 < length self.old.nodes }
        requires alike { width_of self.old a ≡ width_of self.old b }
        ensures made { IfOk result (λ id. Makes self.old self.new (TermNode.Eq a b) id) }
        ensures value { IfOk result (λ id. (values : List ℕ) →
            word_of self.new values id
            ≡ same_of (word_of self.old values a) (word_of self.old values b)) }
        ensures err { OnErr result (self.new ≡ self.old) }
    {
        self.make(TermNode::Eq(a, b), 1)
    }

    /// The bits that both have, `bvand`.
    pub fn and(&mut self, a: TermId, b: TermId) -> Result<TermId, NoMemory>
        requires first { a.0 < length self.old.nodes }
        requires second { b.0 < length self.old.nodes }
        requires alike { width_of self.old a ≡ width_of self.old b }
        ensures made { IfOk result (λ id. Makes self.old self.new (TermNode.And a b) id) }
        ensures value { IfOk result (λ id. (values : List ℕ) →
            word_of self.new values id
            ≡ and_of (word_of self.old values a) (word_of self.old values b)) }
        ensures err { OnErr result (self.new ≡ self.old) }
    {
        let width = self.width(a);
        self.make(TermNode::And(a, b), width)
    }

    /// The bits that one of the two has, `bvor`.
    pub fn or(&mut self, a: TermId, b: TermId) -> Result<TermId, NoMemory>
        requires first { a.0 < length self.old.nodes }
        requires second { b.0 < length self.old.nodes }
        requires alike { width_of self.old a ≡ width_of self.old b }
        ensures made { IfOk result (λ id. Makes self.old self.new (TermNode.Or a b) id) }
        ensures value { IfOk result (λ id. (values : List ℕ) →
            word_of self.new values id
            ≡ or_of (word_of self.old values a) (word_of self.old values b)) }
        ensures err { OnErr result (self.new ≡ self.old) }
    {
        let width = self.width(a);
        self.make(TermNode::Or(a, b), width)
    }

    /// The bits of a above those of b, `concat`.
    pub fn concat(&mut self, a: TermId, b: TermId) -> Result<TermId, NoMemory>
        requires first { a.0 < length self.old.nodes }
        requires second { b.0 < length self.old.nodes }
        requires narrow { width_of self.old a + width_of self.old b ≤ max_width }
        ensures made { IfOk result (λ id. Makes self.old self.new (TermNode.Concat a b) id) }
        ensures value { IfOk result (λ id. (values : List ℕ) →
            word_of self.new values id
            ≡ joined_of (word_of self.old values a) (word_of self.old values b)) }
        ensures err { OnErr result (self.new ≡ self.old) }
    {
        let width = self.width(a) + self.width(b);
        self.make(TermNode::Concat(a, b), width)
    }

    /// The negation, `bvneg`.
    pub fn neg(&mut self, a: TermId) -> Result<TermId, NoMemory>
        requires { a.0 < length self.old.nodes }
        ensures made { IfOk result (λ id. Makes self.old self.new (TermNode.Neg a) id) }
        ensures value { IfOk result (λ id. (values : List ℕ) →
            word_of self.new values id
            ≡ negation_of (word_of self.old values a)) }
        ensures err { OnErr result (self.new ≡ self.old) }
    {
        let width = self.width(a);
        self.make(TermNode::Neg(a), width)
    }

    /// The bits turned over, `bvnot`.
    pub fn not(&mut self, a: TermId) -> Result<TermId, NoMemory>
        requires { a.0 < length self.old.nodes }
        ensures made { IfOk result (λ id. Makes self.old self.new (TermNode.Not a) id) }
        ensures value { IfOk result (λ id. (values : List ℕ) →
            word_of self.new values id
            ≡ complement_of (word_of self.old values a)) }
        ensures err { OnErr result (self.new ≡ self.old) }
    {
        let width = self.width(a);
        self.make(TermNode::Not(a), width)
    }

    /// The product by a constant, modulo 2 to the width: `bvmul` by what c is there.
    pub fn mul_const(&mut self, a: TermId, c: i64) -> Result<TermId, NoMemory>
        requires { a.0 < length self.old.nodes }
        ensures made { IfOk result (λ id. Makes self.old self.new (TermNode.MulConst a c) id) }
        ensures value { IfOk result (λ id. (values : List ℕ) →
            word_of self.new values id
            ≡ product_of c (word_of self.old values a)) }
        ensures err { OnErr result (self.new ≡ self.old) }
    {
        let width = self.width(a);
        self.make(TermNode::MulConst { of: a, coeff: c }, width)
    }

    /// The same number in two's complement in a wider term, `sign_extend`.
    #[tactic(auto, using(crate::proofs::Made::widths_count))]
    pub fn sext(&mut self, a: TermId, width: u32) -> Result<TermId, NoMemory>
        requires stands { a.0 < length self.old.nodes }
        requires wider { width_of self.old a ≤ width }
        requires narrow { width ≤ max_width }
        ensures made { IfOk result (λ id. Makes self.old self.new (TermNode.Sext a width) id) }
        ensures value { IfOk result (λ id. (values : List ℕ) →
            word_of self.new values id
            ≡ extended_of width (word_of self.old values a)) }
        ensures err { OnErr result (self.new ≡ self.old) }
    {
        self.make(TermNode::Sext { of: a, width }, width)
    }

    /// The bits from `high` down to `low`, `extract`.
    pub fn extract(&mut self, a: TermId, high: u32, low: u32) -> Result<TermId, NoMemory>
        requires stands { a.0 < length self.old.nodes }
        requires order { low ≤ high }
        requires inside { high < width_of self.old a }
        ensures made { IfOk result
            (λ id. Makes self.old self.new (TermNode.Extract a high low) id) }
        ensures value { IfOk result (λ id. (values : List ℕ) →
            word_of self.new values id
            ≡ extract_of high low (word_of self.old values a)) }
        ensures err { OnErr result (self.new ≡ self.old) }
    {
        let limit = self.width(a);
        prove!(high < limit);
        self.make(TermNode::Extract { of: a, high, low }, high + 1 - low)
    }

    /// What a is where c is 1, and else what b is, `ite`.
    pub fn ite(&mut self, c: TermId, a: TermId, b: TermId) -> Result<TermId, NoMemory>
        requires condition { c.0 < length self.old.nodes }
        requires bit { width_of self.old c ≡ 1 }
        requires first { a.0 < length self.old.nodes }
        requires second { b.0 < length self.old.nodes }
        requires alike { width_of self.old a ≡ width_of self.old b }
        ensures made { IfOk result (λ id. Makes self.old self.new (TermNode.Ite c a b) id) }
        ensures value { IfOk result (λ id. (values : List ℕ) →
            word_of self.new values id
            ≡ choice_of (word_of self.old values c) (word_of self.old values a)
            (word_of self.old values b)) }
        ensures err { OnErr result (self.new ≡ self.old) }
    {
        let width = self.width(a);
        self.make(TermNode::Ite(c, a, b), width)
    }
}
