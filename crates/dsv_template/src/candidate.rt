// Sets of registers that are offered.
ghost use Rattle.std.specs.Prelude.{◌≡◌, ◌≤◌, ◌*◌, ◌↔◌, true, false, length, pos, neg_ℤ};
ghost use Rattle.std.specs.Prelude.{◌*ℤ◌, ◌≤ℤ◌, IsTrue};
ghost use Rattle.std.specs.List.{All, list_all};
ghost use Rattle.dsv_template.specs.Candidates.{is_small, bit_length, bit_lengths};
ghost use Rattle.dsv_template.specs.Candidates.{all_bit_lengths, is_fit_for, is_shaped};
ghost use Rattle.dsv_template.specs.Candidates.{IsSomeWord, most_entry, combination, Fulfils};
ghost use Rattle.dsv_template.specs.Candidates.{IsInSet};
ghost use Rattle.dsv_template.specs.Limits.{most_registers, most_inequalities};

use crate::limits::{
    MOST_BIT_LENGTHS, MOST_BOUND, MOST_COEFFICIENT, MOST_DEPTH, MOST_INEQUALITIES, MOST_REGISTERS,
};
use arrayvec::ArrayVec;

/// A coefficient for each register, in their order.
pub type CoefficientList = ArrayVec<i64, MOST_REGISTERS>;

/// An inequality over the registers: the sum of each coefficient times its register's word is at
/// most the bound.
#[derive(Debug, Default, Drop)]
pub struct Inequality {
    pub coefficients: CoefficientList,
    pub bound: i64,
}

/// The inequalities of a candidate.
pub type InequalityList = ArrayVec<Inequality, MOST_INEQUALITIES>;

/// A set of registers, all those that fulfil the inequalities, with a depth: how many states in a
/// row are in the set before the next one has to be.
#[derive(Debug, Drop)]
pub struct Candidate {
    pub inequalities: InequalityList,
    pub depth: u32,
}

/// How many bits the size of a number takes.
pub(crate) fn bit_length(c: &i64) -> u32
    ensures value { result ≡ bit_length c.now }
    ensures few { result ≤ 64 }
{
    64 - c.unsigned_abs().leading_zeros()
}

/// How many bits the sizes of these numbers take together.
#[tactic(auto, using(crate::proofs::Lengths::lengths))]
fn bit_lengths(coefficients: &[i64]) -> u32
    requires { length coefficients.now ≤ most_registers }
    ensures value { result ≡ bit_lengths coefficients.now }
    ensures few { result ≤ 64 * most_registers }
{
    let mut total = 0;
    for c in coefficients {
        total += bit_length(c);
    }
    total
}

/// How many bits the sizes of all coefficients take together.
#[tactic(auto, using(crate::proofs::Lengths::lengths))]
fn all_bit_lengths(inequalities: &[Inequality]) -> u32
    requires { length inequalities.now ≤ most_inequalities }
    ensures { result ≡ all_bit_lengths inequalities.now }
{
    let mut total = 0;
    for inequality in inequalities {
        total += bit_lengths(&inequality.coefficients);
    }
    total
}

/// Whether no number is too great for a coefficient.
fn are_small(coefficients: &[i64]) -> bool
    ensures { result ≡ list_all is_small coefficients.now }
{
    coefficients
        .iter()
        .all(|c| c.unsigned_abs() <= MOST_COEFFICIENT)
}

/// Whether the inequality has a coefficient for each of so many registers, and no number of it is
/// too great.
fn is_fit_for(registers: u32, inequality: &Inequality) -> bool
    ensures { result ≡ is_fit_for registers inequality.now }
{
    inequality.coefficients.len() == registers as usize
        && are_small(&inequality.coefficients)
        && inequality.bound.unsigned_abs() <= MOST_BOUND
}

/// Whether all inequalities are fit for so many registers.
fn are_fit_for(registers: u32, inequalities: &[Inequality]) -> bool
    ensures { result ≡ list_all (is_fit_for registers) inequalities.now }
{
    inequalities
        .iter()
        .all(|inequality| is_fit_for(registers, inequality))
}

/// A coefficient times a register.
fn entry(coefficient: &i64, register: &i64) -> i128
    requires small { is_small coefficient.now ≡ true }
    requires word { IsSomeWord register.now }
    ensures value { result ≡ coefficient.now *ℤ register.now }
    ensures least { neg_ℤ (pos most_entry) ≤ℤ result }
    ensures greatest { result ≤ℤ pos most_entry }
{
    i128::from(*coefficient) * i128::from(*register)
}

/// The sum of each coefficient times its register.
fn combination(coefficients: &[i64], registers: &[i64]) -> i128
    requires many { length coefficients.now ≡ length registers.now }
    requires few { length coefficients.now ≤ most_registers }
    requires small { list_all is_small coefficients.now ≡ true }
    requires words { All IsSomeWord registers.now }
    ensures { result ≡ combination coefficients.now registers.now }
{
    let mut total = 0;
    for (i, coefficient) in coefficients.iter().enumerate() {
        total += entry(coefficient, &registers[i]);
    }
    total
}

/// Whether the registers fulfil an inequality.
fn fulfils(inequality: &Inequality, registers: &[i64]) -> bool
    requires fit { is_fit_for (length registers.now) inequality.now ≡ true }
    requires words { All IsSomeWord registers.now }
    ensures { IsTrue result ↔ Fulfils registers.now inequality.now }
{
    combination(&inequality.coefficients, registers) <= i128::from(inequality.bound)
}

/// Whether the registers fulfil all of these inequalities.
fn are_fulfilled(inequalities: &[Inequality], registers: &[i64]) -> bool
    requires fit { list_all (is_fit_for (length registers.now)) inequalities.now ≡ true }
    requires words { All IsSomeWord registers.now }
    ensures { IsTrue result ↔ All (Fulfils registers.now) inequalities.now }
{
    for inequality in inequalities {
        if !fulfils(inequality, registers) {
            return false;
        }
    }
    true
}

impl Candidate {
    /// Whether the candidate's numbers are as they have to be for so many registers: each
    /// inequality has as many coefficients, none over 2^24 in size, the sizes of all coefficients
    /// take at most 1,024 bits, no bound is over 2^60 in size, and the depth is 1 to 8.
    pub fn is_shaped(&self, registers: u32) -> bool
        ensures { result ≡ is_shaped registers self.now }
    {
        are_fit_for(registers, &self.inequalities)
            && all_bit_lengths(&self.inequalities) <= MOST_BIT_LENGTHS
            && 1 <= self.depth
            && self.depth <= MOST_DEPTH
    }

    /// Whether these registers are in the set: whether they fulfil all inequalities. Each of them
    /// holds a word.
    pub fn contains(&self, registers: &[i64]) -> bool
        requires shaped { is_shaped (length registers.now) self.now ≡ true }
        requires words { All IsSomeWord registers.now }
        ensures inside { result ≡ true → IsInSet self.now registers.now }
        ensures outside { result ≡ false → IsInSet self.now registers.now → ⊥ }
    {
        are_fulfilled(&self.inequalities, registers)
    }
}
