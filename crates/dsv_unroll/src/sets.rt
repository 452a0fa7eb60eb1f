// Whether registers are in a set, which is a conjunction of linear inequalities. Each sum is made
// from the first register on, with the greatest size that it can have so far beside it, so that it
// has no more bits than that needs; a coefficient of 0 adds nothing. The bound is compared in the
// wider of both widths.
ghost use Rattle.dsv_word.specs.Words.{width};
ghost use Rattle.std.specs.Prelude.{◌≡◌, ◌<◌, ◌≤◌, ◌+◌, ◌^◌, true, [], length, IfOk};
ghost use Rattle.std.specs.List.{list_all};
ghost use Rattle.std.specs.Int.RustNames.{unsigned_abs};
ghost use Rattle.dsv_template.specs.Candidates.{is_small, is_fit_for, is_shaped};
ghost use Rattle.dsv_template.specs.Limits.{most_bound};
ghost use Rattle.dsv_term.specs.Building.{built_of};
ghost use Rattle.dsv_term.specs.Growth.{AreSound, Adds};
ghost use Rattle.dsv_term.specs.Terms.{KeepsTerms};
ghost use Rattle.dsv_unroll.specs.SetGoals.{entry_bound, with_entry, combination_from};
ghost use Rattle.dsv_unroll.specs.SetGoals.{at_most_term, inequality_term};
ghost use Rattle.dsv_unroll.specs.SetGoals.{inequalities_from, set_term};
ghost use Rattle.dsv_unroll.specs.Beside.{sum_with};
ghost use Rattle.dsv_unroll.specs.Ready.{IsValue, AreBits, IsSetReady};

use crate::lists::conjunction;
use crate::rules::{product_term, sum_term, widened_term, width_for};
use crate::unroller::Unroller;
use dsv_base::NoMemory;
use dsv_template::{Candidate, Inequality};
use dsv_term::{TermId, Terms, Word};
use dsv_word::Format;

/// The greatest size of a coefficient times a word.
fn entry_bound(format: &Format, coefficient: &i64) -> u128
    requires { is_small coefficient.now ≡ true }
    ensures value { result ≡ entry_bound (width format.now) coefficient.now }
    ensures small { result ≤ 2 ^ 71 }
{
    u128::from(coefficient.unsigned_abs()) * 2u128.pow(format.width() - 1)
}

/// The term of a sum, and the greatest size of its value.
#[derive(Clone, Copy, Debug)]
struct SumTerm {
    id: TermId,
    bound: u128,
}

/// A register times its coefficient more; nothing where that is 0.
fn with_entry(
    terms: &mut Terms,
    format: &Format,
    sum: SumTerm,
    coefficient: &i64,
    register: TermId,
) -> Result<SumTerm, NoMemory>
    requires sound { AreSound terms.old }
    requires sum { IsValue terms.old sum.id }
    requires register { IsValue terms.old register }
    requires small { is_small coefficient.now ≡ true }
    requires room { sum.bound ≤ 2 ^ 80 }
    ensures { IfOk result (λ made.
        sum_with terms.new made ≡ with_entry (width format.now) (sum_with terms.old sum)
        coefficient.now register) }
{
    if coefficient.unsigned_abs() == 0 {
        return Ok(sum);
    }
    let size = entry_bound(format, coefficient);
    let entry = product_term(terms, size, *coefficient, register)?;
    let bound = sum.bound + size;
    let id = sum_term(terms, bound, sum.id, entry)?;
    Ok(SumTerm { id, bound })
}

/// The sum of the registers, each times its coefficient.
fn combination_term(
    terms: &mut Terms,
    format: &Format,
    zero_bit: TermId,
    coefficients: &[i64],
    registers: &[TermId],
) -> Result<SumTerm, NoMemory>
    requires ready { IsSetReady terms.old zero_bit registers.now }
    requires count { length coefficients.now ≡ length registers.now }
    requires small { list_all is_small coefficients.now ≡ true }
    ensures { IfOk result (λ made. sum_with terms.new made
        ≡ combination_from (width format.now)
        (record { terms = terms.old; id = zero_bit; bound = 0 }) coefficients.now registers.now) }
{
    let mut sum = SumTerm {
        id: zero_bit,
        bound: 0,
    };
    for k in 0..registers.len() {
        sum = with_entry(terms, format, sum, &coefficients[k], registers[k])?;
    }
    Ok(sum)
}

/// Whether a number is at most a bound.
fn at_most_term(terms: &mut Terms, id: TermId, bound: &i64) -> Result<TermId, NoMemory>
    requires sound { AreSound terms.old }
    requires value { IsValue terms.old id }
    requires small { unsigned_abs bound.now ≤ most_bound }
    ensures { IfOk result (λ made.
        built_of terms.new made ≡ at_most_term terms.old id bound.now) }
{
    let bits = terms.width(id).max(width_for(bound.unsigned_abs().into()));
    let number = widened_term(terms, id, bits)?;
    let word = Word::of_signed(bits, (*bound).into());
    let most = terms.constant(bits, word.number)?;
    terms.sle(number, most)
}

/// Whether the registers fulfil an inequality.
fn inequality_term(
    terms: &mut Terms,
    format: &Format,
    zero_bit: TermId,
    registers: &[TermId],
    inequality: &Inequality,
) -> Result<TermId, NoMemory>
    requires ready { IsSetReady terms.old zero_bit registers.now }
    requires fit { is_fit_for (length registers.now) inequality.now ≡ true }
    ensures { IfOk result (λ made. built_of terms.new made
        ≡ inequality_term (width format.now) zero_bit registers.now terms.old inequality.now) }
{
    let coefficients = inequality.coefficients.as_slice();
    let sum = combination_term(terms, format, zero_bit, coefficients, registers)?;
    at_most_term(terms, sum.id, &inequality.bound)
}

impl<'a> Unroller<'a> {
    /// A test for each inequality.
    fn inequality_terms(
        &self,
        terms: &mut Terms,
        registers: &[TermId],
        inequalities: &[Inequality],
    ) -> Result<Vec<TermId>, NoMemory>
        requires ready { IsSetReady terms.old self.now.zero_bit registers.now }
        requires fit { list_all (is_fit_for (length registers.now)) inequalities.now ≡ true }
        ensures built { IfOk result (λ tests. record { terms = terms.new; ids = tests.items }
            ≡ inequalities_from (width self.now.net.now.format) self.now.zero_bit registers.now
            (record { terms = terms.old; ids = [] }) inequalities.now) }
        ensures sound { IfOk result (λ tests. AreSound terms.new) }
        ensures kept { IfOk result (λ tests. KeepsTerms terms.old terms.new) }
        ensures bits { IfOk result (λ tests. AreBits terms.new tests.items) }
    {
        let format = self.net.format();
        let zero_bit = self.zero_bit;
        let mut tests = Vec::new(self.alloc);
        for i in 0..inequalities.len() {
            let test = inequality_term(terms, &format, zero_bit, registers, &inequalities[i])?;
            tests.push(test)?;
        }
        Ok(tests)
    }

    /// Whether the registers are in the set.
    #[tactic(auto, unfolding(crate::specs::SetGoals::set_term))]
    pub(crate) fn set_term(
        &self,
        terms: &mut Terms,
        candidate: &Candidate,
        registers: &[TermId],
    ) -> Result<TermId, NoMemory>
        requires ready { IsSetReady terms.old self.now.zero_bit registers.now }
        requires shaped { is_shaped (length registers.now) candidate.now ≡ true }
        ensures built { IfOk result (λ inside. built_of terms.new inside
            ≡ set_term (width self.now.net.now.format) self.now.zero_bit terms.old candidate.now
            registers.now) }
        ensures adds { IfOk result (λ inside. Adds terms.old terms.new inside 1) }
    {
        let inequalities = candidate.inequalities.as_slice();
        let tests = self.inequality_terms(terms, registers, inequalities)?;
        let whole = terms.constant(1, 1)?;
        conjunction(terms, whole, &tests)
    }
}
