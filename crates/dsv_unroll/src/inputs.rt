// The inputs of a goal, and the tests that they are in range. An input has all bits of a word, so
// that a model names words; an end of the range that excludes no word has no test. Where fewer
// bits spell every number of the range, the value's term is the input's low bits alone, and a
// constant where the range is one number. In range that is the same number, and what is made of it
// is narrower.
ghost use Rattle.dsv_word.specs.Words.{width, lo, hi};
ghost use Rattle.std.specs.Prelude.{◌≡◌, ◌<◌, []};
ghost use Rattle.std.specs.Prelude.{IfOk, ◌≤ℤ◌};
ghost use Rattle.dsv_term.specs.Building.{built_of};
ghost use Rattle.dsv_term.specs.Word.{IsWidth};
ghost use Rattle.dsv_term.specs.Terms.{HasBits};
ghost use Rattle.dsv_unroll.specs.Goals.{with_low_test, with_high_test, with_input, inputs_from};
ghost use Rattle.dsv_unroll.specs.Goals.{magnitude, range_width, value_term};
ghost use Rattle.dsv_unroll.specs.CycleGoals.{starts_from};
ghost use Rattle.dsv_unroll.specs.Beside.{inputs_with};
ghost use Rattle.dsv_unroll.specs.Ready.{IsLeastWidth};

use crate::rules::width_for;
use dsv_base::NoMemory;
use dsv_term::{TermId, Terms, Word};
use dsv_word::Format;
use std::alloc::Global;

/// The numbers that an input may be: those from `low` to `high`.
#[derive(Clone, Copy, Debug, PartialEq, Eq)]
pub struct InputRange {
    pub low: i64,
    pub high: i64,
}

/// Adds the test of the range's lower end, where that excludes a word.
fn put_low_test(
    terms: &mut Terms,
    format: &Format,
    low: i64,
    x: TermId,
    tests: &mut Vec<TermId>,
) -> Result<(), NoMemory>
    requires { HasBits terms.old x (width format.now) }
    ensures built { IfOk result (λ u. record { terms = terms.new; tests = tests.new.items }
        ≡ with_low_test terms.old (width format.now) low x tests.old.items) }
    ensures x { IfOk result (λ u. HasBits terms.new x (width format.now)) }
{
    if low <= format.lo() {
        return Ok(());
    }
    let bits = format.width();
    let word = Word::of_signed(bits, low.into());
    let least = terms.constant(bits, word.number)?;
    let test = terms.sle(least, x)?;
    tests.push(test)?;
    Ok(())
}

/// Adds the test of the range's upper end, where that excludes a word.
fn put_high_test(
    terms: &mut Terms,
    format: &Format,
    high: i64,
    x: TermId,
    tests: &mut Vec<TermId>,
) -> Result<(), NoMemory>
    requires { HasBits terms.old x (width format.now) }
    ensures built { IfOk result (λ u. record { terms = terms.new; tests = tests.new.items }
        ≡ with_high_test terms.old (width format.now) high x tests.old.items) }
    ensures x { IfOk result (λ u. HasBits terms.new x (width format.now)) }
{
    if format.hi() <= high {
        return Ok(());
    }
    let bits = format.width();
    let word = Word::of_signed(bits, high.into());
    let greatest = terms.constant(bits, word.number)?;
    let test = terms.sle(x, greatest)?;
    tests.push(test)?;
    Ok(())
}

/// A number, or its complement where it is negative.
fn magnitude(number: i64) -> u64
    ensures { result ≡ magnitude number }
{
    if number < 0 {
        (number + 1).unsigned_abs()
    } else {
        number.unsigned_abs()
    }
}

/// The least width in which all numbers from one end to the other are spelled.
fn range_width(low: i64, high: i64) -> u32
    ensures value { result ≡ range_width low high }
    ensures width { IsWidth result }
    ensures least { low ≤ℤ high → IsLeastWidth result low high }
{
    let greatest = magnitude(low).max(magnitude(high));
    width_for(greatest.into())
}

/// The term of an input's value where that is in range: its low bits, or a constant.
fn value_term(
    terms: &mut Terms,
    format: &Format,
    range: &InputRange,
    x: TermId,
) -> Result<TermId, NoMemory>
    requires { HasBits terms.old x (width format.now) }
    ensures { IfOk result (λ value. built_of terms.new value
        ≡ value_term terms.old (width format.now) range.now.low range.now.high x) }
{
    let bits = range_width(range.low, range.high);
    if range.low < range.high {
        if bits < format.width() {
            terms.extract(x, bits - 1, 0)
        } else {
            Ok(x)
        }
    } else {
        let word = Word::of_signed(bits, range.low.into());
        terms.constant(bits, word.number)
    }
}

/// The terms of the inputs' values, and the tests that these are in range.
#[derive(Drop)]
pub(crate) struct InputTerms {
    pub ids: Vec<TermId>,
    pub tests: Vec<TermId>,
}

/// Adds an input: the tests that it is in range, and the term of its value.
fn put_input(
    terms: &mut Terms,
    format: &Format,
    range: &InputRange,
    inputs: &mut InputTerms,
) -> Result<(), NoMemory>
    ensures { IfOk result (λ u. inputs_with terms.new inputs.new
        ≡ with_input (width format.now) range.now.low range.now.high
        (inputs_with terms.old inputs.old)) }
{
    let x = terms.input(format.width())?;
    put_low_test(terms, format, range.low, x, &mut inputs.tests)?;
    put_high_test(terms, format, range.high, x, &mut inputs.tests)?;
    let value = value_term(terms, format, range, x)?;
    inputs.ids.push(value)?;
    Ok(())
}

/// So many inputs, and the tests that they are in range.
pub(crate) fn input_terms(
    alloc: Global,
    terms: &mut Terms,
    format: &Format,
    range: &InputRange,
    samples: u32,
) -> Result<InputTerms, NoMemory>
    ensures built { IfOk result (λ inputs. inputs_with terms.new inputs
        ≡ inputs_from (width format.now) range.now.low range.now.high samples
        (record { terms = terms.old; ids = []; tests = [] })) }
{
    let mut inputs = InputTerms {
        ids: Vec::new(alloc),
        tests: Vec::new(alloc),
    };
    for i in 0..samples {
        put_input(terms, format, range, &mut inputs)?;
    }
    Ok(inputs)
}

/// So many inputs more after these terms, each in as many bits as words have.
pub(crate) fn start_inputs(
    terms: &mut Terms,
    format: &Format,
    before: Vec<TermId>,
    count: u32,
) -> Result<Vec<TermId>, NoMemory>
    ensures { IfOk result (λ ids. record { terms = terms.new; ids = ids.items }
        ≡ starts_from (width format.now) count
        (record { terms = terms.old; ids = before.items })) }
{
    let bits = format.width();
    let mut ids = before;
    for k in 0..count {
        let x = terms.input(bits)?;
        ids.push(x)?;
    }
    Ok(ids)
}
