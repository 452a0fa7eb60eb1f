// The tests of known ranges. As long as all exact values before it are words, an exact value may
// be known to be a word itself, or to lie between two ends. A test says so of its term, and a
// solver that has these tests beside the root needn't find out by conflicts what worst cases show
// at once.
//
// Each test is joined by an or with the bit that is 1 where a value before, of which nothing is
// known, was no word: from there on nothing is known, and before it the fact holds. So each test
// is 1 at all inputs in range.
ghost use Rattle.std.specs.Prelude.{◌≡◌, IfOk, slice_index_or};
ghost use Rattle.dsv_linear.specs.declared.fact.Fact.TheVariants.{Open};
ghost use Rattle.dsv_term.specs.Building.{built_of};
ghost use Rattle.dsv_term.specs.Terms.{KeepsTerms, HasBits};
ghost use Rattle.dsv_unroll.specs.FactTests.{within_test, with_test, with_word, with_fact};
ghost use Rattle.dsv_unroll.specs.FactTests.{with_entry, facts_from};
ghost use Rattle.dsv_unroll.specs.Ready.{IsValue, AreBits, IsTest, IsEntry};
ghost use Rattle.dsv_unroll.specs.Ready.{AreTested, AreKnown};
ghost use Rattle.dsv_unroll.specs.Beside.{known_with};

use crate::fitting::TestedTerm;
use dsv_base::NoMemory;
use dsv_linear::Fact;
use dsv_term::{TermId, Terms, Word};

/// The tests so far of what is known of a run's values.
#[derive(Drop)]
pub(crate) struct KnownTests {
    /// The bit that is 1 where a value so far, of which nothing is known, was no word.
    pub overflowed: TermId,
    /// Bits that are 1 at all inputs in range: each says what is known of a value, or that the bit
    /// above was 1 before it.
    pub tests: Vec<TermId>,
}

/// Whether a value lies from one number to another.
fn within_test(terms: &mut Terms, low: i64, high: i64, value: TermId) -> Result<TermId, NoMemory>
    requires { IsValue terms.old value }
    ensures { IfOk result (λ test.
        built_of terms.new test ≡ within_test terms.old low high value) }
{
    let bits = terms.width(value);
    let low = Word::of_signed(bits, low.into());
    let high = Word::of_signed(bits, high.into());
    let least = terms.constant(bits, low.number)?;
    let greatest = terms.constant(bits, high.number)?;
    let above = terms.sle(least, value)?;
    let below = terms.sle(value, greatest)?;
    terms.and(above, below)
}

/// Adds a test, which holds unless a value before was no word.
fn put_test(terms: &mut Terms, known: &mut KnownTests, test: TermId) -> Result<(), NoMemory>
    requires known { AreKnown terms.old known.old.overflowed known.old.tests.items }
    requires test { HasBits terms.old test 1 }
    ensures built { IfOk result (λ u. known_with terms.new known.new
        ≡ with_test (known_with terms.old known.old) (built_of terms.old test)) }
{
    let either = terms.or(known.overflowed, test)?;
    known.tests.push(either)?;
    Ok(())
}

/// Adds the test that a value is a word, where it is wanted.
fn put_word_test(
    terms: &mut Terms,
    known: &mut KnownTests,
    wanted: bool,
    tested: TestedTerm,
) -> Result<(), NoMemory>
    requires known { AreKnown terms.old known.old.overflowed known.old.tests.items }
    requires tested { IsTest terms.old tested }
    ensures built { IfOk result (λ u. known_with terms.new known.new
        ≡ with_word wanted (known_with terms.old known.old) tested) }
{
    if wanted {
        put_test(terms, known, tested.is_word)?;
    }
    Ok(())
}

/// Adds the test that a value lies from one number to another.
fn put_range_test(
    terms: &mut Terms,
    known: &mut KnownTests,
    low: i64,
    high: i64,
    tested: TestedTerm,
) -> Result<(), NoMemory>
    requires known { AreKnown terms.old known.old.overflowed known.old.tests.items }
    requires tested { IsTest terms.old tested }
    ensures built { IfOk result (λ u. known_with terms.new known.new
        ≡ with_test (known_with terms.old known.old)
        (within_test terms.old low high tested.value)) }
    ensures known { IfOk result
        (λ u. AreKnown terms.new known.new.overflowed known.new.tests.items) }
    ensures tested { IfOk result (λ u. IsTest terms.new tested) }
{
    let test = within_test(terms, low, high, tested.value)?;
    put_test(terms, known, test)?;
    Ok(())
}

/// Adds the tests of a value's fact, in a goal that is long or not.
fn put_fact(
    terms: &mut Terms,
    known: &mut KnownTests,
    is_long: bool,
    fact: Fact,
    tested: TestedTerm,
) -> Result<(), NoMemory>
    requires known { AreKnown terms.old known.old.overflowed known.old.tests.items }
    requires tested { IsTest terms.old tested }
    ensures built { IfOk result (λ u. known_with terms.new known.new
        ≡ with_fact is_long (known_with terms.old known.old) fact tested) }
{
    match fact {
        Fact::Open => {
            known.overflowed = terms.or(known.overflowed, tested.outside)?;
            Ok(())
        }
        Fact::Inside => put_word_test(terms, known, true, tested),
        Fact::Within { low, high } => {
            put_range_test(terms, known, low, high, tested)?;
            put_word_test(terms, known, is_long, tested)
        }
    }
}

/// The same, and nothing for a value that isn't tested.
fn put_entry(
    terms: &mut Terms,
    known: &mut KnownTests,
    is_long: bool,
    fact: Fact,
    entry: Option<TestedTerm>,
) -> Result<(), NoMemory>
    requires known { AreKnown terms.old known.old.overflowed known.old.tests.items }
    requires entry { IsEntry terms.old entry }
    ensures built { IfOk result (λ u. known_with terms.new known.new
        ≡ with_entry is_long (known_with terms.old known.old) fact entry) }
{
    match entry {
        Some(tested) => put_fact(terms, known, is_long, fact, tested),
        None => Ok(()),
    }
}

/// What is known of the value of this number: nothing after the last fact.
fn fact_at(facts: &[Fact], number: usize) -> Fact
    ensures { result ≡ slice_index_or facts.now number Open }
{
    match facts.get(number) {
        Some(fact) => *fact,
        None => Fact::Open,
    }
}

/// The tests so far and those of the facts, in a goal that is long or not.
pub(crate) fn fact_tests(
    terms: &mut Terms,
    before: KnownTests,
    is_long: bool,
    facts: &[Fact],
    tested: &[Option<TestedTerm>],
) -> Result<Vec<TermId>, NoMemory>
    requires known { AreKnown terms.old before.overflowed before.tests.items }
    requires tested { AreTested terms.old tested.now }
    ensures terms { IfOk result (λ tests. terms.new ≡ (facts_from is_long
        (known_with terms.old before) facts.now tested.now).terms) }
    ensures tests { IfOk result (λ tests. tests.items ≡ (facts_from is_long
        (known_with terms.old before) facts.now tested.now).tests) }
    ensures bits { IfOk result (λ tests. AreBits terms.new tests.items) }
    ensures kept { IfOk result (λ tests. KeepsTerms terms.old terms.new) }
{
    let mut known = before;
    for i in 0..tested.len() {
        let fact = fact_at(facts, i);
        put_entry(terms, &mut known, is_long, fact, tested[i])?;
    }
    Ok(known.tests)
}
