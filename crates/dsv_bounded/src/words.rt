// Words of inputs and starts.
ghost use Rattle.std.specs.Prelude.{◌≡◌, ◌<◌, ◌^◌, ◌++◌, IfOk};
ghost use Rattle.std.specs.List.{All};
ghost use Rattle.dsv_system.specs.Systems.{zeros};
ghost use Rattle.dsv_unroll.specs.Words.{spelled_word, spelled_words};
ghost use Rattle.dsv_word.specs.Words.{width};

use dsv_base::{NoMemory, WordList};
use dsv_word::Format;
use std::alloc::Global;

/// So many words 0.
pub fn zero_words(alloc: Global, count: u32) -> Result<WordList, NoMemory>
    ensures { IfOk result (λ words. words ≡ zeros count) }
{
    let mut words = WordList::new(alloc);
    for i in 0..count {
        words.push(0)?;
    }
    Ok(words)
}

/// The word that a value spells in two's complement.
#[tactic(auto, using(crate::proofs::WordValues::width_powers))]
fn word(format: &Format, value: &u128) -> i64
    requires { value.now < 2 ^ width format.now }
    ensures { result ≡ spelled_word format.now value.now }
{
    let number = *value as i64;
    if number <= format.hi() {
        number
    } else {
        number + 2 * format.lo()
    }
}

/// The words, and then those that the values spell.
pub fn words_after(words: WordList, format: &Format, values: &[u128]) -> Result<WordList, NoMemory>
    requires { All (λ value. value < 2 ^ width format.now) values.now }
    ensures { IfOk result (λ all. all ≡ words ++ spelled_words format.now values.now) }
{
    let mut all = words;
    for value in values {
        all.push(word(format, value))?;
    }
    Ok(all)
}
