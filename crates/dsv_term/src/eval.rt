// The values of terms.
ghost use Rattle.std.specs.Prelude.{◌≡◌, ◌↔◌, ◌<◌, ◌≤◌, ◌^◌, ℕ, [], length};
ghost use Rattle.std.specs.Prelude.{slice_index, vec_capacity, All, IsTrue, IfOk};
ghost use Rattle.dsv_term.specs.TermNode.{IsLawful, AreLawful, word_at};
ghost use Rattle.dsv_term.specs.TermNode.{word_widths, node_word, words_from};
ghost use Rattle.dsv_term.specs.Terms.{AreValues, word_of, width_of};
ghost use Rattle.dsv_term.specs.Word.{IsWidth, IsWord};

use crate::node::{TermId, TermNode};
use crate::terms::Terms;
use crate::word::{Word, mask};
use dsv_base::NoMemory;
use std::alloc::Global;
use std::marker::Model;

/// Room for the words of terms. Contracts see how many words have room.
#[derive(Drop)]
pub struct Scratch {
    words: Vec<Word>,
}

impl Model for Scratch {
    ghost Value = { ℕ };

    ghost view = { λ s. vec_capacity s.words };
}

/// The word of an earlier term.
fn word_at(words: &[Word], id: TermId) -> Word
    requires stands { id.0 < length (word_widths words.now) }
    requires words { All IsWord words.now }
    ensures word { result ≡ word_at words.now id }
    ensures lawful { IsWord result }
    ensures width { result.width ≡ slice_index (word_widths words.now) id.0 }
{
    words[id.0 as usize]
}

/// The word of a node over the words of earlier ones.
fn node_word(node: TermNode, inputs: &[u32], values: &[u128], words: &[Word]) -> Word
    requires lawful { IsLawful inputs.now (word_widths words.now) node }
    requires inputs { All IsWidth inputs.now }
    requires values { AreValues inputs.now values.now }
    requires words { All IsWord words.now }
    ensures { result ≡ node_word inputs.now values.now words.now node }
{
    match node {
        TermNode::Input(k) => Word {
            width: inputs[k as usize],
            number: values[k as usize],
        },
        TermNode::Constant { width, value } => Word {
            width,
            number: value,
        },
        TermNode::Add(a, b) => word_at(words, a).sum(word_at(words, b)),
        TermNode::Sub(a, b) => word_at(words, a).difference(word_at(words, b)),
        TermNode::Slt(a, b) => word_at(words, a).signed_less(word_at(words, b)),
        TermNode::Sle(a, b) => word_at(words, a).signed_at_most(word_at(words, b)),
        TermNode::Ult(a, b) => word_at(words, a).less_than(word_at(words, b)),
        TermNode::Eq(a, b) => word_at(words, a).same_as(word_at(words, b)),
        TermNode::And(a, b) => word_at(words, a).and(word_at(words, b)),
        TermNode::Or(a, b) => word_at(words, a).or(word_at(words, b)),
        TermNode::Concat(a, b) => word_at(words, a).concatenation(word_at(words, b)),
        TermNode::Neg(a) => word_at(words, a).negation(),
        TermNode::Not(a) => word_at(words, a).complement(),
        TermNode::MulConst { of, coeff } => word_at(words, of).product(coeff),
        TermNode::Sext { of, width } => word_at(words, of).sign_extension(width),
        TermNode::Extract { of, high, low } => word_at(words, of).extract(high, low),
        TermNode::Ite(c, a, b) => word_at(words, c).choice(word_at(words, a), word_at(words, b)),
    }
}

/// Puts the words of nodes where there are none yet.
fn put_words(words: &mut Vec<Word>, nodes: &[TermNode], inputs: &[u32], values: &[u128])
    requires empty { words.old.items ≡ [] }
    requires room { length nodes.now ≤ vec_capacity words.old }
    requires nodes { AreLawful inputs.now nodes.now [] }
    requires inputs { All IsWidth inputs.now }
    requires values { AreValues inputs.now values.now }
    ensures words { words.new.items ≡ words_from inputs.now values.now nodes.now [] }
    ensures capacity { vec_capacity words.new ≡ vec_capacity words.old }
{
    for node in nodes {
        let word = node_word(*node, inputs, values, words);
        words.push_reserved(word);
    }
}

impl Terms {
    /// Room for the words of the terms that were made so far.
    pub fn reserve_eval(&self, alloc: Global) -> Result<Scratch, NoMemory>
        ensures { IfOk result (λ scratch. length self.now.nodes ≤ scratch) }
    {
        Ok(Scratch {
            words: Vec::with_capacity(alloc, self.nodes().len())?,
        })
    }

    /// Whether these are values of the inputs: one for each, below 2 to its width.
    pub fn are_values(&self, values: &[u128]) -> bool
        ensures { IsTrue result ↔ AreValues self.now.inputs values.now }
    {
        let inputs = self.inputs();
        if values.len() != inputs.len() {
            return false;
        }
        for i in 0..inputs.len() {
            if values[i] > mask(inputs[i]) {
                return false;
            }
        }
        true
    }

    /// The value of a term where the inputs have these values: a number below 2 to its width. It
    /// takes no memory.
    pub fn eval(&self, id: TermId, inputs: &[u128], scratch: &mut Scratch) -> u128
        requires stands { id.0 < length self.now.nodes }
        requires values { AreValues self.now.inputs inputs.now }
        requires room { length self.now.nodes ≤ scratch.old }
        ensures value { result ≡ (word_of self.now inputs.now id).number }
        ensures below { result < 2 ^ width_of self.now id }
        ensures scratch { scratch.new ≡ scratch.old }
    {
        let nodes = &self.nodes()[..=id.0 as usize];
        let words = &mut scratch.words;
        words.clear();
        put_words(words, nodes, self.inputs(), inputs);
        words[id.0 as usize].number
    }
}
