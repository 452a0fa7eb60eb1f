// Terms, each made once.
ghost use Rattle.std.specs.Prelude.{◌-◌, ◌^◌, ◌<◌, ◌≤◌, OnOk, OnErr};

use crate::node::{TermId, TermNode};
use dsv_base::NoMemory;
use indexmap::IndexSet;
use std::alloc::Global;
use std::marker::Model;

/// So many terms have over 32 GB, which is want of memory.
const TOO_MANY: usize = 0x7fff_ffff;

/// Accepts one more than so many terms or inputs, if these are fewer than 2^31 - 1.
fn accept_more(count: usize) -> Result<(), NoMemory>
    ensures few { OnOk result (count < 2 ^ 31 - 1) }
    ensures many { OnErr result (2 ^ 31 - 1 ≤ count) }
{
    if count >= TOO_MANY {
        return Err(NoMemory);
    }
    Ok(())
}

/// Terms in the order in which they were made. A term that is equal to an earlier one is that one.
#[derive(Drop)]
pub struct Terms {
    inputs: Vec<u32>,
    nodes: IndexSet<TermNode>,
    widths: Vec<u32>,
}

impl Model for Terms {
    ghost use Rattle.dsv_term.specs.TermsView.{TermsView};

    ghost Value = { TermsView };

    ghost use Rattle.dsv_term.specs.TermsInside.{view_of, IsTerms};

    ghost view = { view_of };

    ghost invariant = { IsTerms };
}

impl Terms {
    ghost use Rattle.std.specs.Prelude.{◌≡◌, ◌<◌, ◌↔◌, List, ℕ, [], length, slice_index};
    ghost use Rattle.std.specs.Prelude.{slice_get, Some, All, OnErr, IfOk, IsTrue};
    ghost use Rattle.dsv_term.specs.Making.{made_id};
    ghost use Rattle.dsv_term.specs.Word.{IsWidth};
    ghost use Rattle.dsv_term.specs.TermNode.{IsLawful, node_width, node_word};
    ghost use Rattle.dsv_term.specs.Terms.{AreTerms, Makes, MakesInput, widths_of};
    ghost use Rattle.dsv_term.specs.Terms.{width_of, words_of, word_of};

    /// No terms.
    pub fn new(alloc: Global) -> Terms
        ensures { result ≡ record { inputs = []; nodes = [] } }
    {
        Terms {
            inputs: Vec::new(alloc),
            nodes: IndexSet::new(alloc),
            widths: Vec::new(alloc),
        }
    }

    /// How many terms there are.
    pub fn len(&self) -> u32
        ensures count { result ≡ length self.now.nodes }
        ensures terms { AreTerms self.now }
    {
        self.nodes.len() as u32
    }

    /// Whether there are no terms.
    pub fn is_empty(&self) -> bool
        ensures { IsTrue result ↔ (self.now.nodes ≡ []) }
    {
        self.nodes.is_empty()
    }

    /// The width of each input.
    pub fn inputs(&self) -> &[u32]
        ensures inputs { result.now ≡ self.now.inputs }
        ensures lawful { All IsWidth result.now }
    {
        self.inputs.as_slice()
    }

    /// The nodes of all terms.
    pub fn nodes(&self) -> &[TermNode]
        ensures nodes { result.now ≡ self.now.nodes }
        ensures terms { AreTerms self.now }
    {
        self.nodes.as_slice()
    }

    /// The node of a term.
    pub fn node(&self, id: TermId) -> TermNode
        requires { id.0 < length self.now.nodes }
        ensures node { slice_get self.now.nodes id.0 ≡ Some result }
        // No other term has this node.
        ensures only { made_id self.now.nodes result ≡ id.0 }
    {
        self.nodes.as_slice()[id.0 as usize]
    }

    /// How many bits a term has.
    pub fn width(&self, id: TermId) -> u32
        requires { id.0 < length self.now.nodes }
        ensures width { result ≡ width_of self.now id }
        ensures lawful { IsWidth result }
    {
        self.widths[id.0 as usize]
    }

    /// The term of a node, which is made where it doesn't stand yet.
    pub(crate) fn make(&mut self, node: TermNode, width: u32) -> Result<TermId, NoMemory>
        requires lawful { IsLawful self.old.inputs (widths_of self.old) node }
        requires width { width ≡ node_width self.old.inputs (widths_of self.old) node }
        ensures made { IfOk result (λ id. Makes self.old self.new node id) }
        ensures value { IfOk result (λ id. (values : List ℕ) →
            word_of self.new values id
            ≡ node_word self.old.inputs values (words_of self.old values) node) }
        ensures err { OnErr result (self.new ≡ self.old) }
    {
        if !self.nodes.contains(&node) {
            accept_more(self.nodes.len())?;
        }
        self.widths.push(width)?;
        match self.nodes.insert_full(node) {
            Ok((index, added)) => {
                if added {
                    return Ok(TermId(index as u32));
                }
                self.widths.pop();
                Ok(TermId(index as u32))
            }
            Err(_) => {
                self.widths.pop();
                Err(NoMemory)
            }
        }
    }

    /// The next input, of this width, as a term that is new.
    pub fn input(&mut self, width: u32) -> Result<TermId, NoMemory>
        requires { IsWidth width }
        ensures made { IfOk result (λ id. MakesInput self.old self.new width id) }
        ensures value { IfOk result (λ id. (values : List ℕ) →
            word_of self.new values id
            ≡ record { width = width; number = slice_index values (length self.old.inputs) }) }
        ensures err { OnErr result (self.new ≡ self.old) }
    {
        accept_more(self.inputs.len())?;
        let number = self.inputs.len() as u32;
        self.inputs.push(width)?;
        match self.make(TermNode::Input(number), width) {
            Ok(id) => Ok(id),
            Err(e) => {
                self.inputs.pop();
                Err(e)
            }
        }
    }
}
