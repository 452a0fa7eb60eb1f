// A goal is rewritten in one pass: each node becomes what the rules make of it over the terms that
// the nodes before it became. No rule looks at a term again, so the work is linear in the nodes,
// and a circuit's gates fold what is left.
ghost use Rattle.std.specs.Prelude.{◌≡◌, ◌<◌, ◌≤◌, ℕ, List, length, All, OnOk, IfOk};
ghost use Rattle.dsv_term.specs.Building.{built_of};
ghost use Rattle.dsv_term.specs.Growth.{AreSound};
ghost use Rattle.dsv_term.specs.Terms.{AreValues, word_of, width_of};
ghost use Rattle.dsv_term.specs.Word.{IsWidth};
ghost use Rattle.dsv_term.specs.Limits.{max_width};
ghost use Rattle.dsv_term.specs.TermsView.{no_terms};
ghost use Rattle.dsv_rewrite.specs.Rules.{product_by, extension_term, extract_term, term_of};
ghost use Rattle.dsv_rewrite.specs.Rules.{rewritten, inputs_from, simple_of};
ghost use Rattle.dsv_rewrite.specs.Constants.{constant_at};
ghost use Rattle.dsv_rewrite.specs.Ready.{IsReady};
ghost use Rattle.dsv_rewrite.specs.Simple.{AreSimple};

use crate::constants::{constant_at, constant_term};
use crate::digits::multiple_term;
use crate::pairs;
use crate::part::{Part, part_term};
use dsv_base::NoMemory;
use dsv_term::{Goal, TermId, TermNode, Terms};
use std::alloc::Global;

/// A product by a number: that of a constant, or a sum of shifted copies.
fn product_term(terms: &mut Terms, coeff: i64, a: TermId) -> Result<TermId, NoMemory>
    requires sound { AreSound terms.old }
    requires stands { a.0 < length terms.old.nodes }
    ensures { IfOk result (λ id. built_of terms.new id
        ≡ product_by terms.old (constant_at terms.old a) coeff a) }
{
    match constant_at(terms, a) {
        Some(x) => constant_term(terms, x.product(coeff)),
        None => multiple_term(terms, coeff, a),
    }
}

/// A whole term, extended to a width.
fn extension_term(terms: &mut Terms, a: TermId, width: u32) -> Result<TermId, NoMemory>
    requires sound { AreSound terms.old }
    requires stands { a.0 < length terms.old.nodes }
    requires wider { width_of terms.old a ≤ width }
    requires narrow { width ≤ max_width }
    ensures { IfOk result (λ id. built_of terms.new id ≡ extension_term terms.old a width) }
{
    let all = Part {
        of: a,
        high: terms.width(a) - 1,
        low: 0,
    };
    part_term(terms, width, all)
}

/// Bits of a term.
fn extract_term(terms: &mut Terms, a: TermId, high: u32, low: u32) -> Result<TermId, NoMemory>
    requires sound { AreSound terms.old }
    requires stands { a.0 < length terms.old.nodes }
    requires order { low ≤ high }
    requires inside { high < width_of terms.old a }
    ensures { IfOk result (λ id. built_of terms.new id ≡ extract_term terms.old a high low) }
{
    let limit = terms.width(a);
    prove!(high < limit);
    let width = high + 1 - low;
    part_term(terms, width, Part { of: a, high, low })
}

/// The term that an earlier node became.
fn term_of(ids: &[TermId], id: TermId) -> TermId
    requires { id.0 < length ids.now }
    ensures { result ≡ term_of ids.now id }
{
    ids[id.0 as usize]
}

/// The term that a node becomes.
fn rewritten(terms: &mut Terms, ids: &[TermId], node: TermNode) -> Result<TermId, NoMemory>
    requires sound { AreSound terms.old }
    requires ready { IsReady terms.old ids.now node }
    ensures { IfOk result (λ id. built_of terms.new id ≡ rewritten terms.old ids.now node) }
{
    match node {
        TermNode::Input(k) => Ok(TermId(k)),
        TermNode::Constant { width, value } => terms.constant(width, value),
        TermNode::Add(a, b) => pairs::sum_term(terms, term_of(ids, a), term_of(ids, b)),
        TermNode::Sub(a, b) => pairs::difference_term(terms, term_of(ids, a), term_of(ids, b)),
        TermNode::Slt(a, b) => pairs::signed_less_term(terms, term_of(ids, a), term_of(ids, b)),
        TermNode::Sle(a, b) => pairs::signed_at_most_term(terms, term_of(ids, a), term_of(ids, b)),
        TermNode::Ult(a, b) => pairs::less_term(terms, term_of(ids, a), term_of(ids, b)),
        TermNode::Eq(a, b) => pairs::same_term(terms, term_of(ids, a), term_of(ids, b)),
        TermNode::And(a, b) => pairs::and_term(terms, term_of(ids, a), term_of(ids, b)),
        TermNode::Or(a, b) => pairs::or_term(terms, term_of(ids, a), term_of(ids, b)),
        TermNode::Concat(a, b) => pairs::joined_term(terms, term_of(ids, a), term_of(ids, b)),
        TermNode::Neg(a) => pairs::negation_term(terms, term_of(ids, a)),
        TermNode::Not(a) => pairs::complement_term(terms, term_of(ids, a)),
        TermNode::MulConst { of: a, coeff } => product_term(terms, coeff, term_of(ids, a)),
        TermNode::Sext { of: a, width } => extension_term(terms, term_of(ids, a), width),
        TermNode::Extract { of: a, high, low } => extract_term(terms, term_of(ids, a), high, low),
        TermNode::Ite(c, a, b) => pairs::choice_term(
            terms,
            term_of(ids, c),
            term_of(ids, a),
            term_of(ids, b),
        ),
    }
}

/// Puts inputs of these widths where there are no terms yet.
fn put_inputs(terms: &mut Terms, widths: &[u32]) -> Result<(), NoMemory>
    requires empty { terms.old ≡ no_terms }
    requires widths { All IsWidth widths.now }
    ensures { OnOk result (terms.new ≡ inputs_from widths.now no_terms) }
{
    for width in widths {
        terms.input(*width)?;
    }
    Ok(())
}

/// The goal made simpler: it has the same inputs, and the same root value for all values of them.
/// Constants are folded, products by constants are sums of shifted copies in signed digits, and
/// equal terms are shared.
pub fn simplify(alloc: Global, goal: &Goal) -> Result<Goal, NoMemory>
    ensures made { IfOk result
        (λ new. built_of new.terms new.root ≡ simple_of goal.now.terms goal.now.root) }
    ensures inputs { IfOk result (λ new. new.terms.inputs ≡ goal.now.terms.inputs) }
    ensures value { IfOk result (λ new. (values : List ℕ) → AreValues goal.now.terms.inputs values
        → word_of new.terms values new.root ≡ word_of goal.now.terms values goal.now.root) }
    // No product by a constant is left, and no node over constants alone.
    ensures simple { IfOk result (λ new. AreSimple new.terms) }
{
    let mut terms = Terms::new(alloc);
    put_inputs(&mut terms, goal.terms.inputs())?;
    let nodes = goal.terms.nodes();
    let mut ids = Vec::with_capacity(alloc, nodes.len())?;
    for node in nodes {
        let id = rewritten(&mut terms, &ids, *node)?;
        ids.push(id)?;
    }
    let root = term_of(&ids, goal.root);
    let new = Goal::new(alloc, terms, root)?;
    Ok(new)
}
