// The rules for nodes over terms that may be constants.
ghost use Rattle.std.specs.Prelude.{◌≡◌, ◌<◌, ◌≤◌, ◌+◌, length, IfOk};
ghost use Rattle.dsv_term.specs.declared.node.TermNode.TheVariants.{And, Or};
ghost use Rattle.dsv_term.specs.Limits.{max_width};
ghost use Rattle.dsv_term.specs.Building.{built_of};
ghost use Rattle.dsv_term.specs.Growth.{AreSound};
ghost use Rattle.dsv_term.specs.Terms.{width_of};
ghost use Rattle.dsv_term.specs.Word.{IsWord};
ghost use Rattle.dsv_rewrite.specs.Pairs.{sum_term, difference_term, negation_term};
ghost use Rattle.dsv_rewrite.specs.Pairs.{complement_term, signed_less_term};
ghost use Rattle.dsv_rewrite.specs.Pairs.{signed_at_most_term, less_term, same_term, known_or};
ghost use Rattle.dsv_rewrite.specs.Pairs.{end_term, and_term, or_term, joined_term, choice_term};

use crate::constants::{constant_at, constant_term, is_full};
use dsv_base::NoMemory;
use dsv_term::{TermId, Terms, Word};

/// The sum: 0 + b is b, and a + 0 is a.
pub(crate) fn sum_term(terms: &mut Terms, a: TermId, b: TermId) -> Result<TermId, NoMemory>
    requires sound { AreSound terms.old }
    requires first { a.0 < length terms.old.nodes }
    requires second { b.0 < length terms.old.nodes }
    requires alike { width_of terms.old a ≡ width_of terms.old b }
    ensures { IfOk result (λ id. built_of terms.new id ≡ sum_term terms.old a b) }
{
    match (constant_at(terms, a), constant_at(terms, b)) {
        (Some(x), Some(y)) => constant_term(terms, x.sum(y)),
        (Some(x), None) if x.number == 0 => Ok(b),
        (None, Some(y)) if y.number == 0 => Ok(a),
        _ => terms.add(a, b),
    }
}

/// The difference: a - 0 is a, and a - a is 0.
pub(crate) fn difference_term(terms: &mut Terms, a: TermId, b: TermId) -> Result<TermId, NoMemory>
    requires sound { AreSound terms.old }
    requires first { a.0 < length terms.old.nodes }
    requires second { b.0 < length terms.old.nodes }
    requires alike { width_of terms.old a ≡ width_of terms.old b }
    ensures { IfOk result (λ id. built_of terms.new id ≡ difference_term terms.old a b) }
{
    match (constant_at(terms, a), constant_at(terms, b)) {
        (Some(x), Some(y)) => constant_term(terms, x.difference(y)),
        (None, Some(y)) if y.number == 0 => Ok(a),
        (None, None) if a == b => {
            let width = terms.width(a);
            terms.constant(width, 0)
        }
        _ => terms.sub(a, b),
    }
}

/// Whether a is less than b in two's complement: no term is less than itself.
pub(crate) fn signed_less_term(terms: &mut Terms, a: TermId, b: TermId) -> Result<TermId, NoMemory>
    requires sound { AreSound terms.old }
    requires first { a.0 < length terms.old.nodes }
    requires second { b.0 < length terms.old.nodes }
    requires alike { width_of terms.old a ≡ width_of terms.old b }
    ensures { IfOk result (λ id. built_of terms.new id ≡ signed_less_term terms.old a b) }
{
    match (constant_at(terms, a), constant_at(terms, b)) {
        (Some(x), Some(y)) => constant_term(terms, x.signed_less(y)),
        (None, None) if a == b => terms.constant(1, 0),
        _ => terms.slt(a, b),
    }
}

/// Whether a is at most b in two's complement: each term is at most itself.
pub(crate) fn signed_at_most_term(
    terms: &mut Terms,
    a: TermId,
    b: TermId,
) -> Result<TermId, NoMemory>
    requires sound { AreSound terms.old }
    requires first { a.0 < length terms.old.nodes }
    requires second { b.0 < length terms.old.nodes }
    requires alike { width_of terms.old a ≡ width_of terms.old b }
    ensures { IfOk result (λ id. built_of terms.new id ≡ signed_at_most_term terms.old a b) }
{
    match (constant_at(terms, a), constant_at(terms, b)) {
        (Some(x), Some(y)) => constant_term(terms, x.signed_at_most(y)),
        (None, None) if a == b => terms.constant(1, 1),
        _ => terms.sle(a, b),
    }
}

/// Whether a is less than b: no term is less than itself.
pub(crate) fn less_term(terms: &mut Terms, a: TermId, b: TermId) -> Result<TermId, NoMemory>
    requires sound { AreSound terms.old }
    requires first { a.0 < length terms.old.nodes }
    requires second { b.0 < length terms.old.nodes }
    requires alike { width_of terms.old a ≡ width_of terms.old b }
    ensures { IfOk result (λ id. built_of terms.new id ≡ less_term terms.old a b) }
{
    match (constant_at(terms, a), constant_at(terms, b)) {
        (Some(x), Some(y)) => constant_term(terms, x.less_than(y)),
        (None, None) if a == b => terms.constant(1, 0),
        _ => terms.ult(a, b),
    }
}

/// Whether a and b are the same, as each term and itself are.
pub(crate) fn same_term(terms: &mut Terms, a: TermId, b: TermId) -> Result<TermId, NoMemory>
    requires sound { AreSound terms.old }
    requires first { a.0 < length terms.old.nodes }
    requires second { b.0 < length terms.old.nodes }
    requires alike { width_of terms.old a ≡ width_of terms.old b }
    ensures { IfOk result (λ id. built_of terms.new id ≡ same_term terms.old a b) }
{
    match (constant_at(terms, a), constant_at(terms, b)) {
        (Some(x), Some(y)) => constant_term(terms, x.same_as(y)),
        (None, None) if a == b => terms.constant(1, 1),
        _ => terms.eq(a, b),
    }
}

/// The term that stands for a node over a constant and another term, where there is one: `zero`
/// where the constant is 0, and `full` where all its bits are 1.
fn end_term(x: Word, zero: TermId, full: TermId) -> Option<TermId>
    requires { IsWord x }
    ensures { result ≡ end_term x zero full }
{
    if x.number == 0 {
        return Some(zero);
    }
    if is_full(x) {
        return Some(full);
    }
    None
}

/// The bits that both have, unless the term of them is known.
fn and_unless(
    terms: &mut Terms,
    known: Option<TermId>,
    a: TermId,
    b: TermId,
) -> Result<TermId, NoMemory>
    requires first { a.0 < length terms.old.nodes }
    requires second { b.0 < length terms.old.nodes }
    requires alike { width_of terms.old a ≡ width_of terms.old b }
    ensures { IfOk result (λ id. built_of terms.new id ≡ known_or terms.old known (And a b)) }
{
    match known {
        Some(id) => Ok(id),
        None => terms.and(a, b),
    }
}

/// The bits that both have: a and a is a.
pub(crate) fn and_term(terms: &mut Terms, a: TermId, b: TermId) -> Result<TermId, NoMemory>
    requires sound { AreSound terms.old }
    requires first { a.0 < length terms.old.nodes }
    requires second { b.0 < length terms.old.nodes }
    requires alike { width_of terms.old a ≡ width_of terms.old b }
    ensures { IfOk result (λ id. built_of terms.new id ≡ and_term terms.old a b) }
{
    match (constant_at(terms, a), constant_at(terms, b)) {
        (Some(x), Some(y)) => constant_term(terms, x.and(y)),
        (Some(x), None) => and_unless(terms, end_term(x, a, b), a, b),
        (None, Some(y)) => and_unless(terms, end_term(y, b, a), a, b),
        (None, None) if a == b => Ok(a),
        (None, None) => terms.and(a, b),
    }
}

/// The bits that one of the two has, unless the term of them is known.
fn or_unless(
    terms: &mut Terms,
    known: Option<TermId>,
    a: TermId,
    b: TermId,
) -> Result<TermId, NoMemory>
    requires first { a.0 < length terms.old.nodes }
    requires second { b.0 < length terms.old.nodes }
    requires alike { width_of terms.old a ≡ width_of terms.old b }
    ensures { IfOk result (λ id. built_of terms.new id ≡ known_or terms.old known (Or a b)) }
{
    match known {
        Some(id) => Ok(id),
        None => terms.or(a, b),
    }
}

/// The bits that one of the two has: a or a is a.
pub(crate) fn or_term(terms: &mut Terms, a: TermId, b: TermId) -> Result<TermId, NoMemory>
    requires sound { AreSound terms.old }
    requires first { a.0 < length terms.old.nodes }
    requires second { b.0 < length terms.old.nodes }
    requires alike { width_of terms.old a ≡ width_of terms.old b }
    ensures { IfOk result (λ id. built_of terms.new id ≡ or_term terms.old a b) }
{
    match (constant_at(terms, a), constant_at(terms, b)) {
        (Some(x), Some(y)) => constant_term(terms, x.or(y)),
        (Some(x), None) => or_unless(terms, end_term(x, b, a), a, b),
        (None, Some(y)) => or_unless(terms, end_term(y, a, b), a, b),
        (None, None) if a == b => Ok(a),
        (None, None) => terms.or(a, b),
    }
}

/// The bits of a above those of b.
pub(crate) fn joined_term(terms: &mut Terms, a: TermId, b: TermId) -> Result<TermId, NoMemory>
    requires sound { AreSound terms.old }
    requires first { a.0 < length terms.old.nodes }
    requires second { b.0 < length terms.old.nodes }
    requires narrow { width_of terms.old a + width_of terms.old b ≤ max_width }
    ensures { IfOk result (λ id. built_of terms.new id ≡ joined_term terms.old a b) }
{
    match (constant_at(terms, a), constant_at(terms, b)) {
        (Some(x), Some(y)) => constant_term(terms, x.concatenation(y)),
        _ => terms.concat(a, b),
    }
}

/// The negation.
pub(crate) fn negation_term(terms: &mut Terms, a: TermId) -> Result<TermId, NoMemory>
    requires sound { AreSound terms.old }
    requires stands { a.0 < length terms.old.nodes }
    ensures { IfOk result (λ id. built_of terms.new id ≡ negation_term terms.old a) }
{
    match constant_at(terms, a) {
        Some(x) => constant_term(terms, x.negation()),
        None => terms.neg(a),
    }
}

/// The bits turned over.
pub(crate) fn complement_term(terms: &mut Terms, a: TermId) -> Result<TermId, NoMemory>
    requires sound { AreSound terms.old }
    requires stands { a.0 < length terms.old.nodes }
    ensures { IfOk result (λ id. built_of terms.new id ≡ complement_term terms.old a) }
{
    match constant_at(terms, a) {
        Some(x) => constant_term(terms, x.complement()),
        None => terms.not(a),
    }
}

/// What a is where c is 1, and else what b is: a constant condition chooses, and of two equal terms
/// either is the choice.
pub(crate) fn choice_term(
    terms: &mut Terms,
    c: TermId,
    a: TermId,
    b: TermId,
) -> Result<TermId, NoMemory>
    requires sound { AreSound terms.old }
    requires condition { c.0 < length terms.old.nodes }
    requires bit { width_of terms.old c ≡ 1 }
    requires first { a.0 < length terms.old.nodes }
    requires second { b.0 < length terms.old.nodes }
    requires alike { width_of terms.old a ≡ width_of terms.old b }
    ensures { IfOk result (λ id. built_of terms.new id ≡ choice_term terms.old c a b) }
{
    match constant_at(terms, c) {
        Some(x) => Ok(if x.number == 1 { a } else { b }),
        None if a == b => Ok(a),
        None => terms.ite(c, a, b),
    }
}
