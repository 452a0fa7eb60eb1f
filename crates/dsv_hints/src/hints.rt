// Hints: one clause after another makes one more literal true, up to a clause that is false.
ghost use Rattle.std.specs.Prelude.{◌≡◌, ◌<◌, OnOk};
ghost use Rattle.dsv_cnf.specs.Formula.{IsOver};
ghost use Rattle.dsv_cnf.specs.LiteralSet.{none, set_of};
ghost use Rattle.dsv_hints.specs.Clauses.{has_negation, is_over, outside, with_all};
ghost use Rattle.dsv_hints.specs.Derivation.{clause_answer, hints_answer, move_of};
ghost use Rattle.dsv_hints.specs.MoveOver.{IsMoveOver};

use crate::step::StepRefusal;
use crate::store::Store;
use dsv_cnf::{Lit, LiteralSet};

/// What a hinted clause does, where some literals are false.
#[derive(Clone, Copy)]
pub enum Move {
    /// All its literals are false.
    Ends,
    /// All but this open one are false, so it is true.
    Makes(Lit),
    /// Anything else.
    Stuck,
}

fn move_by(clause: &[Lit], set: &LiteralSet) -> Move
    requires { IsOver set.now.vars clause.now }
    ensures value { result ≡ move_of (set_of set.now) (outside (set_of set.now) clause.now) }
    ensures over { IsMoveOver set.now.vars result }
{
    let mut open: Option<Lit> = None;
    for literal in clause {
        if !set.contains(*literal) {
            match open {
                None => open = Some(*literal),
                Some(first) => {
                    if !first.is(literal) {
                        return Move::Stuck;
                    }
                }
            }
        }
    }
    match open {
        None => Move::Ends,
        Some(first) => {
            if set.contains(first.negation()) {
                Move::Stuck
            } else {
                Move::Makes(first)
            }
        }
    }
}

/// Takes the hints in order, where the literals of the set are false.
fn take_hints(store: &Store, set: &mut LiteralSet, hints: &[u64]) -> Result<(), StepRefusal>
    requires { set.old.vars ≡ store.now.vars }
    ensures answer { result ≡ hints_answer store.now.live hints.now (set_of set.old) }
    ensures vars { set.new.vars ≡ set.old.vars }
{
    for (i, hint) in hints.iter().enumerate() {
        let Some(clause) = store.clause(*hint) else {
            return Err(StepRefusal::UnknownId);
        };
        match move_by(clause, set) {
            Move::Ends => {
                return if i + 1 == hints.len() {
                    Ok(())
                } else {
                    Err(StepRefusal::NotUnit)
                };
            }
            Move::Makes(literal) => set.insert(literal.negation()),
            Move::Stuck => return Err(StepRefusal::NotUnit),
        }
    }
    Err(StepRefusal::NoConflict)
}

fn is_over(clause: &[Lit], vars: u32) -> bool
    ensures { result ≡ is_over vars clause.now }
{
    for literal in clause {
        if literal.var() >= vars {
            return false;
        }
    }
    true
}

fn insert_all(set: &mut LiteralSet, clause: &[Lit])
    requires { IsOver set.old.vars clause.now }
    ensures vars { set.new.vars ≡ set.old.vars }
    ensures set { set_of set.new ≡ with_all clause.now (set_of set.old) }
{
    for literal in clause {
        set.insert(*literal);
    }
}

/// Whether the set has the negation of some literal of the clause.
fn has_negation(set: &LiteralSet, clause: &[Lit]) -> bool
    requires { IsOver set.now.vars clause.now }
    ensures { result ≡ has_negation (set_of set.now) clause.now }
{
    for literal in clause {
        if set.contains(literal.negation()) {
            return true;
        }
    }
    false
}

/// Tests an added clause and its hints, with an empty set, and leaves what it marked.
pub(crate) fn test_clause(
    store: &Store,
    set: &mut LiteralSet,
    id: u64,
    clause: &[Lit],
    hints: &[u64],
) -> Result<(), StepRefusal>
    requires vars { set.old.vars ≡ store.now.vars }
    requires empty { set_of set.old ≡ none }
    ensures answer { result ≡ clause_answer store.now.vars store.now.last store.now.live id
        clause.now hints.now }
    ensures over { OnOk result (IsOver store.now.vars clause.now) }
    ensures vars { set.new.vars ≡ set.old.vars }
{
    if !store.is_after(id) {
        return Err(StepRefusal::IdOrder);
    }
    if !is_over(clause, store.vars()) {
        return Err(StepRefusal::Literal);
    }
    insert_all(set, clause);
    if has_negation(set, clause) {
        return Err(StepRefusal::Tautology);
    }
    take_hints(store, set, hints)
}
