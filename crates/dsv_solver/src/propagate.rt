// Unit propagation over watched literals (Moskewicz and others, Chaff, 2001; in MiniSat
// `propagate`). Two literals of each clause are watched, and a clause is looked at only when one of
// these becomes false: then the other is true, or a literal that isn't false is watched in its
// place, or the other is implied, or the clause is false. Going back changes no watches. A clause's
// search for another literal begins where its last one ended (Gent, Optimal Implementation of
// Watched Literals, 2013), so that long clauses aren't passed through from their start each time.
ghost use Rattle.std.specs.Prelude.{◌≡◌, ◌≢◌, ◌<◌, ◌+◌, ℕ, true, slice_set, slice_index, OnOk};
ghost use Rattle.std.specs.Prelude.{IfOk, IfSome, MatchOption, length, slice_get, Some};
ghost use Rattle.dsv_cnf.specs.Formula.{IsOver};
ghost use Rattle.dsv_trail.specs.Places.{falsifies};
ghost use Rattle.dsv_solver.specs.Watched.{list_of};
ghost use Rattle.dsv_solver.specs.Propagation.{open_of, IsReady, IsLonger, AreSettled, IsConflict};
ghost use Rattle.dsv_solver.specs.Propagation.{IsPartner, HasNoPartner, IsNext};
ghost use Rattle.dsv_solver.specs.declared.watches.Pair.{Pair};
ghost use Rattle.dsv_solver.specs.Outcomes.{IsOutcome};

use crate::state::State;
use crate::watches::{Pair, Watch, Watches};
use dsv_base::NoMemory;
use dsv_cnf::Lit;
use dsv_trail::Trail;

/// A literal of the clause that is not false, other than this one.
fn find_open(clause: &[Lit], other: Lit, trail: &Trail) -> Option<Lit>
    requires { IsOver trail.now.vars clause.now }
    ensures { result ≡ open_of trail.now.marks other clause.now }
{
    for literal in clause {
        if !literal.is(&other) && !trail.is_false(*literal) {
            return Some(*literal);
        }
    }
    None
}

/// An open literal of a clause that may be watched, and where the next search begins.
#[derive(Clone, Copy)]
struct Next {
    literal: Lit,
    start: usize,
}

/// A literal of the clause from this place on that is not false, other than this one.
fn find_from(clause: &[Lit], other: Lit, trail: &Trail, start: u32) -> Option<Next>
    requires { IsOver trail.now.vars clause.now }
    ensures { IfSome result (λ n. IsNext trail.now.marks other clause.now n.literal) }
{
    for i in start as usize..clause.len() {
        let literal = clause[i];
        if !literal.is(&other) && !trail.is_false(literal) {
            // It is watched until the next search, which would pass it over.
            return Some(Next {
                literal,
                start: i + 1,
            });
        }
    }
    None
}

/// A literal of the clause that is not false, other than this one. It looks from the place where
/// the last search ended, and then in the whole clause.
fn find_next(clause: &[Lit], other: Lit, trail: &Trail, start: u32) -> Option<Next>
    requires { IsOver trail.now.vars clause.now }
    ensures { MatchOption result (open_of trail.now.marks other clause.now ≡ None)
        (λ n. IsNext trail.now.marks other clause.now n.literal) }
{
    match find_from(clause, other, trail, start) {
        Some(next) => Some(next),
        None => match find_open(clause, other, trail) {
            Some(literal) => Some(Next { literal, start: 0 }),
            None => None,
        },
    }
}

/// The other literal of a pair that has this one.
fn partner(pair: Pair, literal: Lit) -> Option<Lit>
    ensures { MatchOption result (HasNoPartner pair literal) (IsPartner pair literal) }
{
    let first = pair.one.is(&literal);
    if first == pair.other.is(&literal) {
        return None;
    }
    Some(if first { pair.other } else { pair.one })
}

/// Watches an open literal in place of a false one.
fn replace(watches: &mut Watches, watch: Watch, next: Next, other: Lit) -> Result<(), NoMemory>
    requires over { watch.literal.var < watches.old.vars }
    requires next_over { next.literal.var < watches.old.vars }
    requires other_over { other.var < watches.old.vars }
    requires inside { watch.place < length (list_of watches.old.lists watch.literal) }
    requires at { slice_index (list_of watches.old.lists watch.literal) watch.place
        ≡ watch.clause }
    requires known { watch.clause < length watches.old.pairs }
    requires partner { (old : Pair) → slice_get watches.old.pairs watch.clause ≡ Some old
        → IsPartner old watch.literal other }
    requires moves { next.literal ≢ watch.literal }
    ensures pairs { OnOk result (watches.new.pairs ≡ slice_set watches.old.pairs watch.clause
        (record { one = next.literal; other = other })) }
    ensures vars { watches.new.vars ≡ watches.old.vars }
    ensures len { OnOk result (length (list_of watches.new.lists watch.literal) + 1
        ≡ length (list_of watches.old.lists watch.literal)) }
    ensures prefix { OnOk result ((k : ℕ) → k < watch.place
        → slice_index (list_of watches.new.lists watch.literal) k
        ≡ slice_index (list_of watches.old.lists watch.literal) k) }
{
    let old = watches.pair(watch.clause);
    let pair = Pair {
        one: next.literal,
        other,
    };
    watches.rewatch(watch, old, pair, next.start)
}

/// What became of a clause whose watched literal is false.
enum Visit {
    /// Its other watched literal is true.
    Kept,
    /// It watches another literal now.
    Moved,
    /// All its literals are false.
    Conflict,
}

impl State {
    /// Looks at a clause whose watched literal is false.
    fn tend(&mut self, watch: Watch) -> Result<Visit, NoMemory>
        requires ready { IsReady self.old.clauses self.old.trail self.old.watches self.old.head }
        requires over { watch.literal.var < self.old.trail.vars }
        requires is_false { falsifies self.old.trail.marks watch.literal ≡ true }
        requires inside { watch.place < length (list_of self.old.watches.lists watch.literal) }
        requires at { slice_index (list_of self.old.watches.lists watch.literal) watch.place
            ≡ watch.clause }
        requires known { watch.clause < length self.old.watches.pairs }
        ensures clauses { self.new.clauses ≡ self.old.clauses }
        ensures head { self.new.head ≡ self.old.head }
        ensures ready { IfOk result (λ r. IsReady self.new.clauses self.new.trail self.new.watches
            self.new.head) }
        ensures longer { IfOk result (λ r. IsLonger self.old.trail self.new.trail) }
        ensures answer { IfOk result (IsOutcome self.new.clauses self.old.trail self.new.trail
            self.old.watches self.new.watches watch.literal watch.place watch.clause) }
    {
        let Some(other) = partner(self.watches.pair(watch.clause), watch.literal) else {
            return Ok(Visit::Kept);
        };
        if self.trail.is_false(other.negation()) {
            return Ok(Visit::Kept);
        }
        match find_next(
            self.clauses.clause(watch.clause),
            other,
            &self.trail,
            self.watches.start(watch.clause),
        ) {
            Some(next) => {
                replace(&mut self.watches, watch, next, other)?;
                Ok(Visit::Moved)
            }
            None => {
                if self.trail.is_false(other) {
                    return Ok(Visit::Conflict);
                }
                let _count = self.trail.len(); // its range, for the proof
                self.trail.imply(other, watch.clause, &self.clauses);
                Ok(Visit::Kept)
            }
        }
    }

    /// Goes through the clauses that watch a literal which is false now, up to one that is false.
    fn visit(&mut self, literal: Lit) -> Result<Option<u32>, NoMemory>
        requires ready { IsReady self.old.clauses self.old.trail self.old.watches self.old.head }
        requires over { literal.var < self.old.trail.vars }
        requires is_false { falsifies self.old.trail.marks literal ≡ true }
        ensures clauses { self.new.clauses ≡ self.old.clauses }
        ensures head { self.new.head ≡ self.old.head }
        ensures ready { IfOk result (λ r. IsReady self.new.clauses self.new.trail self.new.watches
            self.new.head) }
        ensures longer { IfOk result (λ r. IsLonger self.old.trail self.new.trail) }
        ensures answer { IfOk result (λ r. MatchOption r
            (AreSettled self.new.clauses self.new.trail self.new.watches literal)
            (IsConflict self.new.clauses self.new.trail)) }
    {
        let mut j = 0;
        while j < self.watches.count(literal) {
            let i = self.watches.entry(literal, j);
            match self.tend(Watch {
                literal,
                place: j,
                clause: i,
            })? {
                Visit::Kept => j += 1,
                Visit::Moved => {}
                Visit::Conflict => return Ok(Some(i)),
            }
        }
        Ok(None)
    }

    /// Goes on until every clause with all literals but one false has that one true, or the number
    /// of a clause that is false.
    pub fn propagate(&mut self) -> Result<Option<u32>, NoMemory>
        requires ready { IsReady self.old.clauses self.old.trail self.old.watches self.old.head }
        ensures clauses { self.new.clauses ≡ self.old.clauses }
        ensures ready { IfOk result (λ r. IsReady self.new.clauses self.new.trail self.new.watches
            self.new.head) }
        ensures longer { IfOk result (λ r. IsLonger self.old.trail self.new.trail) }
        ensures answer { IfOk result (λ r. MatchOption r (self.new.head
            ≡ length self.new.trail.marks) (IsConflict self.new.clauses self.new.trail)) }
    {
        while self.head < self.trail.len() {
            let literal = self.trail.mark(self.head).literal.negation();
            if let Some(i) = self.visit(literal)? {
                return Ok(Some(i));
            }
            self.head += 1;
        }
        Ok(None)
    }
}
