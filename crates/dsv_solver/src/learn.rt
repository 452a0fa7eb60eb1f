// Learning: the way back, a clause more, and its step in the log (Marques-Silva and Sakallah, 1999;
// in MiniSat the part of `search` after `analyze`). The search goes back to the last level but the
// present one at which a literal of the learned clause became false. There all its literals but the
// first are false, so the first is implied; it is watched together with the one that became false
// last, which is the first to be open again on a further way back. Before that the variables that
// the analysis met gain activity.
ghost use Rattle.std.specs.Prelude.{◌≡◌, ◌<◌, ◌+◌, ◌-◌, ◌^◌, ◌∷◌, ◌++◌, true, [], OnOk, IfOk};
ghost use Rattle.std.specs.Prelude.{MatchOption, IfSome, length, Some};
ghost use Rattle.dsv_hints.specs.declared.step.Step.TheVariants.{Add};
ghost use Rattle.dsv_trail.specs.Levels.{IsLevelOf};
ghost use Rattle.dsv_trail.specs.Places.{falsifies, place_of};
ghost use Rattle.dsv_solver.specs.Analysis.{AllFalse};
ghost use Rattle.dsv_cnf.specs.Formula.{IsOver};
ghost use Rattle.dsv_solver.specs.Propagation.{IsReady, IsConflict};
ghost use Rattle.dsv_solver.specs.Search.{IsLast, IsLater};
ghost use Rattle.dsv_solver.specs.Learning.{HasLesson, HasGrown, IsPlan, WillLearn};

use crate::analyse::{Bounds, HintStack, Learned, analyse};
use crate::order::Order;
use crate::search::put_back;
use crate::seen::Seen;
use crate::state::{Search, State};
use crate::watches::Pair;
use dsv_base::NoMemory;
use dsv_cnf::Lit;
use dsv_hints::{LitList, Log, Step};
use dsv_trail::Trail;
use std::alloc::Global;

/// The one of two that became false last.
fn later_literal(trail: &Trail, found: Option<Lit>, literal: Lit) -> Lit
    requires over { literal.var < trail.now.vars }
    requires is_false { falsifies trail.now.marks literal ≡ true }
    requires found { IfSome found (λ l. (l.var < trail.now.vars) × (falsifies trail.now.marks l
        ≡ true)) }
    ensures { IsLater trail.now found literal result }
{
    match found {
        None => literal,
        Some(other) => {
            if trail.place_of(other) < trail.place_of(literal) {
                literal
            } else {
                other
            }
        }
    }
}

/// Of some false literals, the one that became false last.
fn highest_literal(trail: &Trail, literals: &[Lit]) -> Option<Lit>
    requires { AllFalse trail.now literals.now }
    ensures last { MatchOption result (literals.now ≡ []) (IsLast trail.now literals.now) }
    ensures known { IfSome result (λ q. (q.var < trail.now.vars) × (falsifies trail.now.marks q
        ≡ true)) }
{
    let mut found: Option<Lit> = None;
    for literal in literals {
        found = Some(later_literal(trail, found, *literal));
    }
    found
}

/// Appends the step of a learned clause.
pub(crate) fn write_step(
    alloc: Global,
    log: &mut Log,
    count: u32,
    clause: &[Lit],
    hints: HintStack,
) -> Result<(), NoMemory>
    ensures { OnOk result (log.new ≡ log.old ++ Add (count + 1) clause.now hints ∷ []) }
{
    log.push(Step::Add {
        id: u64::from(count) + 1,
        lits: LitList::from_slice(alloc, clause)?,
        hints: hints.finish(),
    })
}

/// The level at which a false literal became false.
fn level_of(trail: &Trail, literal: Lit) -> u32
    requires over { literal.var < trail.now.vars }
    requires is_false { falsifies trail.now.marks literal ≡ true }
    ensures { IsLevelOf trail.now.limits (place_of trail.now.marks literal) result }
{
    let _count = trail.len(); // its range, for the proof
    trail.level_of(literal.var())
}

/// Which literals of a learned clause are watched, and to which level the search goes back.
#[derive(Clone, Copy)]
struct Plan {
    pair: Pair,
    level: u32,
}

fn make_plan(trail: &Trail, clause: &[Lit]) -> Plan
    requires are_false { AllFalse trail.now clause.now }
    requires some { 0 < length clause.now }
    ensures { IsPlan trail.now clause.now result.pair result.level }
{
    let first = clause[0];
    match highest_literal(trail, &clause[1..]) {
        None => Plan {
            pair: Pair {
                one: first,
                other: first,
            },
            level: 0,
        },
        Some(other) => {
            let level = level_of(trail, other);
            Plan {
                pair: Pair { one: first, other },
                level,
            }
        }
    }
}

/// Lets the variables that were met in a conflict come earlier.
fn bump_all(order: &mut Order, seen: &Seen) {
    for literal in seen.as_slice() {
        order.bump(literal.var());
    }
    order.decay();
}

impl State {
    /// What a clause that is false at a level above 0 teaches.
    fn lesson(&self, alloc: Global, seen: &mut Seen, conflict: u32) -> Result<Learned, NoMemory>
        requires ready { IsReady self.now.clauses self.now.trail self.now.watches self.now.head }
        requires decided { 0 < length self.now.trail.limits }
        requires seen { seen.old.vars ≡ self.now.trail.vars }
        requires conflict { IsConflict self.now.clauses self.now.trail conflict }
        ensures lesson { IfOk result (λ r. HasLesson self.now.clauses self.now.trail r.clause
            r.hints) }
        ensures seen { seen.new.vars ≡ seen.old.vars }
    {
        seen.clear();
        let _count = self.trail.len(); // its range, for the proof
        let high = self.trail.limit(self.trail.level() - 1);
        let zero_end = self.trail.limit(0);
        let bounds = Bounds { zero_end, high };
        let learned = analyse(alloc, self, seen, conflict, bounds)?;
        Ok(learned)
    }

    /// Goes back, adds a learned clause and implies its first literal.
    fn add_learned(&mut self, order: &mut Order, clause: &[Lit], plan: Plan) -> Result<(), NoMemory>
        requires ready { IsReady self.old.clauses self.old.trail self.old.watches self.old.head }
        requires level { plan.level < length self.old.trail.limits }
        requires learned { WillLearn self.old.trail clause.now plan.pair plan.level }
        requires over { IsOver self.old.clauses.vars clause.now }
        requires few { length self.old.clauses.clauses < 2 ^ 32 - 1 }
        ensures ready { OnOk result (IsReady self.new.clauses self.new.trail self.new.watches
            self.new.head) }
        ensures clauses { OnOk result (self.new.clauses ≡ record self.old.clauses {
          clauses = self.old.clauses.clauses ++ clause.now ∷ [];
        }) }
        ensures vars { OnOk result (self.new.trail.vars ≡ self.old.trail.vars) }
    {
        let Plan { pair, level } = plan;
        let limit = self.trail.limit(level);
        put_back(order, &self.trail, limit);
        self.trail.back_to(level);
        self.head = self.trail.len();
        let number = self.clauses.len();
        let literal = pair.one;
        self.watches.add(pair)?;
        self.clauses.push_clause(clause)?;
        let _count = self.trail.len(); // its range, for the proof
        self.trail.imply(literal, number, &self.clauses);
        Ok(())
    }
}

impl Search {
    /// Learns from a clause that is false at a level above 0: goes back, adds a clause, implies its
    /// first literal, and writes its step.
    pub fn learn(&mut self, alloc: Global, conflict: u32) -> Result<(), NoMemory>
        requires ready { IsReady self.old.state.clauses self.old.state.trail
            self.old.state.watches self.old.state.head }
        requires decided { 0 < length self.old.state.trail.limits }
        requires seen { self.old.seen.vars ≡ self.old.state.trail.vars }
        requires conflict { IsConflict self.old.state.clauses self.old.state.trail conflict }
        requires few { length self.old.state.clauses.clauses < 2 ^ 32 - 1 }
        ensures ready { OnOk result (IsReady self.new.state.clauses self.new.state.trail
            self.new.state.watches self.new.state.head) }
        ensures grown { OnOk result (HasGrown self.old.state.clauses self.new.state.clauses
            self.old.log self.new.log) }
        ensures seen { OnOk result (self.new.seen.vars ≡ self.new.state.trail.vars) }
    {
        let learned = self.state.lesson(alloc, &mut self.seen, conflict)?;
        bump_all(&mut self.order, &self.seen);
        let Learned { clause, hints } = learned;
        let plan = make_plan(&self.state.trail, clause.as_slice());
        let _count = self.state.trail.len(); // its range, for the proof
        let number = self.state.clauses.len();
        write_step(alloc, &mut self.log, number, clause.as_slice(), hints)?;
        self.state
            .add_learned(&mut self.order, clause.as_slice(), plan)?;
        Ok(())
    }
}
