// The solver: search, lessons, restarts, and the answers. It is that of Een and Sorensson, An
// Extensible SAT-solver (2003), which is known as MiniSat, with a log of its lessons:
//
// | Here                                   | MiniSat                                  |
// |----------------------------------------|------------------------------------------|
// | `Trail`: marks, limits, levels         | `trail`, `trail_lim`, `level`, `reason`  |
// | `State::head`                          | `qhead`                                  |
// | `Watches`, `Watch`                     | `watches`, `Watcher`                     |
// | `load`                                 | `addClause`, `attachClause`              |
// | `State::propagate`, `State::visit`     | `propagate`                              |
// | `choose`, `Trail::decide`              | `pickBranchLit`, `newDecisionLevel`      |
// | `Trail::imply`                         | `uncheckedEnqueue`                       |
// | `analyse`, `Seen`                      | `analyze`, `seen`                        |
// | `Trail::back_to`, `put_back`           | `cancelUntil`                            |
// | `Order`: activities, gain, heap        | `activity`, `var_inc`, `order_heap`      |
// | `Order::bump`, `Order::decay`          | `varBumpActivity`, `varDecayActivity`    |
// | `Order::phase`                         | `polarity`                               |
// | `Luby`                                 | `luby`                                   |
// | `Search::turn`, `Search::run`, `solve` | `search`, `solve`                        |
// | `Searched`                             | `l_True`, `l_False`, `l_Undef`           |
// | `write_step`, `refute`: the log        |                                          |
// |                                        | `reduceDB`, `simplify`, `litRedundant`   |
//
// Nothing is deleted, and no learned clause is made shorter after its analysis, so a step of the
// log is a learned clause with the clauses of its analysis as hints, last first.
ghost use Rattle.std.specs.Prelude.{◌≡◌, ◌<◌, ◌≤◌, ◌+◌, ◌-◌, ◌^◌, [], IfOk, OnOk, OnErr};
ghost use Rattle.std.specs.Prelude.{length};
ghost use Rattle.dsv_solver.specs.Ending.{AreValuesOf};
ghost use Rattle.dsv_cnf.specs.Formula.{IsModel};
ghost use Rattle.dsv_hints.specs.Lessons.{IsRefutation, IsSpent};
ghost use Rattle.dsv_hints.specs.Searches.{IfHappens, IfNever, IfSpent};
ghost use Rattle.dsv_solver.specs.Propagation.{IsReady};
ghost use Rattle.dsv_solver.specs.Solving.{IsStuck, IsNewSearch, IsRefuted};
ghost use Rattle.dsv_solver.specs.Turns.{IsNewState, IsTurn, IsLastTurn, HasEnded};

use crate::analyse::refute;
use crate::first_watches::load;
use crate::learn::write_step;
use crate::luby::Luby;
use crate::order::Order;
use crate::seen::Seen;
use crate::state::{Search, State};
use crate::watches::Watches;
use dsv_base::NoMemory;
use dsv_cnf::{Assignment, Formula, Lit};
use dsv_hints::{Log, Searched};
use dsv_trail::Trail;
use std::alloc::Global;
use std::mem;

/// 2^32 - 2: so many clauses, the learned ones among them, are too many to be numbered.
const TOO_MANY_CLAUSES: u64 = 0xffff_fffe;

/// The values that a trail gives.
fn model(alloc: Global, trail: &Trail) -> Result<Assignment, NoMemory>
    requires { trail.now.vars ≤ 2 ^ 31 }
    ensures { IfOk result (AreValuesOf trail.now) }
{
    let count = trail.vars();
    let mut values = Assignment::new(alloc, count)?;
    for var in 0..count {
        let value = trail.is_false(Lit::new(var, false));
        values.set(var, value);
    }
    Ok(values)
}

/// The formula's clauses, for more after them.
fn copy(alloc: Global, formula: &Formula) -> Result<Formula, NoMemory>
    requires { length formula.now.clauses < 2 ^ 32 - 1 }
    ensures { IfOk result (λ f. f ≡ formula.now) }
{
    let mut clauses = Formula::new(alloc, formula.vars())?;
    for i in 0..formula.len() {
        clauses.push_clause(formula.clause(i))?;
    }
    Ok(clauses)
}

impl State {
    /// The formula's clauses, and no variable set.
    fn new(alloc: Global, formula: &Formula) -> Result<State, NoMemory>
        requires { length formula.now.clauses < 2 ^ 32 - 1 }
        ensures { IfOk result (IsNewState formula.now) }
    {
        let vars = formula.vars();
        Ok(State {
            clauses: copy(alloc, formula)?,
            trail: Trail::new(alloc, vars)?,
            watches: Watches::new(alloc, vars)?,
            head: 0,
        })
    }
}

impl Search {
    /// The formula's clauses, no variable set, and nothing learned.
    fn new(alloc: Global, formula: &Formula) -> Result<Search, NoMemory>
        requires { length formula.now.clauses < 2 ^ 32 - 1 }
        ensures { IfOk result (λ s. IsNewSearch formula.now s.state s.seen s.log) }
    {
        let order = Order::new(alloc, formula.vars())?;
        let seen = Seen::new(alloc, formula.vars())?;
        Ok(Search {
            state: State::new(alloc, formula)?,
            order,
            seen,
            log: Log::new(alloc),
        })
    }

    /// Appends a refutation to the log, where a clause is false at level 0.
    fn refute(&mut self, alloc: Global, conflict: u32) -> Result<(), NoMemory>
        requires seen { self.old.seen.vars ≡ self.old.state.trail.vars }
        requires stuck { IsStuck self.old.state.clauses self.old.state.trail conflict }
        ensures { OnOk result (IsRefuted self.old.state.clauses self.old.log self.new.log) }
    {
        self.seen.clear();
        let _count = self.state.trail.len(); // its range, for the proof
        let hints = refute(alloc, &self.state, &mut self.seen, conflict)?;
        let number = self.state.clauses.len();
        write_step(alloc, &mut self.log, number, &[], hints)?;
        Ok(())
    }

    /// The log; an empty one takes its place.
    fn take_log(&mut self, alloc: Global) -> Log
        ensures { result ≡ self.old.log }
    {
        mem::replace(&mut self.log, Log::new(alloc))
    }
}

/// How a search ended.
enum End {
    /// Every variable has a value.
    Full,
    /// This clause is false at level 0.
    Stuck(u32),
}

impl Search {
    /// A turn: decides and propagates, and learns from the clause that is false then. It answers
    /// how the search ended, if it did.
    fn turn(&mut self, alloc: Global, luby: &mut Luby) -> Result<Option<End>, NoMemory>
        requires ready { IsReady self.old.state.clauses self.old.state.trail
            self.old.state.watches self.old.state.head }
        requires seen { self.old.seen.vars ≡ self.old.state.trail.vars }
        requires few { length self.old.state.clauses.clauses < 2 ^ 32 - 1 }
        ensures { IfOk result (IsTurn self.old self.new) }
    {
        let Some(i) = self.state.advance(&mut self.order)? else {
            return Ok(Some(End::Full));
        };
        if self.state.trail.level() == 0 {
            return Ok(Some(End::Stuck(i)));
        }
        self.learn(alloc, i)?;
        if luby.is_due() {
            self.state.restart(&mut self.order);
        }
        Ok(None)
    }

    /// Propagates at level 0, after the last lesson. It answers which clause is false then.
    fn last_turn(&mut self) -> Result<Option<u32>, NoMemory>
        requires ready { IsReady self.old.state.clauses self.old.state.trail
            self.old.state.watches self.old.state.head }
        requires seen { self.old.seen.vars ≡ self.old.state.trail.vars }
        ensures { IfOk result (IsLastTurn self.old self.new) }
    {
        self.state.restart(&mut self.order);
        self.state.propagate()
    }

    /// Turns until the search ends, or until so many clauses were learned.
    fn run(&mut self, alloc: Global, conflicts: u32) -> Result<Option<End>, NoMemory>
        requires begun { IsNewSearch self.old.state.clauses self.old.state self.old.seen
            self.old.log }
        requires few { length self.old.state.clauses.clauses + conflicts < 2 ^ 32 - 2 }
        ensures { IfOk result (HasEnded self.old.state.clauses conflicts self.new) }
    {
        if let Some(i) = load(
            &self.state.clauses,
            &mut self.state.trail,
            &mut self.state.watches,
        )? {
            return Ok(Some(End::Stuck(i)));
        }
        let mut luby = Luby::new();
        for _ in 0..conflicts {
            if let Some(end) = self.turn(alloc, &mut luby)? {
                return Ok(Some(end));
            }
        }
        match self.last_turn()? {
            None => Ok(None),
            Some(i) => Ok(Some(End::Stuck(i))),
        }
    }

    /// What the search finds.
    fn answer(&mut self, alloc: Global, conflicts: u32) -> Result<Searched<Assignment>, NoMemory>
        requires begun { IsNewSearch self.old.state.clauses self.old.state self.old.seen
            self.old.log }
        requires few { length self.old.state.clauses.clauses + conflicts < 2 ^ 32 - 2 }
        ensures model { IfOk result (IfHappens (IsModel self.old.state.clauses)) }
        ensures refuted { IfOk result (IfNever
            (IsRefutation self.old.state.clauses conflicts)) }
        ensures spent { IfOk result (IfSpent (IsSpent self.old.state.clauses conflicts)) }
    {
        match self.run(alloc, conflicts)? {
            None => Ok(Searched::Spent(self.take_log(alloc))),
            Some(End::Full) => {
                let _vars = self.state.clauses.vars(); // its range, for the proof
                Ok(Searched::Happens(model(alloc, &self.state.trail)?))
            }
            Some(End::Stuck(i)) => {
                self.refute(alloc, i)?;
                Ok(Searched::Never(self.take_log(alloc)))
            }
        }
    }
}

/// Accepts so many clauses and conflicts, if together they are fewer than 2^32 - 2.
fn accept_count(clauses: u32, conflicts: u32) -> Result<(), NoMemory>
    ensures few { OnOk result (clauses + conflicts < 2 ^ 32 - 2) }
    ensures many { OnErr result (2 ^ 32 - 2 ≤ clauses + conflicts) }
{
    if u64::from(clauses) + u64::from(conflicts) >= TOO_MANY_CLAUSES {
        return Err(NoMemory);
    }
    Ok(())
}

/// Searches for values that satisfy the formula, until `conflicts` clauses were learned, 1 to 2^30.
/// After the last one unit steps at level 0 may still refute. `NoMemory` is answered where there is
/// none, and where the clauses and the conflicts together are 2^32 - 2 or more.
///
/// - `Happens`: a value for each variable. They satisfy every clause.
/// - `Never`: no values satisfy every clause: a log that `dsv_hints::check` accepts. Its steps add
///   the learned clauses, each local, and then the empty one.
/// - `Spent`: as many learned clauses as conflicts were allowed, and then the search gave up. Each
///   follows by its hints, is local, and has no live clause in it; no hints derive the empty clause
///   after them.
///
/// The search is that of the best-known small solvers (MiniSat): two watched literals, the first
/// unique implication point's clause, activities, phases, and restarts after 32 times the Luby
/// numbers. Nothing is deleted.
pub fn solve(
    alloc: Global,
    formula: &Formula,
    conflicts: u32,
) -> Result<Searched<Assignment>, NoMemory>
    requires some { 1 ≤ conflicts }
    requires few { conflicts ≤ 2 ^ 30 }
    ensures model { IfOk result (IfHappens (IsModel formula.now)) }
    ensures refuted { IfOk result (IfNever (IsRefutation formula.now conflicts)) }
    ensures spent { IfOk result (IfSpent (IsSpent formula.now conflicts)) }
{
    accept_count(formula.len(), conflicts)?;
    let mut search = Search::new(alloc, formula)?;
    search.answer(alloc, conflicts)
}
