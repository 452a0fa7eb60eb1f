// Watched literals: two of each clause, and for each literal the clauses that watch it (Moskewicz
// and others, Chaff, 2001; in MiniSat `watches`). Of a clause of one literal both are that one. The
// pairs stand apart from the clauses, which keep the order of their literals, while MiniSat watches
// the first two and swaps them. Where a clause leaves a list, the list's last one takes its place.
ghost use Rattle.std.specs.Prelude.{◌≡◌, ◌≢◌, ◌<◌, ◌≤◌, ◌^◌, ◌∷◌};
ghost use Rattle.std.specs.Prelude.{◌++◌, ◌-◌, ◌+◌, ℕ, [], take};
ghost use Rattle.std.specs.Prelude.{OnOk, OnErr, IfOk, length, slice_get, slice_set, slice_index};
ghost use Rattle.std.specs.Prelude.{slice_index_or, Some};
ghost use Rattle.dsv_solver.specs.Adding.{with_clause, without_last, with_both};

use dsv_base::NoMemory;
use dsv_cnf::Lit;
use std::alloc::Global;
use std::marker::Model;

/// The two literals of a clause that are watched.
#[derive(Clone, Copy)]
pub struct Pair {
    pub one: Lit,
    pub other: Lit,
}

/// Where a clause stands among those that watch a literal.
#[derive(Clone, Copy)]
pub struct Watch {
    pub literal: Lit,
    /// The place in the literal's list, from 0 on.
    pub place: usize,
    /// The number of the clause that stands there.
    pub clause: u32,
}

/// The clauses that watch a literal.
#[derive(Drop)]
struct WatchList {
    clauses: Vec<u32>,
}

impl Model for WatchList {
    ghost use Rattle.std.specs.Prelude.{List, ℕ};

    ghost Value = { List ℕ };

    ghost view = { λ w. w.clauses.items };
}

impl WatchList {
    fn push(&mut self, clause: u32) -> Result<(), NoMemory>
        ensures ok { OnOk result (self.new ≡ self.old ++ clause ∷ []) }
        ensures err { OnErr result (self.new ≡ self.old) }
    {
        self.clauses.push(clause)?;
        Ok(())
    }

    fn len(&self) -> usize
        ensures { result ≡ length self.now }
    {
        self.clauses.len()
    }

    fn at(&self, j: usize) -> u32
        requires { j < length self.now }
        ensures { slice_get self.now j ≡ Some result }
    {
        self.clauses[j]
    }
}

/// Which clauses watch which literals.
#[derive(Drop)]
pub struct Watches {
    vars: u32,
    /// By clause: the two literals that it watches.
    pairs: Vec<Pair>,
    /// By clause: where the last search for a literal to watch ended.
    starts: Vec<u32>,
    /// By literal: the clauses that watch it.
    lists: Vec<WatchList>,
}

impl Model for Watches {
    ghost use Rattle.dsv_solver.specs.WatchView.{WatchView};

    ghost Value = { WatchView };

    ghost use Rattle.dsv_solver.specs.WatchInside.{view_of, IsWatches};

    ghost view = { view_of };

    ghost invariant = { IsWatches };
}

impl WatchList {
    fn swap_remove(&mut self, j: usize)
        requires { j < length self.old }
        ensures len { length self.new + 1 ≡ length self.old }
        ensures moved { j + 1 < length self.old
            → slice_index self.new j ≡ slice_index self.old (length self.old - 1) }
        ensures others { (k : ℕ) → k ≢ j → k + 1 < length self.old
            → slice_index self.new k ≡ slice_index self.old k }
    {
        let _clause = self.clauses.swap_remove(j);
    }
}

impl WatchList {
    fn new(alloc: Global) -> WatchList
        ensures { result ≡ [] }
    {
        WatchList {
            clauses: Vec::new(alloc),
        }
    }

    fn pop(&mut self)
        requires { 0 < length self.old }
        ensures { self.new ≡ take (length self.old - 1) self.old }
    {
        let _clause = self.clauses.pop();
    }
}

/// Appends a clause to one list; where there is no memory for it, the lists stay as they were.
#[tactic(auto, using(crate::proofs::Adding::put_back))]
fn push_to(lists: &mut Vec<WatchList>, at: usize, clause: u32) -> Result<(), NoMemory>
    requires { at < length lists.old.items }
    ensures ok { OnOk result (lists.new.items ≡ with_clause lists.old.items at clause) }
    ensures err { OnErr result (lists.new.items ≡ lists.old.items) }
{
    lists[at].push(clause)
}

/// Takes the last clause of a list away.
fn pop_from(lists: &mut Vec<WatchList>, at: usize)
    requires inside { at < length lists.old.items }
    requires some { 0 < length (slice_index_or lists.old.items at []) }
    ensures { lists.new.items ≡ without_last lists.old.items at }
{
    lists[at].pop();
}

/// Appends a clause to two lists, or to the one.
#[tactic(auto, using(crate::proofs::Adding::popped))]
fn push_both(
    lists: &mut Vec<WatchList>,
    one: usize,
    other: usize,
    clause: u32,
) -> Result<(), NoMemory>
    requires one { one < length lists.old.items }
    requires other { other < length lists.old.items }
    ensures ok { OnOk result (lists.new.items ≡ with_both lists.old.items one other clause) }
    ensures err { OnErr result (lists.new.items ≡ lists.old.items) }
{
    push_to(lists, one, clause)?;
    if one == other {
        return Ok(());
    }
    match push_to(lists, other, clause) {
        Ok(()) => Ok(()),
        Err(e) => {
            pop_from(lists, one);
            Err(e)
        }
    }
}

/// Keeps where the last search for a literal of a clause ended. Nothing rests on it.
fn set_start(starts: &mut Vec<u32>, clause: u32, start: usize) {
    if let Some(slot) = starts.get_mut(clause as usize) {
        *slot = u32::try_from(start).unwrap_or(0);
    }
}

impl Watches {
    /// No clauses.
    pub fn new(alloc: Global, vars: u32) -> Result<Watches, NoMemory>
        requires { vars ≤ 2 ^ 31 }
        ensures { IfOk result (λ w. (w.vars ≡ vars) × (w.pairs ≡ [])) }
    {
        let mut lists = Vec::new(alloc);
        for _ in 0..2 * vars as usize {
            lists.push(WatchList::new(alloc))?;
        }
        Ok(Watches {
            vars,
            pairs: Vec::new(alloc),
            starts: Vec::new(alloc),
            lists,
        })
    }

    /// One more clause, with the pair that it watches.
    pub fn add(&mut self, pair: Pair) -> Result<(), NoMemory>
        requires over { IsPairOver self.old.vars pair }
        requires room { length self.old.pairs < 2 ^ 32 - 1 }
        ensures vars { self.new.vars ≡ self.old.vars }
        ensures pairs { OnOk result (self.new.pairs ≡ self.old.pairs ++ pair ∷ []) }
    {
        let clause = self.pairs.len() as u32;
        self.starts.push(0)?;
        self.pairs.reserve(1)?;
        push_both(
            &mut self.lists,
            pair.one.code() as usize,
            pair.other.code() as usize,
            clause,
        )?;
        self.pairs.push_reserved(pair);
        Ok(())
    }

    ghost use Rattle.std.specs.Prelude.{◌≡◌, ◌≢◌, ◌<◌, ◌≤◌, ◌+◌};
    ghost use Rattle.std.specs.Prelude.{◌⊎◌, ℕ, length, slice_get};
    ghost use Rattle.std.specs.Prelude.{slice_set, slice_index, take, Some, OnOk, OnErr, IfOk, ◌^◌};
    ghost use Rattle.std.specs.Prelude.{◌-◌, ◌++◌, ◌∷◌, []};
    ghost use Rattle.dsv_solver.specs.Watched.{list_of, IsPairOver, Covers};
    ghost use Rattle.dsv_solver.specs.declared.watches.Pair.{Pair};

    /// How many clauses watch a literal.
    pub fn count(&self, literal: Lit) -> usize
        requires { literal.var < self.now.vars }
        ensures len { result ≡ length (list_of self.now.lists literal) }
        ensures covers { Covers self.now literal }
    {
        self.lists[literal.code() as usize].len()
    }

    /// The number of the clause at this place in a literal's list, from 0 on.
    pub fn entry(&self, literal: Lit, j: usize) -> u32
        requires over { literal.var < self.now.vars }
        requires inside { j < length (list_of self.now.lists literal) }
        ensures at { slice_index (list_of self.now.lists literal) j ≡ result }
        ensures below { result < length self.now.pairs }
    {
        self.lists[literal.code() as usize].at(j)
    }

    /// The two literals that the clause with this number, from 0 on, watches.
    pub fn pair(&self, i: u32) -> Pair
        requires { i < length self.now.pairs }
        ensures at { slice_get self.now.pairs i ≡ Some result }
        ensures over { IsPairOver self.now.vars result }
    {
        self.pairs[i as usize]
    }

    /// Where the last search for a literal of this clause ended.
    pub fn start(&self, i: u32) -> u32 {
        match self.starts.get(i as usize) {
            Some(start) => *start,
            None => 0,
        }
    }

    /// Watches another literal in place of one.
    pub fn rewatch(
        &mut self,
        watch: Watch,
        old: Pair,
        pair: Pair,
        start: usize,
    ) -> Result<(), NoMemory>
        requires over { watch.literal.var < self.old.vars }
        requires pair_over { IsPairOver self.old.vars pair }
        requires inside { watch.place < length (list_of self.old.lists watch.literal) }
        requires at { slice_index (list_of self.old.lists watch.literal) watch.place
            ≡ watch.clause }
        requires was { slice_get self.old.pairs watch.clause ≡ Some old }
        requires stays { (pair.other ≡ old.one) ⊎ (pair.other ≡ old.other) }
        requires one_moves { pair.one ≢ watch.literal }
        requires other_stays { pair.other ≢ watch.literal }
        ensures pairs { OnOk result (self.new.pairs
            ≡ slice_set self.old.pairs watch.clause pair) }
        ensures vars { self.new.vars ≡ self.old.vars }
        ensures len { OnOk result (length (list_of self.new.lists watch.literal) + 1
            ≡ length (list_of self.old.lists watch.literal)) }
        ensures prefix { OnOk result ((k : ℕ) → k < watch.place
            → slice_index (list_of self.new.lists watch.literal) k
            ≡ slice_index (list_of self.old.lists watch.literal) k) }
    {
        let Watch {
            literal,
            place,
            clause,
        } = watch;
        self.lists[pair.one.code() as usize].push(clause)?;
        self.lists[literal.code() as usize].swap_remove(place);
        self.pairs[clause as usize] = pair;
        set_start(&mut self.starts, clause, start);
        Ok(())
    }
}
