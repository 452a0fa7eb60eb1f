// What a false clause teaches: the first unique implication point's clause with its hints, and the
// refutation at level 0 (Marques-Silva and Sakallah, GRASP, 1999; Zhang and others, Efficient
// Conflict Driven Learning, 2001; in MiniSat `analyze`).
//
// The trail is walked back from its end. A literal that was met is resolved with its reason, whose
// other literals are met then, until one literal of the present level is left: the first unique
// implication point. Its negation and the literals that were met at lower levels, but for level 0,
// are the clause. Those of level 0 are resolved away too, so that the hints are complete: from the
// last resolved clause to the first, they lead by unit propagation from the learned clause's
// negation to the clause that is false.
ghost use Rattle.std.specs.Prelude.{◌≡◌, ◌≢◌, List, ◌<◌, ◌≤◌, ◌+◌};
ghost use Rattle.std.specs.Prelude.{◌⊎◌, ◌∷◌, ◌++◌, [], ℕ, true};
ghost use Rattle.std.specs.Prelude.{false, OnOk, OnErr, IfOk, IsSome, MatchOption, take, length};
ghost use Rattle.std.specs.Prelude.{slice_get, Some, Ok};
ghost use Rattle.dsv_cnf.specs.Literal.{Literal, negation};
ghost use Rattle.dsv_cnf.specs.Formula.{IsOver};
ghost use Rattle.dsv_cnf.specs.Formula.{contains};
ghost use Rattle.dsv_trail.specs.Places.{falsifies, place_of};
ghost use Rattle.dsv_solver.specs.Analysis.{IsMarked, IsLowest, AllFalse, low_literals};
ghost use Rattle.dsv_solver.specs.Propagation.{IsJustified};
ghost use Rattle.dsv_solver.specs.Step.{IsStep};
ghost use Rattle.dsv_solver.specs.Walking.{IsWalking, IsEnding, IsLearnable, Fines, live_of};
ghost use Rattle.dsv_solver.specs.Search.{IsRefuting};
ghost use Rattle.dsv_cnf.specs.LiteralSet.{none};
ghost use Rattle.dsv_hints.specs.Derivation.{hints_answer};
ghost use Rattle.dsv_trail.specs.declared.marks.Mark.{Mark};

use crate::seen::Seen;
use crate::state::State;
use dsv_base::NoMemory;
use dsv_cnf::Lit;
use dsv_hints::HintList;
use dsv_trail::Trail;
use std::alloc::Global;
use std::marker::Model;

/// How far back an analysis reached at the present level.
#[derive(Clone, Copy)]
struct Reach {
    /// The place at which the level begins.
    high: u32,
    /// The least place from there on of a literal that was met; how many literals the trail has,
    /// where none was.
    lowest: u32,
}

impl Reach {
    /// None, on a trail of so many literals: no place of theirs counts.
    fn none(len: u32) -> Reach
        ensures high { result.high ≡ len }
        ensures lowest { result.lowest ≡ len }
    {
        Reach {
            high: len,
            lowest: len,
        }
    }

    /// The lowest with one place more, which counts where it is of the present level.
    fn lowest_with(self, place: u32) -> u32
        ensures most { result ≤ self.lowest }
        ensures counts { self.high ≤ place → result ≤ place }
        ensures one { (result ≡ self.lowest) ⊎ ((result ≡ place) × (self.high ≤ place)) }
    {
        if self.high <= place && place < self.lowest {
            place
        } else {
            self.lowest
        }
    }
}

/// Puts one literal into the set, unless it is skipped, and answers the least place of the present
/// level that was met.
fn mark(
    trail: &Trail,
    set: &mut Seen,
    literal: Lit,
    skipped: Lit,
    reach: Reach,
) -> Result<u32, NoMemory>
    requires vars { set.old.vars ≡ trail.now.vars }
    requires over { literal.var < trail.now.vars }
    requires is_false { literal ≢ skipped → falsifies trail.now.marks literal ≡ true }
    requires lowest { IsLowest trail.now reach.high set.old.literals reach.lowest }
    ensures vars { set.new.vars ≡ set.old.vars }
    ensures marked { OnOk result (IsMarked set.old.literals set.new.literals
        (literal ∷ []) skipped) }
    ensures lowest { IfOk result (λ r. IsLowest trail.now reach.high set.new.literals r) }
{
    if literal.is(&skipped) {
        return Ok(reach.lowest);
    }
    if set.contains(literal) {
        return Ok(reach.lowest);
    }
    let place = trail.place_of(literal);
    set.insert(literal)?;
    Ok(reach.lowest_with(place))
}

/// Puts the literals of a clause but one into the set, and answers the least place of the present
/// level that was met.
fn mark_others(
    trail: &Trail,
    set: &mut Seen,
    clause: &[Lit],
    skipped: Lit,
    reach: Reach,
) -> Result<u32, NoMemory>
    requires vars { set.old.vars ≡ trail.now.vars }
    requires over { IsOver trail.now.vars clause.now }
    requires are_false { (q : Literal) → contains clause.now q ≡ true → q ≢ skipped
        → falsifies trail.now.marks q ≡ true }
    requires lowest { IsLowest trail.now reach.high set.old.literals reach.lowest }
    ensures vars { set.new.vars ≡ set.old.vars }
    ensures marked { OnOk result (IsMarked set.old.literals set.new.literals clause.now skipped) }
    ensures lowest { IfOk result (λ r. IsLowest trail.now reach.high set.new.literals r) }
{
    let mut lowest = reach.lowest;
    for literal in clause {
        let reach = Reach {
            high: reach.high,
            lowest,
        };
        lowest = mark(trail, set, *literal, skipped, reach)?;
    }
    Ok(lowest)
}

/// The numbers of clauses that a step hints, the last on the trail first.
#[derive(Drop)]
pub struct HintStack {
    numbers: Vec<u64>,
}

impl Model for HintStack {
    ghost use Rattle.std.specs.Prelude.{List, ℕ, reverse};

    ghost Value = { List ℕ };

    ghost view = { λ h. reverse h.numbers.items };
}

impl HintStack {
    fn new(alloc: Global) -> HintStack
        ensures { result ≡ [] }
    {
        HintStack {
            numbers: Vec::new(alloc),
        }
    }

    fn push(&mut self, number: u64) -> Result<(), NoMemory>
        ensures ok { OnOk result (self.new ≡ number ∷ self.old) }
        ensures err { OnErr result (self.new ≡ self.old) }
    {
        self.numbers.push(number)?;
        Ok(())
    }

    /// The hints in their order.
    pub fn finish(self) -> HintList
        ensures { result ≡ self }
    {
        let mut numbers = self.numbers;
        numbers.reverse();
        HintList::from(numbers)
    }
}

/// Resolves with the reason of the literal at this place, if its negation was met, and answers the
/// least place of the present level that was met.
#[inline(always)]
fn resolve_at(
    state: &State,
    set: &mut Seen,
    hints: &mut HintStack,
    place: u32,
    reach: Reach,
) -> Result<u32, NoMemory>
    requires vars { set.old.vars ≡ state.now.trail.vars }
    requires formula_vars { state.now.clauses.vars ≡ state.now.trail.vars }
    requires justified { IsJustified state.now.clauses.clauses state.now.trail }
    requires inside { place < length state.now.trail.marks }
    requires implied { (m : Mark) → slice_get state.now.trail.marks place ≡ Some m
        → IsSome m.reason }
    requires lowest { IsLowest state.now.trail reach.high set.old.literals reach.lowest }
    ensures vars { set.new.vars ≡ set.old.vars }
    ensures step { OnOk result (IsStep state.now.clauses state.now.trail place set.old.literals
        set.new.literals hints.old hints.new) }
    ensures lowest { IfOk result (λ r. IsLowest state.now.trail reach.high set.new.literals r) }
{
    let mark = state.trail.mark(place);
    if !set.contains(mark.literal.negation()) {
        return Ok(reach.lowest);
    }
    match mark.reason {
        Some(reason) => {
            let lowest = mark_others(
                &state.trail,
                set,
                state.clauses.clause(reason),
                mark.literal,
                reach,
            )?;
            hints.push(u64::from(reason) + 1)?;
            Ok(lowest)
        }
        None => unreachable!(),
    }
}

/// Where the levels of an analysis lie on the trail.
#[derive(Clone, Copy)]
pub struct Bounds {
    /// How many literals are of level 0.
    pub zero_end: u32,
    /// The place of the present level's decision.
    pub high: u32,
}

/// Resolves back to the first unique implication point, and answers its place.
fn resolve_high(
    state: &State,
    set: &mut Seen,
    hints: &mut HintStack,
    bounds: Bounds,
    least: u32,
) -> Result<u32, NoMemory>
    requires vars { set.old.vars ≡ state.now.trail.vars }
    requires formula_vars { state.now.clauses.vars ≡ state.now.trail.vars }
    requires justified { IsJustified state.now.clauses.clauses state.now.trail }
    requires fine { Fines state.now.clauses (falsifies (take bounds.high state.now.trail.marks)) }
    requires implied { (k : ℕ) (m : Mark) → slice_get state.now.trail.marks k ≡ Some m
        → bounds.high < k → IsSome m.reason }
    requires walking { IsWalking state.now.clauses state.now.trail bounds.zero_end bounds.high
        (length state.now.trail.marks) least set.old.literals hints.old }
    ensures vars { set.new.vars ≡ set.old.vars }
    ensures walking { IfOk result (λ r. IsWalking state.now.clauses state.now.trail
        bounds.zero_end bounds.high (r + 1) r set.new.literals hints.new) }
{
    let mut i = state.trail.len();
    let mut lowest = least;
    while i > lowest + 1 {
        i -= 1;
        let reach = Reach {
            high: bounds.high,
            lowest,
        };
        lowest = resolve_at(state, set, hints, i, reach)?;
    }
    Ok(lowest)
}

/// Resolves the literals of level 0 that were met.
fn resolve_zero(
    state: &State,
    set: &mut Seen,
    hints: &mut HintStack,
    bounds: Bounds,
    first: Lit,
) -> Result<(), NoMemory>
    requires vars { set.old.vars ≡ state.now.trail.vars }
    requires formula_vars { state.now.clauses.vars ≡ state.now.trail.vars }
    requires justified { IsJustified state.now.clauses.clauses state.now.trail }
    requires implied { (k : ℕ) (m : Mark) → slice_get state.now.trail.marks k ≡ Some m
        → k < bounds.zero_end → IsSome m.reason }
    requires order { bounds.zero_end ≤ bounds.high }
    requires ending { IsEnding state.now.clauses state.now.trail bounds.zero_end bounds.high
        bounds.zero_end first set.old.literals hints.old }
    ensures vars { set.new.vars ≡ set.old.vars }
    ensures ending { OnOk result
        (IsEnding state.now.clauses state.now.trail bounds.zero_end bounds.high 0 first
        set.new.literals hints.new) }
{
    let end = state.trail.len();
    let mut i = bounds.zero_end;
    while i > 0 {
        i -= 1;
        let _end = resolve_at(state, set, hints, i, Reach::none(end))?;
    }
    Ok(())
}

/// A clause in the making.
#[derive(Drop)]
pub struct LitStack {
    literals: Vec<Lit>,
}

impl Model for LitStack {
    ghost use Rattle.std.specs.Prelude.{List};
    ghost use Rattle.dsv_cnf.specs.Literal.{Literal};

    ghost Value = { List Literal };

    ghost view = { λ l. l.literals.items };
}

impl LitStack {
    fn new(alloc: Global) -> LitStack
        ensures { result ≡ [] }
    {
        LitStack {
            literals: Vec::new(alloc),
        }
    }

    /// The literals, in the order in which they came.
    pub fn as_slice(&self) -> &[Lit]
        ensures { result.now ≡ self.now }
    {
        self.literals.as_slice()
    }

    fn push(&mut self, literal: Lit) -> Result<(), NoMemory>
        ensures ok { OnOk result (self.new ≡ self.old ++ literal ∷ []) }
        ensures err { OnErr result (self.new ≡ self.old) }
    {
        self.literals.push(literal)?;
        Ok(())
    }
}

/// Appends the literals that became false between level 0 and the present level.
fn push_lows(
    trail: &Trail,
    met: &[Lit],
    clause: &mut LitStack,
    bounds: Bounds,
) -> Result<(), NoMemory>
    requires { AllFalse trail.now met.now }
    ensures { OnOk result (clause.new
        ≡ clause.old ++ low_literals trail.now bounds.zero_end bounds.high met.now) }
{
    for literal in met {
        let place = trail.place_of(*literal);
        if bounds.zero_end <= place && place < bounds.high {
            clause.push(*literal)?;
        }
    }
    Ok(())
}

/// Resolves all literals that were met, where each literal of the trail has a reason.
fn resolve_all(state: &State, set: &mut Seen, hints: &mut HintStack) -> Result<(), NoMemory>
    requires vars { set.old.vars ≡ state.now.trail.vars }
    requires formula_vars { state.now.clauses.vars ≡ state.now.trail.vars }
    requires justified { IsJustified state.now.clauses.clauses state.now.trail }
    requires implied { (k : ℕ) (m : Mark) → slice_get state.now.trail.marks k ≡ Some m
        → IsSome m.reason }
    requires refuting { IsRefuting state.now.clauses state.now.trail
        (length state.now.trail.marks) set.old.literals hints.old }
    ensures refuting { OnOk result (IsRefuting state.now.clauses state.now.trail 0
        set.new.literals hints.new) }
{
    let end = state.trail.len();
    let mut i = end;
    while i > 0 {
        i -= 1;
        let _end = resolve_at(state, set, hints, i, Reach::none(end))?;
    }
    Ok(())
}

/// The first literal of a clause.
#[tactic(auto, using(crate::proofs::Searching::first_stands, crate::proofs::Searching::first_none))]
pub(crate) fn first_literal(clause: &[Lit]) -> Option<Lit>
    ensures { MatchOption result (clause.now ≡ []) (λ l. contains clause.now l ≡ true) }
{
    if clause.is_empty() {
        return None;
    }
    Some(clause[0])
}

/// The hints that refute, where a clause is false at level 0.
pub fn refute(
    alloc: Global,
    state: &State,
    set: &mut Seen,
    conflict: u32,
) -> Result<HintStack, NoMemory>
    requires vars { set.old.vars ≡ state.now.trail.vars }
    requires empty { set.old.literals ≡ [] }
    requires formula_vars { state.now.clauses.vars ≡ state.now.trail.vars }
    requires justified { IsJustified state.now.clauses.clauses state.now.trail }
    requires implied { (k : ℕ) (m : Mark) → slice_get state.now.trail.marks k ≡ Some m
        → IsSome m.reason }
    requires known { conflict < length state.now.clauses.clauses }
    requires conflict { (c : List Literal) → slice_get state.now.clauses.clauses conflict ≡ Some c
        → (q : Literal) → contains c q ≡ true → falsifies state.now.trail.marks q ≡ true }
    ensures { IfOk result (λ h. hints_answer (live_of state.now.clauses) h none ≡ Ok tt) }
{
    let clause = state.clauses.clause(conflict);
    let mut hints = HintStack::new(alloc);
    hints.push(u64::from(conflict) + 1)?;
    let Some(first) = first_literal(clause) else {
        return Ok(hints);
    };
    let none = Reach::none(state.trail.len());
    let _end = mark_others(&state.trail, set, clause, first.negation(), none)?;
    resolve_all(state, set, &mut hints)?;
    Ok(hints)
}

/// What was learned from a clause that is false.
#[derive(Drop)]
pub struct Learned {
    pub clause: LitStack,
    pub hints: HintStack,
}

/// Learns from a clause that is false: the first unique implication point's clause, and its hints.
pub fn analyse(
    alloc: Global,
    state: &State,
    set: &mut Seen,
    conflict: u32,
    bounds: Bounds,
) -> Result<Learned, NoMemory>
    requires vars { set.old.vars ≡ state.now.trail.vars }
    requires empty { set.old.literals ≡ [] }
    requires formula_vars { state.now.clauses.vars ≡ state.now.trail.vars }
    requires justified { IsJustified state.now.clauses.clauses state.now.trail }
    requires fine { Fines state.now.clauses (falsifies (take bounds.high state.now.trail.marks)) }
    requires zeroes { (k : ℕ) (m : Mark) → slice_get state.now.trail.marks k ≡ Some m
        → k < bounds.zero_end → IsSome m.reason }
    requires implied { (k : ℕ) (m : Mark) → slice_get state.now.trail.marks k ≡ Some m
        → bounds.high < k → IsSome m.reason }
    requires order { bounds.zero_end ≤ bounds.high }
    requires inside { bounds.high < length state.now.trail.marks }
    requires known { conflict < length state.now.clauses.clauses }
    requires conflict { (c : List Literal) → slice_get state.now.clauses.clauses conflict ≡ Some c
        → (q : Literal) → contains c q ≡ true → falsifies state.now.trail.marks q ≡ true }
    ensures vars { set.new.vars ≡ set.old.vars }
    ensures lesson { IfOk result (λ r. IsLearnable state.now.clauses state.now.trail bounds.high
        r.clause r.hints) }
{
    let clause = state.clauses.clause(conflict);
    let mut hints = HintStack::new(alloc);
    hints.push(u64::from(conflict) + 1)?;
    let decision = state.trail.mark(bounds.high).literal;
    let reach = Reach {
        high: bounds.high,
        lowest: state.trail.len(),
    };
    let least = mark_others(&state.trail, set, clause, decision, reach)?;
    let lowest = resolve_high(state, set, &mut hints, bounds, least)?;
    let first = state.trail.mark(lowest).literal.negation();
    resolve_zero(state, set, &mut hints, bounds, first)?;
    let mut literals = LitStack::new(alloc);
    literals.push(first)?;
    push_lows(&state.trail, set.as_slice(), &mut literals, bounds)?;
    Ok(Learned {
        clause: literals,
        hints,
    })
}
