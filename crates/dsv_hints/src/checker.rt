// The checker: logs, and one step after another.
ghost use Rattle.std.specs.Prelude.{◌≡◌, ◌+◌, ◌-◌, ◌^◌, ◌<◌, ◌≤◌, List};
ghost use Rattle.std.specs.Prelude.{length, max, IfOk, OnOk, OnErr};
ghost use Rattle.dsv_cnf.specs.Formula.{IsUnsatisfiable};
ghost use Rattle.dsv_cnf.specs.Literal.{Literal};
ghost use Rattle.dsv_hints.specs.Derivation.{added_literals, after, all_live, start_of};
ghost use Rattle.dsv_hints.specs.Derivation.{step_answer, verdict_of, without_all};
ghost use Rattle.dsv_hints.specs.Follows.{Follows};
ghost use Rattle.dsv_hints.specs.Taken.{after_add, after_delete, clause_answer_of};
ghost use Rattle.dsv_hints.specs.Taken.{delete_answer_of, start_store};

use crate::hints::test_clause;
use crate::step::{Log, Step, StepRefusal, Verdict};
use crate::store::Store;
use dsv_base::NoMemory;
use dsv_cnf::{Formula, Lit, LiteralSet};
use std::alloc::Global;
use std::marker::Model;

/// The clauses of the formula, with the ids from 1 on.
fn store_of(alloc: Global, formula: &Formula) -> Result<Store, NoMemory>
    ensures { IfOk result (λ s. s ≡ start_store formula.now) }
{
    let mut store = Store::new(alloc, formula.vars());
    for i in 0..formula.len() {
        let clause = formula.clause(i);
        store.reserve(1, clause.len())?;
        store.push(u64::from(i) + 1, clause);
    }
    Ok(store)
}

fn are_live(store: &Store, ids: &[u64]) -> bool
    ensures { result ≡ all_live store.now.live ids.now }
{
    for id in ids {
        if !store.is_live(*id) {
            return false;
        }
    }
    true
}

fn remove_all(store: &mut Store, ids: &[u64])
    ensures { store.new ≡ record store.old { live = without_all store.old.live ids.now } }
{
    for id in ids {
        store.remove(*id);
    }
}

/// What is carried along a log, and the room for steps that is kept free. Contracts see both.
#[derive(Drop)]
pub struct Checker {
    store: Store,
    set: LiteralSet,
    ended: bool,
}

impl Model for Checker {
    ghost use Rattle.dsv_hints.specs.CheckerView.{CheckerView};

    ghost Value = { CheckerView };

    ghost use Rattle.dsv_hints.specs.CheckerInside.{view_of, IsChecker};

    ghost view = { view_of };

    ghost invariant = { IsChecker };
}

impl Checker {
    /// The clauses of the formula, with the ids from 1 on, and no room for steps. `NoMemory` is
    /// answered where there is none, and where the formula has 2^32 literals or more.
    pub fn new(alloc: Global, formula: &Formula) -> Result<Self, NoMemory>
        ensures start { IfOk result (λ c. c
            ≡ record { carried = start_of formula.now; spare_steps = 0; spare_literals = 0 }) }
        ensures sound { IfOk result (λ c. Follows formula.now.clauses c.carried) }
    {
        Ok(Checker {
            store: store_of(alloc, formula)?,
            set: LiteralSet::new(alloc, formula.vars())?,
            ended: false,
        })
    }

    /// Makes room for so many steps, and so many literals that they add. `NoMemory` is answered
    /// where there is none, and where there would be 2^32 literals or more, the formula's and those
    /// of deleted clauses among them; after it the checker is unchanged.
    pub fn reserve(&mut self, steps: u32, lits: u64) -> Result<(), NoMemory>
        ensures ok { OnOk result (self.new ≡ record self.old {
          spare_steps = max self.old.spare_steps steps;
          spare_literals = max self.old.spare_literals lits;
        }) }
        ensures err { OnErr result (self.new ≡ self.old) }
    {
        self.store.reserve(steps as usize, lits as usize)
    }

    /// Whether the empty clause was added.
    pub fn is_ended(&self) -> bool
        ensures { result ≡ self.now.carried.ended }
    {
        self.ended
    }

    fn add(&mut self, id: u64, clause: &[Lit], hints: &[u64]) -> Result<(), StepRefusal>
        requires steps { 1 ≤ self.old.spare_steps }
        requires literals { length clause.now ≤ self.old.spare_literals }
        ensures answer { result ≡ clause_answer_of self.old.carried id clause.now hints.now }
        ensures taken { OnOk result (self.new ≡ after_add self.old id clause.now) }
        ensures refused { OnErr result (self.new ≡ self.old) }
    {
        let answer = test_clause(&self.store, &mut self.set, id, clause, hints);
        self.set.clear();
        answer?;
        self.store.push(id, clause);
        self.ended = clause.is_empty();
        Ok(())
    }

    fn delete(&mut self, ids: &[u64]) -> Result<(), StepRefusal>
        ensures answer { result ≡ delete_answer_of self.old.carried ids.now }
        ensures taken { OnOk result (self.new ≡ after_delete self.old ids.now) }
        ensures refused { OnErr result (self.new ≡ self.old) }
    {
        if !are_live(&self.store, ids) {
            return Err(StepRefusal::UnknownId);
        }
        remove_all(&mut self.store, ids);
        Ok(())
    }

    /// Takes a step, or says why not and is unchanged. It takes no memory.
    pub fn take(&mut self, step: &Step) -> Result<(), StepRefusal>
        requires steps { 1 ≤ self.old.spare_steps }
        requires literals { added_literals step.now ≤ self.old.spare_literals }
        ensures answer { result ≡ step_answer self.old.carried step.now }
        ensures taken { OnOk result (self.new.carried ≡ after self.old.carried step.now) }
        ensures refused { OnErr result (self.new ≡ self.old) }
        ensures steps { self.old.spare_steps ≤ self.new.spare_steps + 1 }
        ensures literals { self.old.spare_literals
            ≤ self.new.spare_literals + added_literals step.now }
        ensures sound { OnOk result (
            (cs : List (List Literal)) → Follows cs self.old.carried
            → Follows cs self.new.carried) }
    {
        if self.ended {
            return Err(StepRefusal::NotEmpty);
        }
        match step {
            Step::Add { id, lits, hints } => self.add(*id, lits.as_slice(), hints.as_slice()),
            Step::Delete { ids, .. } => self.delete(ids.as_slice()),
        }
    }
}

/// Checks a log against a formula: the first step that is refused, or none. `NoMemory` is answered
/// where there is none, and where formula and log have 2^32 literals or more.
pub fn check(alloc: Global, formula: &Formula, log: &Log) -> Result<Verdict, NoMemory>
    requires { length log.now < 2 ^ 32 - 1 }
    ensures exact { IfOk result (λ v. v ≡ verdict_of formula.now log.now) }
    ensures sound { IfOk result (λ v. v ≡ Verdict.Accepted → IsUnsatisfiable formula.now.clauses) }
{
    let mut checker = Checker::new(alloc, formula)?;
    for (i, step) in log.as_slice().iter().enumerate() {
        checker.reserve(1, step.added_literals())?;
        if let Err(why) = checker.take(step) {
            return Ok(Verdict::Refused {
                step: i as u32,
                why,
            });
        }
    }
    if checker.ended {
        return Ok(Verdict::Accepted);
    }
    Ok(Verdict::Refused {
        step: log.as_slice().len() as u32,
        why: StepRefusal::NotEmpty,
    })
}
