// The clauses of a derivation, live and deleted.
ghost use Rattle.std.specs.Prelude.{◌≡◌, ◌<◌, ◌≤◌, ◌+◌, ◌-◌, ◌^◌, [], ◌∷◌, ◌++◌};
ghost use Rattle.std.specs.Prelude.{None, Some, length, max, nat_le, option_copied, slice_range};
ghost use Rattle.std.specs.Prelude.{IsTrue, OnOk, OnErr, IfNone, IfSome};
ghost use Rattle.dsv_cnf.specs.Formula.{IsOver};
ghost use Rattle.dsv_hints.specs.Derivation.{is_after, is_live, live_clause, without};
ghost use Rattle.dsv_hints.specs.Slots.{AllOther, HasId, IsRising};

use dsv_base::NoMemory;
use dsv_cnf::Lit;
use std::alloc::Global;
use std::marker::Model;

/// Where a clause's literals lie. The slot of a deleted clause ends before it starts.
#[derive(Clone, Copy)]
struct Slot {
    id: u64,
    start: u32,
    end: u32,
}

impl Slot {
    fn is_live(&self) -> bool
        ensures { result ≡ nat_le self.now.start self.now.end }
    {
        self.start <= self.end
    }
}

/// Accepts so many literals beside those that are held, if together they are fewer than 2^32.
fn accept_literals(held: usize, literals: usize) -> Result<(), NoMemory>
    requires { held < 2 ^ 32 }
    ensures few { OnOk result (held + literals < 2 ^ 32) }
    ensures many { OnErr result (2 ^ 32 ≤ held + literals) }
{
    if literals > u32::MAX as usize - held {
        return Err(NoMemory);
    }
    Ok(())
}

/// Where the slot of this id is. Ids that have no gap from 1 on are at their place; others are
/// searched.
fn find(slots: &[Slot], id: u64) -> Option<usize>
    requires { IsRising slots.now }
    ensures some { IfSome result (HasId slots.now id) }
    ensures none { IfNone result (AllOther slots.now id) }
{
    if 0 < id && id <= slots.len() as u64 {
        let guess = (id - 1) as usize;
        if slots[guess].id == id {
            return Some(guess);
        }
    }
    slots.binary_search_by_key(&id, |slot| slot.id).ok()
}

fn piece(literals: &[Lit], start: usize, end: usize) -> &[Lit]
    requires order { start ≤ end }
    requires inside { end ≤ length literals.now }
    ensures { result.now ≡ slice_range literals.now start end }
{
    &literals[start..end]
}

/// Clauses in the order of their ids. The literals of all of them, below 2^32, lie in one list; a
/// deleted clause keeps its place.
#[derive(Drop)]
pub(crate) struct Store {
    vars: u32,
    last: Option<u64>,
    literals: Vec<Lit>,
    slots: Vec<Slot>,
    spare_clauses: usize,
    spare_literals: usize,
}

impl Model for Store {
    ghost use Rattle.dsv_hints.specs.StoreView.{StoreView};

    ghost Value = { StoreView };

    ghost use Rattle.dsv_hints.specs.StoreInside.{view_of, IsStore};

    ghost view = { view_of };

    ghost invariant = { IsStore };
}

impl Store {
    /// No clauses, over so many variables, at most 2^31, and no room for any.
    pub fn new(alloc: Global, vars: u32) -> Self
        requires { vars ≤ 2 ^ 31 }
        ensures { result ≡ record {
          vars = vars;
          last = None;
          live = [];
          spare_clauses = 0;
          spare_literals = 0;
        } }
    {
        Store {
            vars,
            last: None,
            literals: Vec::new(alloc),
            slots: Vec::new(alloc),
            spare_clauses: 0,
            spare_literals: 0,
        }
    }

    /// Makes room for so many more clauses, and so many literals in them. `NoMemory` also says that
    /// there would be 2^32 literals or more.
    pub fn reserve(&mut self, clauses: usize, literals: usize) -> Result<(), NoMemory>
        ensures ok { OnOk result (self.new ≡ record self.old {
          spare_clauses = max self.old.spare_clauses clauses;
          spare_literals = max self.old.spare_literals literals;
        }) }
        ensures err { OnErr result (self.new ≡ self.old) }
    {
        let clauses = self.spare_clauses.max(clauses);
        let literals = self.spare_literals.max(literals);
        accept_literals(self.literals.len(), literals)?;
        self.slots.reserve(clauses)?;
        self.literals.reserve(literals)?;
        self.spare_clauses = clauses;
        self.spare_literals = literals;
        Ok(())
    }

    /// How many variables there are; they are numbered from 0.
    pub fn vars(&self) -> u32
        ensures { result ≡ self.now.vars }
    {
        self.vars
    }

    /// Whether the id is greater than the ids of all clauses, the deleted ones among them.
    pub fn is_after(&self, id: u64) -> bool
        ensures { result ≡ is_after self.now.last id }
    {
        match self.last {
            None => true,
            Some(last) => last < id,
        }
    }

    /// The live clause of this id.
    pub fn clause(&self, id: u64) -> Option<&[Lit]>
        ensures value { option_copied result ≡ live_clause self.now.live id }
        ensures over { IfSome result (λ c. IsOver self.now.vars c.now) }
    {
        let slot = self.slots[find(self.slots.as_slice(), id)?];
        if !slot.is_live() {
            return None;
        }
        Some(piece(
            self.literals.as_slice(),
            slot.start as usize,
            slot.end as usize,
        ))
    }

    /// Whether a clause of this id is live.
    pub fn is_live(&self, id: u64) -> bool
        ensures { result ≡ is_live self.now.live id }
    {
        self.clause(id).is_some()
    }

    /// Adds a clause after all others. There is room for it.
    pub fn push(&mut self, id: u64, lits: &[Lit])
        requires after { IsTrue (is_after self.old.last id) }
        requires over { IsOver self.old.vars lits.now }
        requires clauses { 1 ≤ self.old.spare_clauses }
        requires literals { length lits.now ≤ self.old.spare_literals }
        ensures { self.new ≡ record self.old {
          last = Some id;
          live = self.old.live ++ record { id = id; clause = lits.now } ∷ [];
          spare_clauses = self.old.spare_clauses - 1;
          spare_literals = self.old.spare_literals - length lits.now;
        } }
    {
        let start = self.literals.len();
        self.literals.extend_from_slice(lits).unwrap();
        self.slots.push_reserved(Slot {
            id,
            start: start as u32,
            end: self.literals.len() as u32,
        });
        self.last = Some(id);
        self.spare_clauses -= 1;
        self.spare_literals -= lits.len();
    }

    /// Deletes the clause of this id, where it is live.
    pub fn remove(&mut self, id: u64)
        ensures { self.new ≡ record self.old { live = without self.old.live id } }
    {
        if let Some(k) = find(self.slots.as_slice(), id) {
            let slot = &mut self.slots[k];
            slot.start = 1;
            slot.end = 0;
        }
    }
}
