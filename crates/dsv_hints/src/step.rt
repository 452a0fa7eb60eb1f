// Logs and their steps.
ghost use Rattle.std.specs.Prelude.{◌≡◌, IfOk};
ghost use Rattle.std.specs.Prelude.{ℕ, List};
ghost use Rattle.dsv_cnf.specs.Literal.{Literal};

use dsv_base::{Items, NoMemory};
use dsv_cnf::Lit;
use smallvec::SmallVec;
use std::alloc::Global;
use std::marker::Model;

/// The literals of a clause. It is made from a slice or a `Vec`.
#[derive(Drop)]
pub struct LitList {
    lits: SmallVec<Lit, 4>,
}

impl Model for LitList {
    ghost Value = { List Literal };

    ghost view = { λ l. l.lits.items };
}

impl LitList {
    /// A copy of these literals, in their order.
    pub fn from_slice(alloc: Global, lits: &[Lit]) -> Result<Self, NoMemory>
        ensures { IfOk result (λ list. list ≡ lits.now) }
    {
        Ok(LitList {
            lits: SmallVec::from_slice(alloc, lits)?,
        })
    }

    /// The literals, in order.
    pub fn as_slice(&self) -> &[Lit]
        ensures { result.now ≡ self.now }
    {
        self.lits.as_slice()
    }
}

impl From<Vec<Lit>> for LitList {
    ghost from_gives = { λ v l. l ≡ v.items };

    fn from(lits: Vec<Lit>) -> Self {
        LitList {
            lits: SmallVec::from_vec(lits),
        }
    }
}

/// Ids of clauses. It is made from a slice or a `Vec`.
#[derive(Drop)]
pub struct HintList {
    ids: SmallVec<u64, 4>,
}

impl Model for HintList {
    ghost Value = { List ℕ };

    ghost view = { λ h. h.ids.items };
}

impl HintList {
    /// A copy of these ids, in their order.
    pub fn from_slice(alloc: Global, ids: &[u64]) -> Result<Self, NoMemory>
        ensures { IfOk result (λ list. list ≡ ids.now) }
    {
        Ok(HintList {
            ids: SmallVec::from_slice(alloc, ids)?,
        })
    }

    /// The ids, in order.
    pub fn as_slice(&self) -> &[u64]
        ensures { result.now ≡ self.now }
    {
        self.ids.as_slice()
    }
}

impl From<Vec<u64>> for HintList {
    ghost from_gives = { λ v h. h ≡ v.items };

    fn from(ids: Vec<u64>) -> Self {
        HintList {
            ids: SmallVec::from_vec(ids),
        }
    }
}

/// A step of a log. Formula clauses have the ids 1 to the number of clauses.
#[derive(Drop)]
pub enum Step {
    /// Adds a clause under an id, by hints: the ids of clauses, the last of which is false where
    /// all literals of the added clause are false and each other hint made one more literal true.
    Add {
        id: u64,
        lits: LitList,
        hints: HintList,
    },
    /// Deletes the clauses with these ids. The step's own id means nothing.
    Delete {
        id: u64,
        ids: HintList,
    },
}

impl Step {
    ghost use Rattle.dsv_hints.specs.Derivation.{added_literals};

    /// How many literals the step adds.
    pub fn added_literals(&self) -> u64
        ensures { result ≡ added_literals self.now }
    {
        match self {
            Step::Add { lits, .. } => lits.as_slice().len() as u64,
            Step::Delete { .. } => 0,
        }
    }
}

/// The steps of a derivation, in order.
pub type Log = Items<Step>;

/// Why a step is refused.
#[derive(Clone, Copy, Debug, PartialEq, Eq)]
pub enum StepRefusal {
    /// A hint or a deletion names an id that isn't live.
    UnknownId,
    /// A hinted clause has two open literals or a true one, or a hint follows the clause that is
    /// false.
    NotUnit,
    /// The hints run out before a clause is false.
    NoConflict,
    /// A step stands after the empty clause, or the log ends without it.
    NotEmpty,
    /// The id isn't greater than the ids of all clauses before it.
    IdOrder,
    /// The clause has a literal and its negation.
    Tautology,
    /// A literal's variable isn't one of the formula's.
    Literal,
}

/// What the check of a log found: the first step that is refused, or none.
#[derive(Clone, Copy, Debug, PartialEq, Eq)]
pub enum Verdict {
    Accepted,
    Refused { step: u32, why: StepRefusal },
}
