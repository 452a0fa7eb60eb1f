// Proposers of sets that need no trust: the command asks them, drops them, and stays right.
ghost use Rattle.std.specs.Prelude.{◌≡◌, None};
ghost use Rattle.dsv_cli_tests.specs.Hostile.{too_deep, no_state};

use crate::runs::{files_of, run_with};
use dsv_base::{MemSink, NoMemory};
use dsv_cli::{Answer, InvariantProposer, Proposers, Stop};
use dsv_template::{
    BoxProposer, Candidate, CoefficientList, Inequality, InequalityList, Shape, Why,
};
use std::alloc::Global;
use std::cell::Cell;
use std::rc::Rc;

/// y = x / 2 + y1 / 2, in words of four bits.
const HALVES: &[u8] = b"digital_system d = { .b = {0.5}, .b_size = 1, .a = {1.0, -0.5}, \
      .a_size = 2 }; implementation r = { .int_bits = 2, .frac_bits = 2, .max = 1.0, \
      .min = -1.0 };";

const HALVES_TEXT: &[u8] = b"VERIFICATION SUCCESSFUL\n\
      property OVERFLOW realization DFI unbounded\ndepth 1\n\
      inequality 1 0 <= 4\ninequality -1 0 <= 4\ninequality 0 1 <= 7\ninequality 0 -1 <= 8\n";

/// y = x + y1, in words of four bits: the coefficient -0.9 becomes -1.
const SUM: &[u8] = b"digital_system d = { .b = {1.0}, .b_size = 1, .a = {1.0, -0.9}, \
      .a_size = 2 }; implementation r = { .int_bits = 2, .frac_bits = 2, .max = 1.0, \
      .min = -1.0 };";

/// What a proposer does each time that it is asked.
#[derive(Clone, Copy, PartialEq, Eq)]
enum Turn {
    /// It offers a set of no states.
    NoState,
    /// It offers a set of a depth that is too great.
    TooDeep,
    /// It says that it has no more.
    NoMore,
    /// It finds no memory.
    NoMemory,
}

/// Does the same for ever, and counts what it hears.
#[derive(Drop)]
struct Stubborn {
    turn: Turn,
    last: Option<Candidate>,
    dry: bool,
    heard: Rc<Cell<u32>>,
}

fn too_deep() -> Candidate
    ensures { result ≡ too_deep }
{
    Candidate {
        inequalities: InequalityList::new(),
        depth: 9,
    }
}

fn no_state() -> Candidate
    ensures { result ≡ no_state }
{
    let mut coefficients = CoefficientList::new();
    coefficients.push(0);
    coefficients.push(0);
    let mut inequalities = InequalityList::new();
    inequalities.push(Inequality {
        coefficients,
        bound: -1,
    });
    Candidate {
        inequalities,
        depth: 1,
    }
}

impl InvariantProposer for Stubborn {
    ghost last = { λ s. s.last };

    ghost dry = { λ s. s.dry };

    ghost to_come = { λ _ _. None };

    ghost heard = { λ _ _. Unit {0} };

    fn propose(&mut self, _alloc: Global, _shape: &Shape) -> Result<Option<Candidate>, NoMemory> {
        match self.turn {
            Turn::NoState => {
                self.last = Some(no_state());
                Ok(Some(no_state()))
            }
            Turn::TooDeep => {
                self.last = Some(too_deep());
                Ok(Some(too_deep()))
            }
            Turn::NoMore => {
                self.dry = true;
                Ok(None)
            }
            Turn::NoMemory => Err(NoMemory),
        }
    }

    fn tell(&mut self, _verdict: &Why) {
        self.heard.set(self.heard.get().wrapping_add(1));
    }

    ghost dry_is_empty = { λ x shape e. tt };
}

/// A run on a file by these proposers, with the boxes after them or not, and what comes of it.
#[derive(Clone, Copy)]
struct Row {
    file: &'static [u8],
    turns: &'static [Turn],
    boxes: bool,
    status: u8,
    text: &'static [u8],
    /// How many proposers are left.
    left: usize,
    /// How many findings the first ones heard.
    heard: u32,
    /// How many of the candidates that the answer tells of first were found to be of a bad shape,
    /// where the next of them was found unsafe.
    bad_shapes: Option<usize>,
}

/// The boxes find their set, after proposers of which one is heard to its end.
const FOUND: Row = Row {
    file: HALVES,
    turns: &[],
    boxes: true,
    status: 0,
    text: HALVES_TEXT,
    left: 1,
    heard: 32,
    bad_shapes: None,
};

/// The boxes aren't asked, since a proposer before them finds no memory.
const NO_MEMORY: Row = Row {
    status: 5,
    text: b"NO MEMORY\n",
    left: 2,
    heard: 0,
    ..FOUND
};

/// Nobody offers a set.
const NOT_FOUND: Row = Row {
    file: SUM,
    boxes: false,
    status: 20,
    text: b"VERIFICATION INCONCLUSIVE\nproperty OVERFLOW realization DFI unbounded\n\
          cause NO_INVARIANT offers 0 spent 0\n",
    left: 0,
    heard: 0,
    ..FOUND
};

const ROWS: [Row; 8] = [
    Row {
        turns: &[Turn::NoState],
        ..FOUND
    },
    Row {
        turns: &[Turn::NoMore, Turn::TooDeep, Turn::NoMore],
        ..FOUND
    },
    Row {
        turns: &[Turn::NoMemory],
        ..NO_MEMORY
    },
    Row {
        turns: &[Turn::NoMore, Turn::NoMemory],
        ..NO_MEMORY
    },
    Row {
        file: HALVES,
        turns: &[Turn::NoMore],
        ..NOT_FOUND
    },
    Row {
        boxes: true,
        text: b"VERIFICATION INCONCLUSIVE\nproperty OVERFLOW realization DFI unbounded\n\
              cause NO_INVARIANT offers 16 spent 0\n",
        bad_shapes: Some(0),
        ..NOT_FOUND
    },
    NOT_FOUND,
    Row {
        turns: &[Turn::TooDeep],
        boxes: true,
        text: b"VERIFICATION INCONCLUSIVE\nproperty OVERFLOW realization DFI unbounded\n\
              cause NO_INVARIANT offers 48 spent 0\n",
        heard: 32,
        bad_shapes: Some(32),
        ..NOT_FOUND
    },
];

/// How many candidates of a bad shape the answer tells of before the first other one, where that is
/// unsafe.
fn bad_shapes_of(outcome: &Result<Answer, Stop>) -> Option<usize> {
    let Ok(Answer::NoInvariant { kept, .. }) = outcome else {
        return None;
    };
    for (place, set) in kept.as_slice().iter().enumerate() {
        match &set.why {
            Why::BadShape => {}
            Why::Unsafe { .. } => return Some(place),
            _ => return None,
        }
    }
    None
}

/// A proposer that does this each time.
fn stubborn_of(
    alloc: Global,
    turn: Turn,
    heard: Rc<Cell<u32>>,
) -> Option<Box<dyn InvariantProposer>> {
    let proposer = Stubborn {
        turn,
        last: None,
        dry: false,
        heard,
    };
    Some(Box::new(alloc, proposer).ok()?)
}

/// The proposers of a row, which are of sets alone.
fn proposers_of(alloc: Global, row: &Row, heard: &Rc<Cell<u32>>) -> Option<Proposers> {
    let mut sets: Vec<Box<dyn InvariantProposer>> = Vec::new(alloc);
    for turn in row.turns {
        sets.push(stubborn_of(alloc, *turn, heard.clone().ok()?)?)
            .ok()?;
    }
    if row.boxes {
        sets.push(Box::new(alloc, BoxProposer::new()).ok()?).ok()?;
    }
    Some(Proposers {
        sets,
        forms: Vec::new(alloc),
    })
}

/// Whether the run of a row with these proposers ends as it says.
fn ends(alloc: Global, row: &Row, proposers: &mut Proposers) -> Option<bool> {
    let mut files = files_of(alloc, "f", row.file)?;
    let mut sink = MemSink::new(alloc, 1000).ok()?;
    let words = ["f", "--property", "OVERFLOW", "--unbounded"];
    let done = run_with(alloc, &words, &mut files, &mut sink, proposers)?;
    Some(
        done.status == row.status
            && sink.bytes() == row.text
            && bad_shapes_of(&done.outcome) == row.bad_shapes,
    )
}

/// Whether the run of a row ends as it says, and the proposers heard as much.
fn is_as_told(alloc: Global, row: &Row) -> Option<bool> {
    let heard = Rc::new(alloc, Cell::new(0)).ok()?;
    let mut proposers = proposers_of(alloc, row, &heard)?;
    let ended = ends(alloc, row, &mut proposers)?;
    Some(ended && proposers.sets.len() == row.left && heard.get() == row.heard)
}

#[test]
fn proposers_of_sets_need_no_trust(rt: HostRuntime) {
    for row in &ROWS {
        assert!(rt; is_as_told(rt.alloc(), row) == Some(true));
    }
}
