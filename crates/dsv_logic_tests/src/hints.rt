// The checker of hints, on logs over two small formulas.
use dsv_base::NoMemory;
use dsv_cnf::{Lit, read_dimacs};
use dsv_hints::{HintList, LitList, Log, Step, StepRefusal, Verdict, check};
use std::alloc::Global;

const TWO: &str = "p cnf 2 2\n1 -2 0\n2 0\n";

const THREE: &str = "p cnf 2 3\n1 -2 0\n2 0\n-1 0\n";

/// Literals over variables that the formulas have, and one over a variable that they haven't.
#[derive(Clone, Copy)]
enum Clause {
    Empty,
    Tautology,
    Unknown,
}

/// A step of a log: an added clause with its hints, or a deletion of ids.
#[derive(Clone, Copy)]
enum Row {
    Add(u64, Clause, &'static [u64]),
    Delete(u64, &'static [u64]),
}

fn clause_of(alloc: Global, clause: Clause) -> Result<LitList, NoMemory> {
    match clause {
        Clause::Empty => LitList::from_slice(alloc, &[]),
        Clause::Tautology => LitList::from_slice(alloc, &[Lit::new(0, true), Lit::new(0, false)]),
        Clause::Unknown => LitList::from_slice(alloc, &[Lit::new(2, true)]),
    }
}

fn step_of(alloc: Global, row: Row) -> Result<Step, NoMemory> {
    match row {
        Row::Add(id, clause, hints) => Ok(Step::Add {
            id,
            lits: clause_of(alloc, clause)?,
            hints: HintList::from_slice(alloc, hints)?,
        }),
        Row::Delete(id, ids) => Ok(Step::Delete {
            id,
            ids: HintList::from_slice(alloc, ids)?,
        }),
    }
}

/// A formula, the steps of a log, and the verdict.
struct Case {
    formula: &'static str,
    rows: &'static [Row],
    verdict: Verdict,
}

/// The step that refutes the formula of three clauses.
const END: Row = Row::Add(4, Clause::Empty, &[2, 1, 3]);

const CASES: [Case; 11] = [
    Case {
        formula: TWO,
        rows: &[Row::Add(3, Clause::Empty, &[2, 1]), END],
        verdict: Verdict::Refused {
            step: 0,
            why: StepRefusal::NoConflict,
        },
    },
    Case {
        formula: THREE,
        rows: &[Row::Delete(9, &[2, 2]), END],
        verdict: Verdict::Refused {
            step: 1,
            why: StepRefusal::UnknownId,
        },
    },
    Case {
        formula: THREE,
        rows: &[Row::Add(4, Clause::Empty, &[1]), END],
        verdict: Verdict::Refused {
            step: 0,
            why: StepRefusal::NotUnit,
        },
    },
    Case {
        formula: THREE,
        rows: &[Row::Add(4, Clause::Empty, &[2, 1, 3, 9]), END],
        verdict: Verdict::Refused {
            step: 0,
            why: StepRefusal::NotUnit,
        },
    },
    Case {
        formula: THREE,
        rows: &[Row::Add(3, Clause::Empty, &[2, 1, 3]), END],
        verdict: Verdict::Refused {
            step: 0,
            why: StepRefusal::IdOrder,
        },
    },
    Case {
        formula: THREE,
        rows: &[Row::Add(4, Clause::Tautology, &[2, 1, 3]), END],
        verdict: Verdict::Refused {
            step: 0,
            why: StepRefusal::Tautology,
        },
    },
    Case {
        formula: THREE,
        rows: &[Row::Add(4, Clause::Unknown, &[2, 1, 3]), END],
        verdict: Verdict::Refused {
            step: 0,
            why: StepRefusal::Literal,
        },
    },
    Case {
        formula: THREE,
        rows: &[END, END],
        verdict: Verdict::Refused {
            step: 1,
            why: StepRefusal::NotEmpty,
        },
    },
    Case {
        formula: THREE,
        rows: &[Row::Delete(9, &[]), END],
        verdict: Verdict::Accepted,
    },
    // A clause that was deleted is no hint.
    Case {
        formula: THREE,
        rows: &[Row::Delete(3, &[2]), END],
        verdict: Verdict::Refused {
            step: 1,
            why: StepRefusal::UnknownId,
        },
    },
    Case {
        formula: THREE,
        rows: &[],
        verdict: Verdict::Refused {
            step: 0,
            why: StepRefusal::NotEmpty,
        },
    },
];

/// The log of these steps.
fn log_of(alloc: Global, rows: &[Row]) -> Option<Log> {
    let mut log = Log::new(alloc);
    for row in rows {
        log.push(step_of(alloc, *row).ok()?).ok()?;
    }
    Some(log)
}

/// The verdict on the log of a case.
fn verdict_on(alloc: Global, case: &Case) -> Option<Verdict> {
    let formula = read_dimacs(alloc, case.formula.as_bytes()).ok()?;
    let log = log_of(alloc, case.rows)?;
    if log.len() > 2 {
        return None;
    }
    check(alloc, &formula, &log).ok()
}

fn is_judged(alloc: Global, case: &Case) -> bool {
    verdict_on(alloc, case) == Some(case.verdict)
}

#[test]
fn logs_are_judged(rt: HostRuntime) {
    let alloc = rt.alloc();
    for case in &CASES {
        assert!(rt; is_judged(alloc, case));
    }
}
