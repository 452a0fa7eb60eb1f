// Formulas and their DIMACS texts.
use dsv_base::MemSink;
use dsv_cnf::{Assignment, CnfRefusal, Lit, holds, read_dimacs, write_dimacs};
use std::alloc::Global;

const TEXT: &[u8] = b"c two clauses\np cnf 2 2\n1 -2 0\n2\t\r\n0";

const WRITTEN: &[u8] = b"p cnf 2 2\n1 -2 0\n2 0\n";

/// Whether the text is written as it was read.
fn is_written(alloc: Global) -> Option<bool> {
    let formula = read_dimacs(alloc, TEXT).ok()?;
    let mut sink = MemSink::new(alloc, 64).ok()?;
    write_dimacs(&formula, &mut sink).ok()?;
    Some(sink.bytes() == WRITTEN)
}

#[test]
fn a_text_is_written_as_it_was_read(rt: HostRuntime) {
    assert!(rt; is_written(rt.alloc()) == Some(true));
}

/// Whether a literal is true where its variable is, among two variables.
fn is_true(alloc: Global) -> Option<bool> {
    let mut values = Assignment::new(alloc, 2).ok()?;
    let count = values.vars();
    values.set(1, true);
    Some(count == 2 && holds(&[Lit::new(1, true)], &values))
}

#[test]
fn a_literal_is_true_where_its_variable_is(rt: HostRuntime) {
    assert!(rt; is_true(rt.alloc()) == Some(true));
}

/// A text, and its first refusal.
struct Refused {
    text: &'static str,
    refusal: CnfRefusal,
}

const REFUSED: [Refused; 11] = [
    Refused {
        text: "",
        refusal: CnfRefusal::Header { at: 0 },
    },
    Refused {
        text: "p cnf 2  1\n0\n",
        refusal: CnfRefusal::Header { at: 8 },
    },
    Refused {
        text: "p cnf 02 1\n0\n",
        refusal: CnfRefusal::Header { at: 7 },
    },
    Refused {
        text: "p cnf 2147483649 0\n",
        refusal: CnfRefusal::Header { at: 6 },
    },
    Refused {
        text: "p cnf 1 4294967296\n",
        refusal: CnfRefusal::Header { at: 8 },
    },
    Refused {
        text: "p cnf 2 1\n1 -3 0\n",
        refusal: CnfRefusal::Literal { at: 12 },
    },
    Refused {
        text: "p cnf 2 1\n1 -0 0\n",
        refusal: CnfRefusal::Literal { at: 12 },
    },
    Refused {
        text: "p cnf 2 1\n1 02 0\n",
        refusal: CnfRefusal::Literal { at: 12 },
    },
    Refused {
        text: "p cnf 2 1\n1 2\n",
        refusal: CnfRefusal::Count { at: 14 },
    },
    Refused {
        text: "p cnf 2 1\n1 0 2 0",
        refusal: CnfRefusal::Count { at: 17 },
    },
    Refused {
        text: "p cnf 2 2\n1 0\n",
        refusal: CnfRefusal::Count { at: 14 },
    },
];

fn is_refused(alloc: Global, row: &Refused) -> bool {
    read_dimacs(alloc, row.text.as_bytes()).err() == Some(row.refusal)
}

#[test]
fn other_texts_are_refused(rt: HostRuntime) {
    let alloc = rt.alloc();
    for row in &REFUSED {
        assert!(rt; is_refused(alloc, row));
    }
}
