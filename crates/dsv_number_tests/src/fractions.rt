// Fractions; expected values are from Python's `fractions`.
use dsv_fraction::{Frac, FracList, TooWide};
use std::cmp::Ordering;

type Parts = (i128, i128);

const GREATEST: i128 = i128::MAX;

const HALF: i128 = 1 << 126;

fn frac(parts: Parts) -> Result<Frac, TooWide> {
    if parts.1 == 0 {
        return Err(TooWide);
    }
    Frac::new(parts.0, parts.1)
}

fn has_parts(value: Result<Frac, TooWide>, wanted: Option<Parts>) -> bool {
    match value {
        Ok(q) => Some(q.to_parts()) == wanted,
        Err(_) => wanted.is_none(),
    }
}

struct NewFraction {
    parts: Parts,
    wanted: Option<Parts>,
}

const NEW_FRACTIONS: [NewFraction; 9] = [
    NewFraction {
        parts: (6, -4),
        wanted: Some((-3, 2)),
    },
    NewFraction {
        parts: (0, -7),
        wanted: Some((0, 1)),
    },
    NewFraction {
        parts: (i128::MIN, 1),
        wanted: None,
    },
    NewFraction {
        parts: (i128::MIN, 2),
        wanted: Some((-HALF, 1)),
    },
    NewFraction {
        parts: (i128::MIN, i128::MIN),
        wanted: Some((1, 1)),
    },
    NewFraction {
        parts: (1, i128::MIN),
        wanted: None,
    },
    NewFraction {
        parts: (2, i128::MIN),
        wanted: Some((-1, HALF)),
    },
    NewFraction {
        parts: (GREATEST, -GREATEST),
        wanted: Some((-1, 1)),
    },
    NewFraction {
        parts: (GREATEST, GREATEST - 1),
        wanted: Some((GREATEST, GREATEST - 1)),
    },
];

#[test]
fn new_fractions_are_in_lowest_terms(rt: HostRuntime) {
    for row in &NEW_FRACTIONS {
        assert!(rt; has_parts(frac(row.parts), row.wanted));
    }
}

/// An operation on two fractions, with its result in lowest terms, or None where it is too wide.
struct Operation {
    a: Parts,
    b: Parts,
    wanted: Option<Parts>,
}

const PRODUCTS: [Operation; 7] = [
    Operation {
        a: (1 << 63, 1),
        b: (1 << 63, 1),
        wanted: Some((HALF, 1)),
    },
    Operation {
        a: (1 << 64, 1),
        b: (1 << 63, 1),
        wanted: None,
    },
    Operation {
        a: (1, 1 << 63),
        b: (1, 1 << 63),
        wanted: Some((1, HALF)),
    },
    Operation {
        a: (1, 1 << 64),
        b: (-1, 1 << 63),
        wanted: None,
    },
    Operation {
        a: (GREATEST, 1),
        b: (2, GREATEST),
        wanted: Some((2, 1)),
    },
    Operation {
        a: (HALF, 3),
        b: (3, HALF),
        wanted: Some((1, 1)),
    },
    Operation {
        a: (-3, 4),
        b: (2, 9),
        wanted: Some((-1, 6)),
    },
];

fn product(row: &Operation) -> Result<Frac, TooWide> {
    frac(row.a)?.mul(&frac(row.b)?)
}

#[test]
fn products(rt: HostRuntime) {
    for row in &PRODUCTS {
        assert!(rt; has_parts(product(row), row.wanted));
    }
}

const QUOTIENTS: [Operation; 6] = [
    Operation {
        a: (1, 2),
        b: (-3, 4),
        wanted: Some((-2, 3)),
    },
    Operation {
        a: (1, 1 << 64),
        b: (1 << 63, 1),
        wanted: None,
    },
    Operation {
        a: (1, 1 << 63),
        b: (1 << 63, 1),
        wanted: Some((1, HALF)),
    },
    Operation {
        a: (0, 1),
        b: (-5, 7),
        wanted: Some((0, 1)),
    },
    Operation {
        a: (GREATEST, 1),
        b: (1, 2),
        wanted: None,
    },
    Operation {
        a: (GREATEST, 2),
        b: (GREATEST, 4),
        wanted: Some((2, 1)),
    },
];

fn quotient(row: &Operation) -> Result<Frac, TooWide> {
    let b = frac(row.b)?;
    if b.num() == 0 {
        return Err(TooWide);
    }
    frac(row.a)?.div(&b)
}

#[test]
fn quotients(rt: HostRuntime) {
    for row in &QUOTIENTS {
        assert!(rt; has_parts(quotient(row), row.wanted));
    }
}

const SUMS: [Operation; 8] = [
    Operation {
        a: (1, 6),
        b: (1, 10),
        wanted: Some((4, 15)),
    },
    Operation {
        a: (HALF, 1),
        b: (HALF, 1),
        wanted: None,
    },
    Operation {
        a: (HALF, 1),
        b: (HALF - 1, 1),
        wanted: Some((GREATEST, 1)),
    },
    Operation {
        a: (-HALF, 1),
        b: (-HALF, 1),
        wanted: None,
    },
    Operation {
        a: (1, 1 << 100),
        b: (1, 1 << 100),
        wanted: Some((1, 1 << 99)),
    },
    Operation {
        a: (1, 1 << 64),
        b: (1, 12_157_665_459_056_928_801),
        wanted: None,
    },
    Operation {
        a: (GREATEST, 2),
        b: (1, 1),
        wanted: None,
    },
    Operation {
        a: (1, 2),
        b: (-1, 2),
        wanted: Some((0, 1)),
    },
];

fn sum(row: &Operation) -> Result<Frac, TooWide> {
    frac(row.a)?.add(&frac(row.b)?)
}

#[test]
fn sums(rt: HostRuntime) {
    for row in &SUMS {
        assert!(rt; has_parts(sum(row), row.wanted));
    }
}

const DIFFERENCES: [Operation; 4] = [
    Operation {
        a: (1, 6),
        b: (1, 10),
        wanted: Some((1, 15)),
    },
    Operation {
        a: (-GREATEST, 1),
        b: (1, 1),
        wanted: None,
    },
    Operation {
        a: (-HALF, 1),
        b: (HALF, 1),
        wanted: None,
    },
    Operation {
        a: (0, 1),
        b: (-2, 3),
        wanted: Some((2, 3)),
    },
];

fn difference(row: &Operation) -> Result<Frac, TooWide> {
    frac(row.a)?.sub(&frac(row.b)?)
}

#[test]
fn differences(rt: HostRuntime) {
    for row in &DIFFERENCES {
        assert!(rt; has_parts(difference(row), row.wanted));
    }
}

struct Comparison {
    a: Parts,
    b: Parts,
    wanted: Ordering,
}

const COMPARISONS: [Comparison; 6] = [
    Comparison {
        a: (1, 2),
        b: (1, 3),
        wanted: Ordering::Greater,
    },
    Comparison {
        a: (-1, 2),
        b: (-1, 3),
        wanted: Ordering::Less,
    },
    Comparison {
        a: (-1, 2),
        b: (0, 1),
        wanted: Ordering::Less,
    },
    Comparison {
        a: (2, 4),
        b: (1, 2),
        wanted: Ordering::Equal,
    },
    Comparison {
        a: (5, 7),
        b: (3, 4),
        wanted: Ordering::Less,
    },
    Comparison {
        a: (GREATEST, GREATEST - 1),
        b: (GREATEST - 1, GREATEST - 2),
        wanted: Ordering::Less,
    },
];

fn is_in_order(row: &Comparison) -> bool {
    match (frac(row.a), frac(row.b)) {
        (Ok(a), Ok(b)) => a.cmp(&b) == row.wanted,
        _ => false,
    }
}

#[test]
fn order(rt: HostRuntime) {
    for row in &COMPARISONS {
        assert!(rt; is_in_order(row));
    }
}

#[test]
fn other_makers(rt: HostRuntime) {
    let mut list = FracList::new();
    list.push(Frac::default());
    list.push(Frac::from(-7i64));
    let parts = list.iter().map(|q| q.to_parts());
    assert!(rt; parts.eq([(0, 1), (-7, 1)]));
}
