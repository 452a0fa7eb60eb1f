// Worked polynomials.
use dsv_forms::{GREATEST_ORDER, Poly};
use dsv_sums::{MOST_LOOKS, first_offer};

struct Row<'a> {
    c: &'a [i64],
    look: u32,
    rows: [[i128; 3]; 3],
}

const ROWS: [Row<'static>; 3] = [
    Row {
        c: &[2, 0, 0, -1],
        look: 1,
        rows: [[3_145_728, 0, 0], [0, 2_359_296, 0], [0, 0, 1_572_864]],
    },
    Row {
        c: &[4, 1, 0, 1],
        look: 1,
        rows: [
            [3_280_896, -16_384, 135_168],
            [-16_384, 2_162_688, -16_384],
            [135_168, -16_384, 1_183_744],
        ],
    },
    Row {
        c: &[16, -11, 0, 4],
        look: 1,
        rows: [
            [4_371_216, -123_904, -445_632],
            [-123_904, 2_162_688, 45_056],
            [-445_632, 45_056, 1_210_624],
        ],
    },
];

/// The entries of a form of three places, and 0 elsewhere.
fn matrix(rows: &[[i128; 3]; 3]) -> [[i128; GREATEST_ORDER]; GREATEST_ORDER] {
    let mut all = [[0; GREATEST_ORDER]; GREATEST_ORDER];
    for i in 0..3usize {
        for j in 0..3usize {
            all[i][j] = rows[i][j];
        }
    }
    all
}

/// Whether the first offer is this form at this look.
fn is_offered(row: &Row<'_>) -> bool {
    match Poly::new(row.c) {
        Ok(poly) => match first_offer(&poly, 0) {
            Some(found) => found.look == row.look && found.offer.form.rows == matrix(&row.rows),
            None => false,
        },
        Err(_) => false,
    }
}

#[test]
fn worked_forms_are_offered(rt: HostRuntime) {
    for row in &ROWS {
        assert!(rt; is_offered(row));
    }
}

/// The look at which the first offer from a look on is found.
fn look_of(c: &[i64; 4], from: u32) -> Option<u32> {
    if MOST_LOOKS < from {
        return None;
    }
    let poly = Poly::new(c).ok()?;
    Some(first_offer(&poly, from)?.look)
}

#[test]
fn a_triple_pole_takes_32_steps(rt: HostRuntime) {
    assert!(rt; look_of(&[64, -144, 108, -27], 0) == Some(5));
}

#[test]
fn the_search_begins_at_its_look(rt: HostRuntime) {
    assert!(rt; look_of(&[2, 0, 0, -1], 3) == Some(3));
}

#[test]
fn a_polynomial_with_a_root_outside_has_no_offer(rt: HostRuntime) {
    assert!(rt; look_of(&[1, 0, 0, 2], 0) == None);
}
