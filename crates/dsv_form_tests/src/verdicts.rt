// Polynomials worked by hand.
use dsv_forms::Poly;
use dsv_jury::{Jury, jury};

fn verdict_of(coefficients: &[i64]) -> Option<Jury> {
    match Poly::new(coefficients) {
        Ok(poly) => Some(jury(&poly)),
        Err(_) => None,
    }
}

#[test]
fn a_last_coefficient_leads(rt: HostRuntime) {
    assert!(rt; verdict_of(&[1, 0, 0, 2]) == Some(Jury::NotInside { row: 0 }));
}

#[test]
fn coefficients_of_one_size_are_not_inside(rt: HostRuntime) {
    assert!(rt; verdict_of(&[1, -1]) == Some(Jury::NotInside { row: 0 }));
}

// The next row is 8192^2 - 7864^2 = 5266368 and 16384 (8192 - 7864) = 5373952.
#[test]
fn a_later_row_leads(rt: HostRuntime) {
    assert!(rt; verdict_of(&[8_192, 16_384, 7_864]) == Some(Jury::NotInside { row: 1 }));
}

#[test]
fn a_constant_is_inside(rt: HostRuntime) {
    assert!(rt; verdict_of(&[5]) == Some(Jury::Inside));
}

#[test]
fn a_pole_of_one_half_is_inside(rt: HostRuntime) {
    assert!(rt; verdict_of(&[2, -1]) == Some(Jury::Inside));
}

// 15 -6, which is 5 -2; then 21, which is 1.
#[test]
fn two_rows_are_inside(rt: HostRuntime) {
    assert!(rt; verdict_of(&[4, -2, 1]) == Some(Jury::Inside));
}

// 2^64 - 1, 2^32, -1.
#[test]
fn a_row_is_wide(rt: HostRuntime) {
    assert!(rt; verdict_of(&[1 << 32, 1, 0, 1]) == Some(Jury::Wide { row: 1 }));
}

// 2^62 - 1, 2^31, -1; then 2^63 (2^61 - 1) and 2^93, which is 2^61 - 1 and 2^30.
#[test]
fn a_row_of_62_bits_is_not_wide(rt: HostRuntime) {
    assert!(rt; verdict_of(&[1 << 31, 1, 0, 1]) == Some(Jury::Inside));
}
