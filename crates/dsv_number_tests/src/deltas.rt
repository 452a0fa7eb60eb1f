// Coefficients in the delta operator; expected values are worked out by hand from the binomial
// sums.

use dsv_delta::{DeltaWide, PolyWide, to_delta, z_poly};
use dsv_fraction::{Frac, TooWide};
use dsv_names::ListName;
use std::test::Fail;

/// Whether both lists of a transfer function of order two are these in delta 1/4.
fn is_order_two() -> Result<bool, TooWide> {
    let delta = Frac::new(1, 4)?;
    if delta.num() <= 0 {
        return Ok(false);
    }
    let b = [delta, Frac::new(-1, 4)?, Frac::from(0i64)];
    let a = [Frac::from(1i64), Frac::new(-3, 2)?, Frac::new(14, 25)?];
    let beta = [delta, Frac::from(1i64), Frac::from(0i64)];
    let alpha = [Frac::from(1i64), Frac::from(2i64), Frac::new(24, 25)?];
    match to_delta(&b, &a, &delta) {
        Ok(pair) => Ok(
            pair.b.as_slice() == beta.as_slice() && pair.a.as_slice() == alpha.as_slice(),
        ),
        Err(_) => Ok(false),
    }
}

#[test]
fn order_two(rt: HostRuntime) {
    assert!(rt; is_order_two() == Ok(true));
}

/// Whether the list 1 0 .. 0 of order eight is refused for a delta of 2^-20, at its power 7.
fn is_power_too_wide() -> Result<bool, TooWide> {
    let delta = Frac::new(1, 1 << 20)?;
    if delta.num() <= 0 {
        return Ok(false);
    }
    let (zero, one) = (Frac::from(0i64), Frac::from(1i64));
    let b = [zero; 9];
    let a = [one, zero, zero, zero, zero, zero, zero, zero, zero];
    let refusal = DeltaWide {
        list: ListName::A,
        index: 7,
    };
    Ok(to_delta(&b, &a, &delta).err() == Some(refusal))
}

#[test]
fn a_power_of_delta_is_too_wide(rt: HostRuntime) {
    assert!(rt; is_power_too_wide() == Ok(true));
}

#[test]
fn no_narrow_denominator(rt: HostRuntime) -> Result<(), Fail> {
    let one = Frac::from(1i64);
    let b = [
        Frac::new(1, 1 << 63)?,
        Frac::new(1, 12_157_665_459_056_928_801)?,
    ];
    let a = [one, Frac::new(1, 1 << 126)?];
    let refusal = to_delta(&b, &a, &one).err();
    assert_eq!(rt;
        refusal,
        Some(DeltaWide {
            list: ListName::B,
            index: 0
        })
    );
    Ok(())
}

// With delta 1/4: 8192 16 = 131072, 16384 4 = 65536 and 7864 of (z - 1)^2, z - 1 and 1.
#[test]
fn a_polynomial_of_order_two(rt: HostRuntime) -> Result<(), Fail> {
    let list = z_poly(&[8_192, 16_384, 7_864], 2_048, 13)
        .ok()
        .ok_or("wide")?;
    assert_eq!(rt; list.as_slice(), [131_072, -196_608, 73_400].as_slice());
    Ok(())
}

// 8192^4 (z - 1)^3 + 204800 819 8192^2 (z - 1)^2 + 1843200 819^2 8192 (z - 1) + 5120819 819^3.
#[test]
fn a_polynomial_of_order_three(rt: HostRuntime) -> Result<(), Fail> {
    let list = z_poly(&[8_192, 204_800, 1_843_200, 5_120_819], 819, 13)
        .ok()
        .ok_or("wide")?;
    let wanted = [
        4_503_599_627_370_496,
        -2_254_548_592_754_688,
        1_126_450_266_636_288,
        -562_362_694_852_975,
    ];
    assert_eq!(rt; list.as_slice(), wanted.as_slice());
    Ok(())
}

// With delta 2, which is even over 1, the list is (z - 1)^2.
#[test]
fn a_delta_of_two(rt: HostRuntime) -> Result<(), Fail> {
    let list = z_poly(&[1, 0, 0], 4, 1).ok().ok_or("wide")?;
    assert_eq!(rt; list.as_slice(), [1, -2, 1].as_slice());
    Ok(())
}

// 2^19 2^(13 7) is 2^110.
#[test]
fn a_scaled_coefficient_is_too_wide(rt: HostRuntime) {
    let refusal = z_poly(&[0, 1 << 19, 0, 0, 0, 0, 0, 0, 0], 1, 13).err();
    assert_eq!(rt; refusal, Some(PolyWide { index: 1 }));
}

// 63 2^(13 8) is below 2^110; the list is 63 2^104 times the binomials with their signs.
#[test]
fn a_scaled_coefficient_at_the_bound(rt: HostRuntime) -> Result<(), Fail> {
    let list = z_poly(&[63, 0, 0, 0, 0, 0, 0, 0, 0], 1, 13)
        .ok()
        .ok_or("wide")?;
    let unit: i128 = 63 << 104;
    let wanted = [
        unit,
        -8 * unit,
        28 * unit,
        -56 * unit,
        70 * unit,
        -56 * unit,
        28 * unit,
        -8 * unit,
        unit,
    ];
    assert_eq!(rt; list.as_slice(), wanted.as_slice());
    Ok(())
}
