// Words; expected values are worked out by hand and with Python's `fractions`.
use dsv_fraction::{Frac, TooWide};
use dsv_names::{OverflowMode, Rounding};
use dsv_word::Format;

struct Widths {
    int_bits: u32,
    frac_bits: u32,
    lawful: bool,
}

const WIDTHS: [Widths; 10] = [
    Widths {
        int_bits: 1,
        frac_bits: 1,
        lawful: true,
    },
    Widths {
        int_bits: 2,
        frac_bits: 0,
        lawful: true,
    },
    Widths {
        int_bits: 48,
        frac_bits: 0,
        lawful: true,
    },
    Widths {
        int_bits: 1,
        frac_bits: 47,
        lawful: true,
    },
    Widths {
        int_bits: 0,
        frac_bits: 5,
        lawful: false,
    },
    Widths {
        int_bits: 1,
        frac_bits: 0,
        lawful: false,
    },
    Widths {
        int_bits: 48,
        frac_bits: 1,
        lawful: false,
    },
    Widths {
        int_bits: 49,
        frac_bits: 0,
        lawful: false,
    },
    Widths {
        int_bits: 1,
        frac_bits: u32::MAX,
        lawful: false,
    },
    Widths {
        int_bits: u32::MAX,
        frac_bits: 2,
        lawful: false,
    },
];

fn is_judged(row: &Widths) -> bool {
    let format = Format::new(
        row.int_bits,
        row.frac_bits,
        Rounding::Floor,
        OverflowMode::Wrap,
    );
    format.is_ok() == row.lawful
}

#[test]
fn lawful_widths(rt: HostRuntime) {
    for row in &WIDTHS {
        assert!(rt; is_judged(row));
    }
}

// The least word of 48 bits, and the greatest.
const LOW: i64 = -140_737_488_355_328;

const HIGH: i64 = 140_737_488_355_327;

/// The bits before and after the point, a number, and the word that it becomes where words wrap and
/// where they saturate.
struct Fitted(u32, u32, i128, i64, i64);

const FITTED: [Fitted; 15] = [
    Fitted(2, 2, 7, 7, 7),
    Fitted(2, 2, 8, -8, 7),
    Fitted(2, 2, 24, -8, 7),
    Fitted(2, 2, 23, 7, 7),
    Fitted(2, 2, -8, -8, -8),
    Fitted(2, 2, -9, 7, -8),
    Fitted(2, 2, -24, -8, -8),
    Fitted(2, 2, i128::MAX, -1, 7),
    Fitted(2, 2, i128::MIN, 0, -8),
    Fitted(1, 47, 140_737_488_355_327, HIGH, HIGH),
    Fitted(1, 47, 140_737_488_355_328, LOW, HIGH),
    Fitted(1, 47, -140_737_488_355_328, LOW, LOW),
    Fitted(1, 47, -140_737_488_355_329, HIGH, LOW),
    Fitted(1, 47, i128::MAX, -1, HIGH),
    Fitted(1, 47, i128::MIN, 0, LOW),
];

fn fits_in(row: &Fitted, overflow: OverflowMode, word: i64) -> bool {
    let Fitted(int_bits, frac_bits, number, _, _) = *row;
    match Format::new(int_bits, frac_bits, Rounding::Floor, overflow) {
        Ok(format) => {
            format.fit(number) == word
                && format.fits(number) == (i128::from(format.fit(number)) == number)
        }
        Err(_) => false,
    }
}

#[test]
fn both_modes_at_both_ends(rt: HostRuntime) {
    for row in &FITTED {
        let wraps = fits_in(row, OverflowMode::Wrap, row.3);
        let saturates = fits_in(row, OverflowMode::Saturate, row.4);
        assert!(rt; wraps && saturates);
    }
}

/// The bits before and after the point, the bits of a word, the least word and the greatest.
struct Extent(u32, u32, u32, i64, i64);

const EXTENTS: [Extent; 4] = [
    Extent(2, 2, 4, -8, 7),
    Extent(1, 47, 48, LOW, HIGH),
    Extent(8, 40, 48, LOW, HIGH),
    Extent(48, 0, 48, LOW, HIGH),
];

fn has_ends(row: &Extent) -> bool {
    match Format::new(row.0, row.1, Rounding::Floor, OverflowMode::Wrap) {
        Ok(format) => format.width() == row.2 && format.lo() == row.3 && format.hi() == row.4,
        Err(_) => false,
    }
}

#[test]
fn ends(rt: HostRuntime) {
    for row in &EXTENTS {
        assert!(rt; has_ends(row));
    }
}

/// The bits after the point, a number, and what it becomes that is divided by 2 to that power and
/// made whole: by the floor, by the ceiling and to the nearest.
struct Shifted(u32, i128, i128, i128, i128);

// The square of the least word of 48 bits is 2^94, and half of 2^47 is 2^46.
const SHIFTED: [Shifted; 14] = [
    Shifted(0, -3, -3, -3, -3),
    Shifted(2, -6, -2, -1, -1),
    Shifted(2, -3, -1, 0, -1),
    Shifted(2, -2, -1, 0, 0),
    Shifted(2, -1, -1, 0, 0),
    Shifted(2, 2, 0, 1, 1),
    Shifted(2, 5, 1, 2, 1),
    Shifted(2, 6, 1, 2, 2),
    Shifted(2, 8, 2, 2, 2),
    Shifted(47, 1 << 94, 1 << 47, 1 << 47, 1 << 47),
    Shifted(
        47,
        (1 << 94) + (1 << 46),
        1 << 47,
        (1 << 47) + 1,
        (1 << 47) + 1,
    ),
    Shifted(
        47,
        (1 << 94) + (1 << 46) - 1,
        1 << 47,
        (1 << 47) + 1,
        1 << 47,
    ),
    Shifted(
        47,
        -(1 << 94) - (1 << 46),
        -(1 << 47) - 1,
        -(1 << 47),
        -(1 << 47),
    ),
    Shifted(
        47,
        -(1 << 94) - (1 << 46) - 1,
        -(1 << 47) - 1,
        -(1 << 47),
        -(1 << 47) - 1,
    ),
];

const LEAST_NUMBER: i128 = -(1 << 126);

fn shift(frac_bits: u32, rounding: Rounding, number: i128) -> Option<i128> {
    if number <= LEAST_NUMBER || number >= -LEAST_NUMBER {
        return None;
    }
    let int_bits = 48u32.saturating_sub(frac_bits);
    match Format::new(int_bits, frac_bits, rounding, OverflowMode::Wrap) {
        Ok(format) => Some(format.round_shift(number)),
        Err(_) => None,
    }
}

fn is_shifted(row: &Shifted) -> bool {
    let Shifted(frac_bits, number, floor, ceil, nearest) = *row;
    shift(frac_bits, Rounding::Floor, number) == Some(floor)
        && shift(frac_bits, Rounding::Ceil, number) == Some(ceil)
        && shift(frac_bits, Rounding::Nearest, number) == Some(nearest)
}

#[test]
fn shifts_in_all_roundings(rt: HostRuntime) {
    for row in &SHIFTED {
        assert!(rt; is_shifted(row));
    }
}

/// A fraction times 2 to that power, made whole in each rounding.
struct Rounded {
    num: i128,
    den: i128,
    frac_bits: u32,
    floor: Result<i128, TooWide>,
    ceil: Result<i128, TooWide>,
    nearest: Result<i128, TooWide>,
}

const GREATEST: i128 = i128::MAX;

const HALF: i128 = 1 << 126;

const ROUNDED: [Rounded; 16] = [
    Rounded {
        num: -1,
        den: 8,
        frac_bits: 2,
        floor: Ok(-1),
        ceil: Ok(0),
        nearest: Ok(0),
    },
    Rounded {
        num: -3,
        den: 8,
        frac_bits: 2,
        floor: Ok(-2),
        ceil: Ok(-1),
        nearest: Ok(-1),
    },
    Rounded {
        num: 1,
        den: 3,
        frac_bits: 2,
        floor: Ok(1),
        ceil: Ok(2),
        nearest: Ok(1),
    },
    Rounded {
        num: 5,
        den: 12,
        frac_bits: 2,
        floor: Ok(1),
        ceil: Ok(2),
        nearest: Ok(2),
    },
    Rounded {
        num: -5,
        den: 12,
        frac_bits: 2,
        floor: Ok(-2),
        ceil: Ok(-1),
        nearest: Ok(-2),
    },
    Rounded {
        num: -3,
        den: 2,
        frac_bits: 0,
        floor: Ok(-2),
        ceil: Ok(-1),
        nearest: Ok(-1),
    },
    Rounded {
        num: 3,
        den: 2,
        frac_bits: 0,
        floor: Ok(1),
        ceil: Ok(2),
        nearest: Ok(2),
    },
    Rounded {
        num: 1,
        den: 10,
        frac_bits: 14,
        floor: Ok(1638),
        ceil: Ok(1639),
        nearest: Ok(1638),
    },
    Rounded {
        num: GREATEST,
        den: 4,
        frac_bits: 2,
        floor: Ok(GREATEST),
        ceil: Ok(GREATEST),
        nearest: Ok(GREATEST),
    },
    Rounded {
        num: -GREATEST,
        den: 4,
        frac_bits: 2,
        floor: Ok(-GREATEST),
        ceil: Ok(-GREATEST),
        nearest: Ok(-GREATEST),
    },
    Rounded {
        num: -1,
        den: GREATEST,
        frac_bits: 2,
        floor: Ok(-1),
        ceil: Ok(0),
        nearest: Ok(0),
    },
    Rounded {
        num: HALF - 1,
        den: 1,
        frac_bits: 1,
        floor: Ok(GREATEST - 1),
        ceil: Ok(GREATEST - 1),
        nearest: Ok(GREATEST - 1),
    },
    Rounded {
        num: GREATEST,
        den: 2,
        frac_bits: 0,
        floor: Ok(HALF - 1),
        ceil: Ok(HALF),
        nearest: Ok(HALF),
    },
    Rounded {
        num: GREATEST,
        den: 2,
        frac_bits: 2,
        floor: Err(TooWide),
        ceil: Err(TooWide),
        nearest: Err(TooWide),
    },
    Rounded {
        num: HALF,
        den: 1,
        frac_bits: 1,
        floor: Err(TooWide),
        ceil: Err(TooWide),
        nearest: Err(TooWide),
    },
    Rounded {
        num: -HALF,
        den: 1,
        frac_bits: 1,
        floor: Err(TooWide),
        ceil: Err(TooWide),
        nearest: Err(TooWide),
    },
];

fn is_rounded_by(format: &Format, q: &Frac, row: &Rounded) -> bool {
    format.floor_frac(q) == row.floor
        && format.ceil_frac(q) == row.ceil
        && format.round_frac(q) == row.nearest
}

fn is_rounded(row: &Rounded) -> bool {
    if row.den == 0 {
        return false;
    }
    let format = Format::new(2, row.frac_bits, Rounding::Nearest, OverflowMode::Wrap);
    match (format, Frac::new(row.num, row.den)) {
        (Ok(format), Ok(q)) => is_rounded_by(&format, &q, row),
        _ => false,
    }
}

#[test]
fn fractions_in_all_roundings(rt: HostRuntime) {
    for row in &ROUNDED {
        assert!(rt; is_rounded(row));
    }
}
