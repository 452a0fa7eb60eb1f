// Decimals; expected values are from Python's `fractions` and `decimal`.
use dsv_fraction::{DecimalRefusal, Frac};

struct Decimal {
    text: &'static str,
    num: i128,
    den: i128,
}

const DECIMALS: [Decimal; 17] = [
    Decimal {
        text: ".25f",
        num: 1,
        den: 4,
    },
    Decimal {
        text: "1.5e-1",
        num: 3,
        den: 20,
    },
    Decimal {
        text: "+1.0",
        num: 1,
        den: 1,
    },
    Decimal {
        text: "07L",
        num: 7,
        den: 1,
    },
    Decimal {
        text: "007",
        num: 7,
        den: 1,
    },
    Decimal {
        text: "1e0000000000000000000030",
        num: 1_000_000_000_000_000_000_000_000_000_000,
        den: 1,
    },
    Decimal {
        text: "-2.50E+1F",
        num: -25,
        den: 1,
    },
    Decimal {
        text: "1.",
        num: 1,
        den: 1,
    },
    Decimal {
        text: "1.e1l",
        num: 10,
        den: 1,
    },
    Decimal {
        text: "-.5",
        num: -1,
        den: 2,
    },
    Decimal {
        text: "-0.0",
        num: 0,
        den: 1,
    },
    Decimal {
        text: "123456789012345678",
        num: 123_456_789_012_345_678,
        den: 1,
    },
    Decimal {
        text: "1e-30",
        num: 1,
        den: 1_000_000_000_000_000_000_000_000_000_000,
    },
    Decimal {
        text: "100000000000000000e-30",
        num: 1,
        den: 10_000_000_000_000,
    },
    Decimal {
        text: "576460752303423488e-23",
        num: 68_719_476_736,
        den: 11_920_928_955_078_125,
    },
    Decimal {
        text: "170141183460469231e21",
        num: 170_141_183_460_469_231_000_000_000_000_000_000_000,
        den: 1,
    },
    Decimal {
        text: "0.00000000000000001e-21",
        num: 1,
        den: 100_000_000_000_000_000_000_000_000_000_000_000_000,
    },
];

fn has_value(row: &Decimal) -> bool {
    match Frac::of_decimal(row.text.as_bytes()) {
        Ok(value) => value.to_parts() == (row.num, row.den),
        Err(_) => false,
    }
}

#[test]
fn decimals_have_their_value(rt: HostRuntime) {
    for row in &DECIMALS {
        assert!(rt; has_value(row));
    }
}

struct Refused {
    text: &'static str,
    refusal: DecimalRefusal,
}

const REFUSED: [Refused; 24] = [
    Refused {
        text: "0000000000000000001",
        refusal: DecimalRefusal::Digits,
    },
    Refused {
        text: "12345678.12345678901",
        refusal: DecimalRefusal::Digits,
    },
    Refused {
        text: "0000000000000000001e31",
        refusal: DecimalRefusal::Digits,
    },
    Refused {
        text: "1e31",
        refusal: DecimalRefusal::Exponent,
    },
    Refused {
        text: "1e-31",
        refusal: DecimalRefusal::Exponent,
    },
    Refused {
        text: "1e99999999999999999999",
        refusal: DecimalRefusal::Exponent,
    },
    Refused {
        text: "1E-00000000000000000000000000000000031",
        refusal: DecimalRefusal::Exponent,
    },
    Refused {
        text: "170141183460469232e21",
        refusal: DecimalRefusal::TooWide,
    },
    Refused {
        text: "0.00000000000000001e-22",
        refusal: DecimalRefusal::TooWide,
    },
    Refused {
        text: "1e",
        refusal: DecimalRefusal::NotDecimal { at: 2 },
    },
    Refused {
        text: "1e+",
        refusal: DecimalRefusal::NotDecimal { at: 3 },
    },
    Refused {
        text: "x.5",
        refusal: DecimalRefusal::NotDecimal { at: 0 },
    },
    Refused {
        text: "",
        refusal: DecimalRefusal::NotDecimal { at: 0 },
    },
    Refused {
        text: ".",
        refusal: DecimalRefusal::NotDecimal { at: 1 },
    },
    Refused {
        text: "+",
        refusal: DecimalRefusal::NotDecimal { at: 1 },
    },
    Refused {
        text: "-.",
        refusal: DecimalRefusal::NotDecimal { at: 2 },
    },
    Refused {
        text: "1.5x",
        refusal: DecimalRefusal::NotDecimal { at: 3 },
    },
    Refused {
        text: "1e5.",
        refusal: DecimalRefusal::NotDecimal { at: 3 },
    },
    Refused {
        text: "1f0",
        refusal: DecimalRefusal::NotDecimal { at: 2 },
    },
    Refused {
        text: "..5",
        refusal: DecimalRefusal::NotDecimal { at: 1 },
    },
    Refused {
        text: "1.2.3",
        refusal: DecimalRefusal::NotDecimal { at: 3 },
    },
    Refused {
        text: "--1",
        refusal: DecimalRefusal::NotDecimal { at: 1 },
    },
    Refused {
        text: "1ef",
        refusal: DecimalRefusal::NotDecimal { at: 2 },
    },
    Refused {
        text: "00000000000000000000_",
        refusal: DecimalRefusal::NotDecimal { at: 20 },
    },
];

fn is_refused(row: &Refused) -> bool {
    Frac::of_decimal(row.text.as_bytes()) == Err(row.refusal)
}

#[test]
fn other_texts_have_their_refusal(rt: HostRuntime) {
    for row in &REFUSED {
        assert!(rt; is_refused(row));
    }
}
