// Cascades whose sections are stable, and the first section that isn't shown to be.
//
// A section of order 1 with the polynomial c_0 z + c_1 has the form 1, which loses c_0^2 - c_1^2 in
// a step, or else -1, which loses c_1^2 - c_0^2. The form of 4 z^2 - 2 z + 1 solves Lyapunov's
// equation for (4 - 1) ((4 + 1)^2 - 2^2) = 63, and loses 16 times that.
use crate::sections::{GAIN, HALF, INTEGRATOR, PAIR, Section, cascade_of};
use dsv_cascade::{CascadeForms, SectionFault, SectionOffer, cascade_stability};
use dsv_forms::{Form, GREATEST_ORDER};
use dsv_names::Realisation;
use std::alloc::Global;

/// The entries of the first two places.
type Entries = [[i128; 2]; 2];

/// What closed forms say of the cascade of these sections.
fn forms_of(alloc: Global, sections: &[Section]) -> Option<CascadeForms> {
    let cascade = cascade_of(alloc, sections)?.ok()?;
    Some(cascade_stability(&cascade))
}

/// Whether the form has so many places, these entries in the first two, and 0 elsewhere.
fn is_form(form: &Form, places: u32, entries: &Entries) -> bool {
    let mut rows = [[0; GREATEST_ORDER]; GREATEST_ORDER];
    for i in 0..2 {
        for j in 0..2 {
            rows[i][j] = entries[i][j];
        }
    }
    form.d == places && form.rows == rows
}

/// What shows a section to be stable.
struct Stable {
    poly: &'static [i64],
    places: u32,
    form: Entries,
    fall: Entries,
}

const OF_GAIN: Stable = Stable {
    poly: &[1],
    places: 0,
    form: [[0, 0], [0, 0]],
    fall: [[0, 0], [0, 0]],
};

const OF_HALF: Stable = Stable {
    poly: &[2, -1],
    places: 1,
    form: [[1, 0], [0, 0]],
    fall: [[3, 0], [0, 0]],
};

const OF_PAIR: Stable = Stable {
    poly: &[4, -2, 1],
    places: 2,
    form: [[160, -16], [-16, 73]],
    fall: [[1_008, 0], [0, 1_008]],
};

/// Whether this is what shows the section to be stable.
fn is_offer(found: &SectionOffer, wanted: &Stable) -> bool {
    found.poly.coefficients() == wanted.poly
        && is_form(&found.offer.form, wanted.places, &wanted.form)
        && is_form(&found.fall, wanted.places, &wanted.fall)
}

/// Sections, and what shows each to be stable.
struct StableRow {
    sections: &'static [Section],
    wanted: &'static [Stable],
}

/// Whether all sections are stable, by these forms.
fn are_stable(alloc: Global, row: &StableRow) -> bool {
    let Some(CascadeForms::Falls(offers)) = forms_of(alloc, row.sections) else {
        return false;
    };
    offers.len() == row.wanted.len()
        && offers
            .as_slice()
            .iter()
            .zip(row.wanted)
            .all(|(found, wanted)| is_offer(found, wanted))
}

const STABLE: [StableRow; 3] = [
    StableRow {
        sections: &[HALF, PAIR],
        wanted: &[OF_HALF, OF_PAIR],
    },
    StableRow {
        sections: &[PAIR],
        wanted: &[OF_PAIR],
    },
    StableRow {
        sections: &[GAIN, HALF, PAIR, HALF, GAIN, PAIR, PAIR, HALF],
        wanted: &[
            OF_GAIN, OF_HALF, OF_PAIR, OF_HALF, OF_GAIN, OF_PAIR, OF_PAIR, OF_HALF,
        ],
    },
];

#[test]
fn stable_sections_are_shown_in_their_order(rt: HostRuntime) {
    for row in &STABLE {
        assert!(rt; are_stable(rt.alloc(), row));
    }
}

/// With d = (z - 1) / 0.25, z - 0.5 is 0.25 (d + 2), and the words of 1 and 2 are 4 and 8.
const DELTA_HALF: Section = Section {
    text: "digital_system d = { .b = {0.5}, .b_size = 1, .a = {1.0, -0.5}, .a_size = 2 };
implementation i = { .int_bits = 3, .frac_bits = 2, .max = 1.0, .min = -1.0, .delta = 0.25 };",
    int_bits: 3,
    realisation: Realisation::Ddfii,
    ..HALF
};

const DELTA: StableRow = StableRow {
    sections: &[DELTA_HALF],
    wanted: &[OF_HALF],
};

#[test]
fn the_polynomial_of_a_delta_form_is_in_z(rt: HostRuntime) {
    assert!(rt; are_stable(rt.alloc(), &DELTA));
}

/// The first of these sections that isn't shown to be stable, and why.
fn fault_of(alloc: Global, sections: &[Section]) -> Option<(u32, SectionFault)> {
    match forms_of(alloc, sections)? {
        CascadeForms::Falls(_) => None,
        CascadeForms::NotAll { section, fault } => Some((section, fault)),
    }
}

/// Sections, of which this one is an integrator.
struct Kept {
    sections: &'static [Section],
    section: u32,
}

/// Whether that section is the first that isn't stable: the form -1 stays at -1.
fn is_kept_away(alloc: Global, row: &Kept) -> bool {
    match fault_of(alloc, row.sections) {
        Some(
            (
                section,
                SectionFault::KeptAway {
                    poly,
                    offer,
                    fall,
                    value,
                },
            ),
        ) => {
            section == row.section
                && poly.coefficients() == [1, -1].as_slice()
                && is_form(&offer.form, 1, &[[-1, 0], [0, 0]])
                && offer.start == [1, 0, 0, 0, 0, 0, 0, 0]
                && is_form(&fall, 1, &[[0, 0], [0, 0]])
                && value == -1
        }
        _ => false,
    }
}

const KEPT_AWAY: [Kept; 6] = [
    Kept {
        sections: &[INTEGRATOR],
        section: 0,
    },
    Kept {
        sections: &[INTEGRATOR, HALF, PAIR],
        section: 0,
    },
    Kept {
        sections: &[HALF, INTEGRATOR, PAIR],
        section: 1,
    },
    Kept {
        sections: &[HALF, PAIR, INTEGRATOR],
        section: 2,
    },
    Kept {
        sections: &[GAIN, INTEGRATOR, HALF, INTEGRATOR],
        section: 1,
    },
    Kept {
        sections: &[HALF, PAIR, HALF, PAIR, GAIN, HALF, PAIR, INTEGRATOR],
        section: 7,
    },
];

#[test]
fn an_integrator_in_any_place_is_kept_away(rt: HostRuntime) {
    for row in &KEPT_AWAY {
        assert!(rt; is_kept_away(rt.alloc(), row));
    }
}

/// Sections, and the number that is too great.
struct TooGreat {
    sections: &'static [Section],
    section: u32,
    index: u32,
}

/// Whether that number is the first over 2^23 of a polynomial that has no closed form.
fn has_no_form(alloc: Global, row: &TooGreat) -> bool {
    match fault_of(alloc, row.sections) {
        Some((section, SectionFault::NoClosedForm { index })) => {
            section == row.section && index == row.index
        }
        _ => false,
    }
}

/// One half in words of 26 bits.
const LONG_HALF: Section = Section {
    frac_bits: 24,
    ..HALF
};

/// An integrator in words of 26 bits.
const LONG_INTEGRATOR: Section = Section {
    frac_bits: 24,
    ..INTEGRATOR
};

/// 2^24, 0 and 1.
const LEADS: Section = Section {
    text: "digital_system d = { .b = {0.5}, .b_size = 1,
    .a = {1.0, 0.0, 5.9604644775390625e-8}, .a_size = 3 };
implementation i = { .int_bits = 2, .frac_bits = 24, .max = 1.0, .min = -1.0 };",
    ..LONG_HALF
};

/// One half in words of 25 bits.
const SHORTER_HALF: Section = Section {
    frac_bits: 23,
    ..HALF
};

/// 2^24 and 1.
const LONG_FIRST: Section = Section {
    text: "digital_system d = { .b = {0.5}, .b_size = 1,
    .a = {1.0, 5.9604644775390625e-8}, .a_size = 2 };
implementation i = { .int_bits = 2, .frac_bits = 24, .max = 1.0, .min = -1.0 };",
    ..LONG_HALF
};

/// 2^23, 0 and 1.
const AT_LIMIT: Section = Section {
    text: "digital_system d = { .b = {0.5}, .b_size = 1,
    .a = {1.0, 0.0, 1.1920928955078125e-7}, .a_size = 3 };
implementation i = { .int_bits = 2, .frac_bits = 23, .max = 1.0, .min = -1.0 };",
    ..SHORTER_HALF
};

const GREAT: [StableRow; 2] = [
    StableRow {
        sections: &[LONG_FIRST],
        wanted: &[Stable {
            poly: &[16_777_216, 1],
            places: 1,
            form: [[1, 0], [0, 0]],
            fall: [[281_474_976_710_655, 0], [0, 0]],
        }],
    },
    StableRow {
        sections: &[AT_LIMIT],
        wanted: &[Stable {
            poly: &[8_388_608, 0, 1],
            places: 2,
            form: [
                [1_180_591_761_454_899_658_752, 0],
                [0, 590_295_880_727_458_217_985],
            ],
            fall: [
                [41_538_379_820_038_187_873_884_342_780_428_288, 0],
                [0, 41_538_379_820_038_187_873_884_342_780_428_288],
            ],
        }],
    },
];

#[test]
fn order_1_has_a_form_for_all_numbers_and_order_2_up_to_2_to_the_23(rt: HostRuntime) {
    for row in &GREAT {
        assert!(rt; are_stable(rt.alloc(), row));
    }
}

/// 2^23, 12,582,913 and 2^21.
const SECOND_OVER: Section = Section {
    text: "digital_system d = { .b = {0.5}, .b_size = 1,
    .a = {1.0, 1.5000001193, 0.25}, .a_size = 3 };
implementation i = { .int_bits = 2, .frac_bits = 23, .max = 1.0, .min = -1.0 };",
    ..SHORTER_HALF
};

/// 2^23, -12,582,913 and 12,582,913.
const BOTH_OVER: Section = Section {
    text: "digital_system d = { .b = {0.5}, .b_size = 1,
    .a = {1.0, -1.5000001192, 1.5000001193}, .a_size = 3 };
implementation i = { .int_bits = 2, .frac_bits = 23, .max = 1.0, .min = -1.0 };",
    ..SHORTER_HALF
};

/// 2^23, 2^21 and 12,582,913.
const THIRD_OVER: Section = Section {
    text: "digital_system d = { .b = {0.5}, .b_size = 1,
    .a = {1.0, 0.25, 1.5000001193}, .a_size = 3 };
implementation i = { .int_bits = 2, .frac_bits = 23, .max = 1.0, .min = -1.0 };",
    ..SHORTER_HALF
};

const TOO_GREAT: [TooGreat; 6] = [
    TooGreat {
        sections: &[LEADS],
        section: 0,
        index: 0,
    },
    TooGreat {
        sections: &[LONG_HALF, LEADS, LONG_INTEGRATOR],
        section: 1,
        index: 0,
    },
    TooGreat {
        sections: &[SECOND_OVER],
        section: 0,
        index: 1,
    },
    TooGreat {
        sections: &[SHORTER_HALF, BOTH_OVER],
        section: 1,
        index: 1,
    },
    TooGreat {
        sections: &[THIRD_OVER],
        section: 0,
        index: 2,
    },
    TooGreat {
        sections: &[SHORTER_HALF, SHORTER_HALF, THIRD_OVER],
        section: 2,
        index: 2,
    },
];

#[test]
fn the_first_number_over_2_to_the_23_is_named(rt: HostRuntime) {
    for row in &TOO_GREAT {
        assert!(rt; has_no_form(rt.alloc(), row));
    }
}

/// Whether that number is the first that is too wide.
fn is_wide(alloc: Global, row: &TooGreat) -> bool {
    match fault_of(alloc, row.sections) {
        Some((section, SectionFault::Wide { index })) => {
            section == row.section && index == row.index
        }
        _ => false,
    }
}

/// One half in words of 46 bits.
const LONGER_HALF: Section = Section {
    frac_bits: 44,
    ..HALF
};

/// 2^44 and 26,388,279,066,627.
const WIDE_SECOND: Section = Section {
    text: "digital_system d = { .b = {0.5}, .b_size = 1,
    .a = {1.0, 1.5000000000001706}, .a_size = 2 };
implementation i = { .int_bits = 2, .frac_bits = 44, .max = 1.0, .min = -1.0 };",
    ..LONGER_HALF
};

/// 2^46 and 1.
const WIDE_FIRST: Section = Section {
    text: "digital_system d = { .b = {0.5}, .b_size = 1,
    .a = {1.0, 1.4210854715202004e-14}, .a_size = 2 };
implementation i = { .int_bits = 2, .frac_bits = 46, .max = 1.0, .min = -1.0 };",
    frac_bits: 46,
    ..HALF
};

const WIDE: [TooGreat; 2] = [
    TooGreat {
        sections: &[WIDE_FIRST],
        section: 0,
        index: 0,
    },
    TooGreat {
        sections: &[LONGER_HALF, WIDE_SECOND],
        section: 1,
        index: 1,
    },
];

#[test]
fn the_first_number_over_2_to_the_44_is_named(rt: HostRuntime) {
    for row in &WIDE {
        assert!(rt; is_wide(rt.alloc(), row));
    }
}
