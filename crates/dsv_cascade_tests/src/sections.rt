// Sections, and the cascades that they make.
use dsv_cascade::{Cascade, CascadeRefusal, MOST_SECTIONS};
use dsv_names::{OverflowMode, Realisation, Rounding};
use dsv_quantiser::Quantised;
use dsv_test_setup::quantised_of;
use dsv_word::Format;
use std::alloc::Global;

/// A section: its file, its format and its realisation.
#[derive(Clone, Copy)]
pub(crate) struct Section {
    pub text: &'static str,
    pub int_bits: u32,
    pub frac_bits: u32,
    pub rounding: Rounding,
    pub overflow: OverflowMode,
    pub realisation: Realisation,
}

/// y = 0.5 x.
pub(crate) const GAIN: Section = Section {
    text: "digital_system d = { .b = {0.5}, .b_size = 1, .a = {1.0}, .a_size = 1 };
implementation i = { .int_bits = 2, .frac_bits = 2, .max = 1.0, .min = -1.0 };",
    int_bits: 2,
    frac_bits: 2,
    rounding: Rounding::Floor,
    overflow: OverflowMode::Saturate,
    realisation: Realisation::Dfi,
};

/// y = 0.5 x + 0.5 y_1.
pub(crate) const HALF: Section = Section {
    text: "digital_system d = { .b = {0.5}, .b_size = 1, .a = {1.0, -0.5}, .a_size = 2 };
implementation i = { .int_bits = 2, .frac_bits = 2, .max = 1.0, .min = -1.0 };",
    ..GAIN
};

/// The same with a wide accumulator.
pub(crate) const WIDE_HALF: Section = Section {
    text: "digital_system d = { .b = {0.5}, .b_size = 1, .a = {1.0, -0.5}, .a_size = 2 };
implementation i = { .int_bits = 2, .frac_bits = 2, .max = 1.0, .min = -1.0, .wide = 1 };",
    ..GAIN
};

/// y = x + y_1.
pub(crate) const INTEGRATOR: Section = Section {
    text: "digital_system d = { .b = {1.0}, .b_size = 1, .a = {1.0, -1.0}, .a_size = 2 };
implementation i = { .int_bits = 2, .frac_bits = 2, .max = 1.0, .min = -1.0 };",
    ..GAIN
};

/// y = 0.5 x + 0.5 y_1 - 0.25 y_2.
pub(crate) const PAIR: Section = Section {
    text: "digital_system d = { .b = {0.5}, .b_size = 1, .a = {1.0, -0.5, 0.25}, .a_size = 3 };
implementation i = { .int_bits = 2, .frac_bits = 2, .max = 1.0, .min = -1.0 };",
    ..GAIN
};

/// y = 0.5 x - 0.5 y_3.
pub(crate) const THIRD: Section = Section {
    text: "digital_system d = { .b = {0.5}, .b_size = 1, .a = {1.0, 0.0, 0.0, 0.5}, .a_size = 4 };
implementation i = { .int_bits = 2, .frac_bits = 2, .max = 1.0, .min = -1.0 };",
    ..GAIN
};

/// Every realisation: the direct forms, and then the same in the delta operator.
pub(crate) const REALISATIONS: [Realisation; 6] = [
    Realisation::Dfi,
    Realisation::Dfii,
    Realisation::Tdfii,
    Realisation::Ddfi,
    Realisation::Ddfii,
    Realisation::Tddfii,
];

/// The section in words.
pub(crate) fn quantised_in(alloc: Global, section: &Section) -> Option<Quantised> {
    let format = Format::new(
        section.int_bits,
        section.frac_bits,
        section.rounding,
        section.overflow,
    )
    .ok()?;
    quantised_of(alloc, section.text, format, section.realisation)
}

/// The cascade of one to eight sections, or why they make none.
pub(crate) fn cascade_of(
    alloc: Global,
    sections: &[Section],
) -> Option<Result<Cascade, CascadeRefusal>> {
    let (first, others) = sections.split_first()?;
    let mut later = Vec::new(alloc);
    for section in others {
        later.push(quantised_in(alloc, section)?).ok()?;
    }
    if later.len() >= MOST_SECTIONS {
        return None;
    }
    Some(Cascade::new(quantised_in(alloc, first)?, later))
}
