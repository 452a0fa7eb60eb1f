// Quantised controllers, in words that are rounded down and saturate.
use dsv_names::{OverflowMode, Realisation, Rounding};
use dsv_quantiser::Quantised;
use dsv_test_setup::quantised_of;
use dsv_word::Format;
use std::alloc::Global;

/// The case that the documents work out: words 64, -80 and 49, inputs from -82 to 82.
pub(crate) const WORKED: Design = Design {
    text: "digital_system d = { .b = {1.0}, .b_size = 1,
 .a = {1.0, -1.25, 0.765625}, .a_size = 3 };
implementation r = { .int_bits = 6, .frac_bits = 6, .max = 1.28125, .min = -1.28125 };",
    int_bits: 6,
    frac_bits: 6,
};

/// A resonator of radius 0.9 and angle 1.0.
pub(crate) const SHORT: &str = "digital_system d = { .b = {0.1}, .b_size = 1,
 .a = {1.0, -0.972544152, 0.81}, .a_size = 3 };
implementation r = { .int_bits = 4, .frac_bits = 12, .max = 1.0, .min = -1.0 };";

/// A file's text, and the bits of its words.
#[derive(Clone, Copy)]
pub(crate) struct Design {
    pub text: &'static str,
    pub int_bits: u32,
    pub frac_bits: u32,
}

impl Design {
    /// The quantised controller.
    pub(crate) fn quantised_in(
        &self,
        alloc: Global,
        realisation: Realisation,
    ) -> Option<Quantised> {
        let format = Format::new(
            self.int_bits,
            self.frac_bits,
            Rounding::Floor,
            OverflowMode::Saturate,
        )
        .ok()?;
        quantised_of(alloc, self.text, format, realisation)
    }
}
