// Small quantised controllers.
use dsv_names::{OverflowMode, Realisation, Rounding};
use dsv_quantiser::Quantised;
use dsv_test_setup::quantised_of;
use dsv_word::Format;
use std::alloc::Global;

/// Every realisation: the direct forms, and then the same in the delta operator.
pub(crate) const REALISATIONS: [Realisation; 6] = [
    Realisation::Dfi,
    Realisation::Dfii,
    Realisation::Tdfii,
    Realisation::Ddfi,
    Realisation::Ddfii,
    Realisation::Tddfii,
];

/// A file's text, the bits of its words, and how they are made whole and fitted.
#[derive(Clone, Copy)]
pub(crate) struct Design {
    pub text: &'static str,
    pub int_bits: u32,
    pub frac_bits: u32,
    pub rounding: Rounding,
    pub overflow: OverflowMode,
}

impl Design {
    /// One of words that wrap.
    pub(crate) fn of_wrapped_words(
        text: &'static str,
        int_bits: u32,
        frac_bits: u32,
        rounding: Rounding,
    ) -> Design {
        Design {
            text,
            int_bits,
            frac_bits,
            rounding,
            overflow: OverflowMode::Wrap,
        }
    }

    /// The quantised controller.
    pub(crate) fn quantised_in(
        &self,
        alloc: Global,
        realisation: Realisation,
    ) -> Option<Quantised> {
        let format = Format::new(self.int_bits, self.frac_bits, self.rounding, self.overflow).ok()?;
        quantised_of(alloc, self.text, format, realisation)
    }
}
