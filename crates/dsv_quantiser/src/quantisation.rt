// Controllers made words.
#![tactic(auto, using(dsv_algebra::proofs::Casts::casts))]

ghost use Rattle.std.specs.Prelude.{◌≡◌, ◌≤ℤ◌, ◌<ℤ◌, pos, IfOk, true};
ghost use Rattle.dsv_word.specs.Words.{width, hi};
ghost use Rattle.dsv_names.specs.Realisations.{is_delta};
ghost use Rattle.dsv_quantiser.specs.Quantising.{delta_word, with_delta, quantised_of};
ghost use Rattle.dsv_quantiser.specs.Meaning.{IsWordOf, IsOfDelta, IsQuantised};
ghost use Rattle.dsv_quantiser.specs.Modes.{BecomesWords};

use crate::quantised::{ExactLists, Quantised};
use crate::refusal::QuantRefusal;
use crate::words::{fitting_word, or_wide};
use dsv_delta::to_delta;
use dsv_fraction::Frac;
use dsv_names::{Design, ListName, Realisation};
use dsv_reader::Controller;
use dsv_word::Format;

/// Delta's word, which is positive.
fn delta_word(format: Format, delta: &Frac) -> Result<i64, QuantRefusal>
    ensures value { result ≡ delta_word format delta.now }
    ensures word { IfOk result (IsWordOf format delta.now) }
    ensures least { IfOk result (λ word. pos 1 ≤ℤ word) }
    ensures greatest { IfOk result (λ word. word ≤ℤ hi (width format)) }
    ensures positive { IfOk result (λ word. pos 0 <ℤ delta.now.num) }
{
    let made = format.round_frac(delta);
    let wanted = or_wide(ListName::Delta, 0, made)?;
    if wanted <= 0 {
        return Err(QuantRefusal::DeltaNotPositive { wanted });
    }
    fitting_word(format, ListName::Delta, 0, wanted)
}

/// The quantised controller as that delta form computes it: its coefficients in the delta operator
/// with the exact delta, and then all as words.
fn with_delta(
    controller: &Controller,
    format: Format,
    realisation: Realisation,
) -> Result<Quantised, QuantRefusal>
    requires { is_delta realisation ≡ true }
    ensures value { result ≡ with_delta controller.now format realisation controller.now.delta }
    ensures meaning { IfOk result (IsOfDelta controller.now format realisation) }
{
    let Some(delta) = controller.delta() else {
        return Err(QuantRefusal::DeltaNotPositive { wanted: 0 });
    };
    let word = delta_word(format, &delta)?;
    let pair = to_delta(controller.b(), controller.a(), &delta)?;
    let lists = ExactLists {
        b: pair.b.as_slice(),
        a: pair.a.as_slice(),
    };
    Quantised::in_words(controller, format, realisation, lists, word)
}

/// The quantised controller of the format, as that realisation computes it; or the first refusal.
/// For a delta form alone delta's word comes first, and then the coefficients in the delta
/// operator, the numerator's before the denominator's. The words of the numerator come next by
/// their index, then those of the denominator, and at last the least input, the greatest one and
/// their range.
pub fn quantise(
    controller: &Controller,
    format: Format,
    realisation: Realisation,
) -> Result<Quantised, QuantRefusal>
    ensures exact { result ≡ quantised_of controller.now format realisation }
    ensures meaning { IfOk result (IsQuantised controller.now format realisation) }
{
    if realisation.is_delta() {
        with_delta(controller, format, realisation)
    } else {
        let lists = ExactLists {
            b: controller.b(),
            a: controller.a(),
        };
        Quantised::in_words(controller, format, realisation, lists, 0)
    }
}

/// The format of a controller's own widths in the modes of a design.
fn format_of(controller: &Controller, design: Design) -> Format
    ensures int_bits { result.int_bits ≡ controller.now.int_bits }
    ensures frac_bits { result.frac_bits ≡ controller.now.frac_bits }
    ensures rounding { result.rounding ≡ design.rounding }
    ensures overflow { result.overflow ≡ design.overflow }
{
    match Format::new(
        controller.int_bits(),
        controller.frac_bits(),
        design.rounding,
        design.overflow,
    ) {
        Ok(format) => format,
        Err(_) => unreachable!(),
    }
}

/// The quantised controller of its own widths, rounded and fitted in the modes of a design, as its
/// realisation computes it; or the first refusal, in the order of [`quantise`].
pub fn quantise_in(controller: &Controller, design: Design) -> Result<Quantised, QuantRefusal>
    ensures { BecomesWords controller.now design result }
{
    quantise(
        controller,
        format_of(controller, design),
        design.realisation,
    )
}
