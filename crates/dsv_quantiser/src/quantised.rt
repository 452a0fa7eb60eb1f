// Quantised controllers.
#![tactic(auto, using(dsv_algebra::proofs::Casts::casts))]

use crate::range::range_of;
use crate::refusal::QuantRefusal;
use crate::words::{Coeffs, a_words, b_words};
use dsv_fraction::Frac;
use dsv_names::Realisation;
use dsv_reader::Controller;
use dsv_word::Format;
use std::marker::Model;

/// A quantised controller of a format, as one realisation computes it. Both lists of coefficients
/// have one length, from 1 to `MOST_COEFFICIENTS`.
#[derive(Drop)]
pub struct Quantised {
    /// The numerator, words of the format.
    b: Coeffs,
    /// The denominator: the first is two to the format's `frac_bits`, and the others are words of
    /// the format.
    a: Coeffs,
    /// 0 in the direct forms, a positive word in the delta forms.
    delta: i64,
    /// The least input, a word.
    xlo: i64,
    /// The greatest input, a word that isn't below `xlo`.
    xhi: i64,
    /// The format of the words.
    format: Format,
    /// The realisation whose coefficients these are.
    realisation: Realisation,
    /// Whether its accumulator is wide.
    wide: bool,
}

impl Model for Quantised {
    ghost use Rattle.dsv_quantiser.specs.QuantisedView.{QuantisedView, IsQuantisedView};

    ghost Value = { QuantisedView };

    ghost view = { λ quantised. record {
      b = quantised.b.items;
      a = quantised.a.items;
      delta = quantised.delta;
      xlo = quantised.xlo;
      xhi = quantised.xhi;
      format = quantised.format;
      realisation = quantised.realisation;
      wide = quantised.wide;
    } };

    ghost invariant = { λ quantised. IsQuantisedView (record {
      b = quantised.b.items;
      a = quantised.a.items;
      delta = quantised.delta;
      xlo = quantised.xlo;
      xhi = quantised.xhi;
      format = quantised.format;
      realisation = quantised.realisation;
      wide = quantised.wide;
    }) };
}

/// The exact coefficients of a realisation, the numerator's and the denominator's.
#[derive(Clone, Copy)]
pub(crate) struct ExactLists<'a> {
    pub b: &'a [Frac],
    pub a: &'a [Frac],
}

impl Quantised {
    ghost use Rattle.std.specs.Prelude.{◌≡◌, ◌≤◌, ◌+◌, length, IfOk};
    ghost use Rattle.dsv_fraction.specs.Ratio.{most_coefficients};
    ghost use Rattle.dsv_quantiser.specs.QuantisedView.{
      QuantisedView,
      IsQuantisedView,
      IsDeltaWord,
    };
    ghost use Rattle.dsv_quantiser.specs.Quantising.{in_words};
    ghost use Rattle.dsv_quantiser.specs.Meaning.{IsInWords};

    /// The quantised controller whose coefficients are those of the lists.
    pub(crate) fn in_words(
        controller: &Controller,
        format: Format,
        realisation: Realisation,
        lists: ExactLists,
        delta: i64,
    ) -> Result<Quantised, QuantRefusal>
        requires one_length { length lists.b.now ≡ length lists.a.now }
        requires some { 1 ≤ length lists.a.now }
        requires few { length lists.a.now ≤ most_coefficients }
        requires delta { IsDeltaWord format realisation delta }
        ensures value { result ≡ in_words controller.now format realisation lists.entry.b.now
            lists.entry.a.now delta }
        ensures meaning { IfOk result (IsInWords controller.now format realisation
            lists.entry.b.now lists.entry.a.now delta) }
    {
        let b = b_words(format, lists.b)?;
        let a = a_words(format, lists.a)?;
        let range = range_of(format, controller.min(), controller.max())?;
        Ok(Quantised {
            b,
            a,
            delta,
            xlo: range.lo,
            xhi: range.hi,
            format,
            realisation,
            wide: controller.is_wide(),
        })
    }

    /// The numerator's words, b_0 first; in the delta forms those of the converted numerator.
    pub fn b(&self) -> &[i64]
        ensures same { result.now ≡ self.now.b }
        ensures quantised { IsQuantisedView self.now }
    {
        self.b.as_slice()
    }

    /// The denominator's words, a_0 first; in the delta forms those of the converted denominator.
    pub fn a(&self) -> &[i64]
        ensures same { result.now ≡ self.now.a }
        ensures quantised { IsQuantisedView self.now }
    {
        self.a.as_slice()
    }

    /// The order: one less than the number of coefficients of either list.
    pub fn order(&self) -> usize
        ensures value { result + 1 ≡ length self.now.a }
        ensures quantised { IsQuantisedView self.now }
    {
        self.a.len() - 1
    }

    /// Delta's word, 0 in the direct forms.
    pub fn delta(&self) -> i64
        ensures same { result ≡ self.now.delta }
        ensures quantised { IsQuantisedView self.now }
    {
        self.delta
    }

    /// The least input.
    pub fn xlo(&self) -> i64
        ensures same { result ≡ self.now.xlo }
        ensures quantised { IsQuantisedView self.now }
    {
        self.xlo
    }

    /// The greatest input.
    pub fn xhi(&self) -> i64
        ensures same { result ≡ self.now.xhi }
        ensures quantised { IsQuantisedView self.now }
    {
        self.xhi
    }

    /// The format of its words.
    pub fn format(&self) -> Format
        ensures same { result ≡ self.now.format }
        ensures quantised { IsQuantisedView self.now }
    {
        self.format
    }

    /// The realisation.
    pub fn realisation(&self) -> Realisation
        ensures same { result ≡ self.now.realisation }
        ensures quantised { IsQuantisedView self.now }
    {
        self.realisation
    }

    /// Whether the accumulator is wide: a line's products stay exact, and their sum is rounded and
    /// fitted once.
    pub fn is_wide(&self) -> bool
        ensures same { result ≡ self.now.wide }
        ensures quantised { IsQuantisedView self.now }
    {
        self.wide
    }
}
