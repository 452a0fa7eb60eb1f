// Plants as a file gives them.
use crate::controller::sample_time_of;
use crate::quotients::padded_list;
use crate::settings::SampleTime;
use dsv_fraction::{Frac, FracList};
use std::marker::Model;

/// A plant as its file gives it: the transfer function (b_0 + b_1 z^-1 + ..) / (a_0 + a_1 z^-1 +
/// ..) with its coefficients as they stand, both lists padded by zeros to one length; and its
/// sample time.
///
/// Both lists have one length from 1 to 9, and a_0 isn't 0. The sample time is positive, and its
/// parts are below 2^62.
#[derive(Drop)]
pub struct Plant {
    b: FracList,
    a: FracList,
    sample_time: Frac,
}

impl Model for Plant {
    ghost use Rattle.dsv_reader.specs.Plants.{PlantView, IsPlant};
    ghost use Rattle.dsv_reader.specs.Inside.{plant_view_of};

    ghost Value = { PlantView };

    ghost view = { plant_view_of };

    ghost invariant = { λ p. IsPlant (plant_view_of p) };
}

impl Plant {
    ghost use Rattle.std.specs.Prelude.{◌≡◌, ◌≢◌, ◌≤◌, length, slice_index_or, pos};
    ghost use Rattle.dsv_fraction.specs.Ratio.{zero};
    ghost use Rattle.dsv_reader.specs.Limits.{most_coefficients};
    ghost use Rattle.dsv_reader.specs.Plants.{IsPlant};
    ghost use Rattle.dsv_reader.specs.Reading.{padded_plant};

    /// The plant with these coefficients, of which a_0 isn't 0, and this sample time, 1 where the
    /// file doesn't say it.
    pub(crate) fn new(b: FracList, a: FracList, sample_time: &Option<SampleTime>) -> Plant
        requires b_few { length b.items ≤ most_coefficients }
        requires a_few { length a.items ≤ most_coefficients }
        requires some { 1 ≤ length a.items }
        requires leading { (slice_index_or a.items 0 zero).num ≢ pos 0 }
        ensures { result ≡ padded_plant b.items a.items sample_time.now }
    {
        let count = b.len().max(a.len());
        Plant {
            b: padded_list(b, count),
            a: padded_list(a, count),
            sample_time: sample_time_of(sample_time),
        }
    }

    /// The numerator's coefficients, b_0 first.
    pub fn b(&self) -> &[Frac]
        ensures same { result.now ≡ self.now.b }
        ensures plant { IsPlant self.now }
    {
        self.b.as_slice()
    }

    /// The denominator's coefficients, a_0 first, which isn't 0.
    pub fn a(&self) -> &[Frac]
        ensures same { result.now ≡ self.now.a }
        ensures plant { IsPlant self.now }
    {
        self.a.as_slice()
    }

    /// The time between two samples, in seconds.
    pub fn sample_time(&self) -> &Frac
        ensures same { result.now ≡ self.now.sample_time }
        ensures plant { IsPlant self.now }
    {
        &self.sample_time
    }
}
