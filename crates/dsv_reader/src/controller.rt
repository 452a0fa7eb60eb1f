// Controllers as a file gives them.
ghost use Rattle.std.specs.Prelude.{◌≡◌, unwrap_or};
ghost use Rattle.dsv_fraction.specs.Ratio.{one};
ghost use Rattle.dsv_reader.specs.Controllers.{IsTime, IsClock};
ghost use Rattle.dsv_reader.specs.Defaults.{default_clock};

use crate::blocks::Blocks;
use crate::costs::{Costs, costs_of, default_costs};
use crate::quotients::padded_list;
use crate::settings::{Clock, SampleTime};
use dsv_fraction::{Frac, FracList};
use dsv_word::Format;
use std::marker::Model;

/// The clock in cycles a second where the file doesn't say it: 16 MHz.
const DEFAULT_CLOCK: u64 = 16_000_000;

/// A controller as its file gives it: the transfer function (b_0 + b_1 z^-1 + ..) / (a_0 + a_1 z^-1
/// + ..), divided by its leading denominator coefficient, with both lists padded by zeros to one
/// length; the words that it is to run in and the range of its inputs; and the sample time, the
/// clock and the costs of the hardware.
///
/// Both lists have one length from 1 to 9, and a_0 is 1. The sample time is positive, and its parts
/// are below 2^62. The words have a lawful width. The clock is 1 to 10^12.
#[derive(Drop)]
pub struct Controller {
    b: FracList,
    a: FracList,
    sample_time: Frac,
    int_bits: u32,
    frac_bits: u32,
    max: Frac,
    min: Frac,
    delta: Option<Frac>,
    clock: u64,
    costs: Costs,
    wide: bool,
}

impl Model for Controller {
    ghost use Rattle.dsv_reader.specs.Controllers.{ControllerView, IsController};
    ghost use Rattle.dsv_reader.specs.Inside.{view_of};

    ghost Value = { ControllerView };

    ghost view = { view_of };

    ghost invariant = { λ c. IsController (view_of c) };
}

/// The sample time, 1 where the file doesn't say else.
pub(crate) fn sample_time_of(sample_time: &Option<SampleTime>) -> Frac
    ensures value { result ≡ unwrap_or sample_time.now one }
    ensures time { IsTime result }
{
    match sample_time {
        Some(time) => time.get(),
        None => Frac::from(1),
    }
}

/// The clock, 16 MHz where the file doesn't say else.
fn clock_of(clock: &Option<Clock>) -> u64
    ensures value { result ≡ unwrap_or clock.now default_clock }
    ensures clock { IsClock result }
{
    match clock {
        Some(clock) => clock.get(),
        None => DEFAULT_CLOCK,
    }
}

impl Controller {
    ghost use Rattle.std.specs.Prelude.{◌≡◌, ◌≤◌, length, slice_index_or, true};
    ghost use Rattle.dsv_fraction.specs.Ratio.{zero, one};
    ghost use Rattle.dsv_reader.specs.Controllers.{IsController};
    ghost use Rattle.dsv_reader.specs.Defaults.{default_controller};
    ghost use Rattle.dsv_reader.specs.Limits.{most_coefficients};
    ghost use Rattle.dsv_reader.specs.Reading.{controller_with, is_lawful};

    /// The controller of these blocks, for both lists divided by the leading coefficient.
    pub(crate) fn assemble(blocks: &Blocks, b: FracList, a: FracList) -> Controller
        requires b_few { length b.items ≤ most_coefficients }
        requires a_few { length a.items ≤ most_coefficients }
        requires some { 1 ≤ length a.items }
        requires leading { slice_index_or a.items 0 zero ≡ one }
        requires lawful { is_lawful blocks.now.implementation.int_bits.value
            blocks.now.implementation.frac_bits.value ≡ true }
        ensures { result ≡ controller_with blocks.now b.items a.items }
    {
        let count = b.len().max(a.len());
        let implementation = &blocks.implementation;
        Controller {
            b: padded_list(b, count),
            a: padded_list(a, count),
            sample_time: sample_time_of(&blocks.system.sample_time),
            int_bits: implementation.int_bits.value as u32,
            frac_bits: implementation.frac_bits.value as u32,
            max: implementation.max,
            min: implementation.min,
            delta: implementation.delta,
            clock: clock_of(&blocks.hardware.clock),
            costs: costs_of(&blocks.hardware),
            wide: implementation.wide.unwrap_or(false),
        }
    }

    /// A controller that no file gives: one with these coefficients, the widths of this format, and
    /// inputs from `min` to `max`. The rest is as for a file that doesn't say it: no delta, a
    /// sample time of 1 second, a clock of 16 MHz, the default costs and no wide accumulator.
    pub fn of_coefficients(
        b: FracList,
        a: FracList,
        format: Format,
        min: Frac,
        max: Frac,
    ) -> Controller
        requires one_length { length b.items ≡ length a.items }
        requires some { 1 ≤ length a.items }
        requires leading { slice_index_or a.items 0 zero ≡ one }
        ensures { result ≡ default_controller b.items a.items format min max }
    {
        Controller {
            b,
            a,
            sample_time: Frac::from(1),
            int_bits: format.int_bits,
            frac_bits: format.frac_bits,
            max,
            min,
            delta: None,
            clock: DEFAULT_CLOCK,
            costs: default_costs(),
            wide: false,
        }
    }

    /// The numerator's coefficients, b_0 first.
    pub fn b(&self) -> &[Frac]
        ensures same { result.now ≡ self.now.b }
        ensures design { IsController self.now }
    {
        self.b.as_slice()
    }

    /// The denominator's coefficients, a_0 first, which is 1.
    pub fn a(&self) -> &[Frac]
        ensures same { result.now ≡ self.now.a }
        ensures design { IsController self.now }
    {
        self.a.as_slice()
    }

    /// The time between two samples, in seconds.
    pub fn sample_time(&self) -> &Frac
        ensures same { result.now ≡ self.now.sample_time }
        ensures design { IsController self.now }
    {
        &self.sample_time
    }

    /// The bits before the point, the sign among them.
    pub fn int_bits(&self) -> u32
        ensures same { result ≡ self.now.int_bits }
        ensures design { IsController self.now }
    {
        self.int_bits
    }

    /// The bits after the point.
    pub fn frac_bits(&self) -> u32
        ensures same { result ≡ self.now.frac_bits }
        ensures design { IsController self.now }
    {
        self.frac_bits
    }

    /// The greatest input.
    pub fn max(&self) -> &Frac
        ensures { result.now ≡ self.now.max }
    {
        &self.max
    }

    /// The least input.
    pub fn min(&self) -> &Frac
        ensures { result.now ≡ self.now.min }
    {
        &self.min
    }

    /// The delta of the delta forms, where the file has one.
    pub fn delta(&self) -> Option<Frac>
        ensures { result ≡ self.now.delta }
    {
        self.delta
    }

    /// The clock of the hardware, in cycles a second.
    pub fn clock(&self) -> u64
        ensures same { result ≡ self.now.clock }
        ensures design { IsController self.now }
    {
        self.clock
    }

    /// What the parts of a sample cost.
    pub fn costs(&self) -> &Costs
        ensures same { result.now ≡ self.now.costs }
        ensures design { IsController self.now }
    {
        &self.costs
    }

    /// Whether the accumulator is wide: a line's products stay exact, and their sum is rounded and
    /// fitted once.
    pub fn is_wide(&self) -> bool
        ensures { result ≡ self.now.wide }
    {
        self.wide
    }
}
