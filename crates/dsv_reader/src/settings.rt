// Values whose range their field gives.
use dsv_fraction::Frac;
use std::marker::Model;

/// The time between two samples, in seconds: positive, with both parts below 2^62.
#[derive(Drop)]
pub(crate) struct SampleTime {
    value: Frac,
}

impl Model for SampleTime {
    ghost use Rattle.dsv_fraction.specs.Ratio.{Ratio};
    ghost use Rattle.dsv_reader.specs.Controllers.{IsTime};

    ghost Value = { Ratio };

    ghost view = { λ t. t.value };

    ghost invariant = { λ t. IsTime t.value };
}

impl SampleTime {
    ghost use Rattle.std.specs.Prelude.{◌≡◌};
    ghost use Rattle.dsv_reader.specs.Controllers.{IsTime};

    /// The sample time of this value, in seconds.
    pub(crate) fn new(value: Frac) -> Self
        requires { IsTime value }
        ensures { result ≡ value }
    {
        SampleTime { value }
    }

    /// The time in seconds.
    pub(crate) fn get(&self) -> Frac
        ensures same { result ≡ self.now }
        ensures time { IsTime self.now }
    {
        self.value
    }
}

/// The greatest clock, in cycles a second.
pub(crate) const GREATEST_CLOCK: u64 = 1_000_000_000_000;

/// The greatest cost, in cycles.
pub(crate) const GREATEST_COST: u64 = 10_000;

/// A whole number from `LEAST` to `GREATEST`.
#[derive(Drop)]
pub(crate) struct Bounded<const LEAST: u64, const GREATEST: u64> {
    value: u64,
}

impl<const LEAST: u64, const GREATEST: u64> Model for Bounded<LEAST, GREATEST> {
    ghost use Rattle.std.specs.Prelude.{ℕ, ◌≤◌};

    ghost Value = { ℕ };

    ghost view = { λ n. n.value };

    ghost invariant = { λ n. (LEAST ≤ n.value) × (n.value ≤ GREATEST) };
}

impl<const LEAST: u64, const GREATEST: u64> Bounded<LEAST, GREATEST> {
    ghost use Rattle.std.specs.Prelude.{◌≡◌, ◌≤◌};

    /// The number of this value.
    pub(crate) fn new(value: u64) -> Self
        requires least { LEAST ≤ value }
        requires greatest { value ≤ GREATEST }
        ensures { result ≡ value }
    {
        Bounded { value }
    }

    /// The value.
    pub(crate) fn get(&self) -> u64
        ensures same { result ≡ self.now }
        ensures least { LEAST ≤ self.now }
        ensures greatest { self.now ≤ GREATEST }
    {
        self.value
    }
}

/// The clock of the hardware, in cycles a second.
pub(crate) type Clock = Bounded<1, GREATEST_CLOCK>;

/// A cost in cycles.
pub(crate) type Cost = Bounded<0, GREATEST_COST>;
