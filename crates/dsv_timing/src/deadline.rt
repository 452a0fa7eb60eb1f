// Deadlines.
ghost use Rattle.std.specs.Prelude.{◌↔◌, IsTrue};
ghost use Rattle.dsv_reader.specs.Controllers.{IsTime};
ghost use Rattle.dsv_timing.specs.Cycles.{IsInTime};

use dsv_fraction::Frac;

/// Whether so many cycles, at `clock` cycles a second, are done within the time between two
/// samples, in seconds.
#[tactic(auto, using(crate::proofs::Sizes::sizes))]
pub fn in_time(cycles: u64, clock: u64, sample_time: &Frac) -> bool
    requires { IsTime sample_time.now }
    ensures { IsTrue result ↔ IsInTime cycles clock sample_time.now }
{
    i128::from(cycles) * sample_time.den() <= i128::from(clock) * sample_time.num()
}
