// The cycles of a sample.
ghost use Rattle.std.specs.Prelude.{◌≡◌, ◌≤◌, ◌*◌, ◌^◌};
ghost use Rattle.dsv_reader.specs.Limits.{greatest_cost};
ghost use Rattle.dsv_reader.specs.Controllers.{AreCosts};
ghost use Rattle.dsv_timing.specs.Cycles.{cycles_of};

use dsv_fraction::Frac;
use dsv_netlist::OpCounts;
use dsv_reader::Costs;

/// What a sample takes, and the time that it has: operations and registers loaded, cycles, cycles a
/// second, and the time between two samples in seconds.
#[derive(Clone, Copy, Debug, PartialEq, Eq)]
pub struct TimingReport {
    pub counts: OpCounts,
    pub cycles: u64,
    pub clock: u64,
    pub sample_time: Frac,
}

/// How many times a cost of at most 10,000 cycles comes, in cycles.
#[tactic(auto, using(crate::proofs::Sizes::sizes))]
fn part(cost: u32, times: u64) -> u64
    requires cost { cost ≤ greatest_cost }
    requires times { times ≤ 2 ^ 33 }
    ensures value { result ≡ cost * times }
    ensures small { result ≤ greatest_cost * 2 ^ 33 }
{
    u64::from(cost) * times
}

/// How many cycles a sample takes: its own, those of its products with their roundings, of its
/// sums, of what is fitted into words after each of these, and of the registers that are loaded.
pub fn cycles(counts: &OpCounts, costs: &Costs) -> u64
    requires { AreCosts costs.now }
    ensures { result ≡ cycles_of counts.now costs.now }
{
    let products = u64::from(counts.products);
    let sums = u64::from(counts.sums);
    let of_products = part(costs.mul, products) + part(costs.round, products);
    let of_sums = part(costs.add, sums) + part(costs.fit, products + sums);
    let of_moves = part(costs.moves, u64::from(counts.moves));
    u64::from(costs.sample) + of_products + of_sums + of_moves
}
