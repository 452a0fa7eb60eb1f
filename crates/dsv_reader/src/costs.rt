// What the parts of a sample cost, as a file says it.
ghost use Rattle.std.specs.Prelude.{◌≡◌, ◌≤◌, unwrap_or};
ghost use Rattle.dsv_reader.specs.Controllers.{AreCosts};
ghost use Rattle.dsv_reader.specs.Defaults.{default_costs};
ghost use Rattle.dsv_reader.specs.Limits.{greatest_cost};
ghost use Rattle.dsv_reader.specs.Reading.{costs_of};

use crate::fields::HardwareFields;
use crate::settings::Cost;

/// What the parts of a sample cost, in cycles of the clock; each at most 10,000.
#[derive(Clone, Copy, Debug, PartialEq, Eq)]
pub struct Costs {
    pub sample: u32,
    pub mul: u32,
    pub add: u32,
    pub round: u32,
    pub fit: u32,
    pub moves: u32,
}

/// What the parts of a sample cost where a file doesn't say it.
pub(crate) fn default_costs() -> Costs
    ensures value { result ≡ default_costs }
    ensures small { AreCosts result }
{
    Costs {
        sample: 10,
        mul: 4,
        add: 1,
        round: 1,
        fit: 1,
        moves: 2,
    }
}

/// The cost, or what holds where the file doesn't say it.
fn cost_or(cost: &Option<Cost>, default: u32) -> u32
    requires { default ≤ greatest_cost }
    ensures value { result ≡ unwrap_or cost.now default }
    ensures small { result ≤ greatest_cost }
{
    match cost {
        Some(cost) => cost.get() as u32,
        None => default,
    }
}

/// The costs of the block `hardware`, and the default ones where it doesn't say them.
pub(crate) fn costs_of(hardware: &HardwareFields) -> Costs
    ensures value { result ≡ costs_of hardware.now }
    ensures small { AreCosts result }
{
    let default = default_costs();
    Costs {
        sample: cost_or(&hardware.sample, default.sample),
        mul: cost_or(&hardware.mul, default.mul),
        add: cost_or(&hardware.add, default.add),
        round: cost_or(&hardware.round, default.round),
        fit: cost_or(&hardware.fit, default.fit),
        moves: cost_or(&hardware.moves, default.moves),
    }
}
