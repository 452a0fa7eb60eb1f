// How many registers and operations a realisation has.
ghost use Rattle.std.specs.Prelude.{◌≡◌, ◌≤◌};
ghost use Rattle.dsv_meaning.specs.declared.counts.TheConstants.{MOST_ORDER};
ghost use Rattle.dsv_meaning.specs.Equations.{registers_of, forward_registers_of};
ghost use Rattle.dsv_meaning.specs.Equations.{products_of, sums_of};

use dsv_names::Realisation;

/// The greatest order of a controller.
pub const MOST_ORDER: u32 = 8;

/// How many registers the realisation of this order has.
pub fn registers(realisation: Realisation, order: u32) -> u32
    requires { order ≤ MOST_ORDER }
    ensures { result ≡ registers_of realisation order }
{
    match realisation {
        Realisation::Dfi | Realisation::Ddfi => 2 * order,
        Realisation::Dfii | Realisation::Tdfii | Realisation::Ddfii | Realisation::Tddfii => order,
    }
}

/// How many of the registers are feed-forward, which are the first ones.
pub fn forward_registers(realisation: Realisation, order: u32) -> u32
    requires { order ≤ MOST_ORDER }
    ensures { result ≡ forward_registers_of realisation order }
{
    match realisation {
        Realisation::Dfi | Realisation::Ddfi => order,
        Realisation::Dfii | Realisation::Tdfii | Realisation::Ddfii | Realisation::Tddfii => 0,
    }
}

/// How many products a sample of the realisation of this order takes.
pub fn products(realisation: Realisation, order: u32) -> u32
    requires { order ≤ MOST_ORDER }
    ensures { result ≡ products_of realisation order }
{
    match realisation {
        Realisation::Dfi | Realisation::Dfii | Realisation::Tdfii => 2 * order + 1,
        Realisation::Ddfi => 4 * order + 1,
        Realisation::Ddfii | Realisation::Tddfii => 3 * order + 1,
    }
}

/// How many sums and differences a sample of the realisation of this order takes.
pub fn sums(realisation: Realisation, order: u32) -> u32
    requires { order ≤ MOST_ORDER }
    ensures { result ≡ sums_of realisation order }
{
    match realisation {
        Realisation::Dfi | Realisation::Dfii | Realisation::Tdfii => 2 * order,
        Realisation::Ddfi => 4 * order,
        Realisation::Ddfii | Realisation::Tddfii => 3 * order,
    }
}
