// Netlists with the range of their inputs.
ghost use Rattle.std.specs.Prelude.{◌≤ℤ◌};
ghost use Rattle.dsv_word.specs.Words.{IsWord};

use dsv_netlist::Netlist;
use dsv_quantiser::Quantised;

/// A netlist, and the least and the greatest of its inputs, which are words.
#[derive(Clone, Copy)]
pub struct RangedNetlist<'a> {
    pub net: &'a Netlist,
    pub low: i64,
    pub high: i64,
    ghost low_word: { IsWord net.now.format low },
    ghost high_word: { IsWord net.now.format high },
    ghost order: { low ≤ℤ high },
}

impl<'a> RangedNetlist<'a> {
    ghost use Rattle.std.specs.Prelude.{◌≡◌};

    /// The netlist with inputs from `low` to `high`.
    pub fn new(net: &'a Netlist, low: i64, high: i64) -> RangedNetlist<'a>
        requires low { IsWord net.now.format low }
        requires high { IsWord net.now.format high }
        requires order { low ≤ℤ high }
        ensures net { result.net.now ≡ net.now }
        ensures low { result.low ≡ low }
        ensures high { result.high ≡ high }
    {
        RangedNetlist { net, low, high }
    }

    /// The netlist with the range of a controller's inputs.
    pub fn of_controller(quantised: &Quantised, net: &'a Netlist) -> RangedNetlist<'a>
        requires { net.now.format ≡ quantised.now.format }
        ensures net { result.net.now ≡ net.now }
        ensures low { result.low ≡ quantised.now.xlo }
        ensures high { result.high ≡ quantised.now.xhi }
    {
        RangedNetlist::new(net, quantised.xlo(), quantised.xhi())
    }
}
