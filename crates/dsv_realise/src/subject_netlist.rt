// What a subject becomes.
ghost use Rattle.std.specs.Prelude.{◌≤ℤ◌};
ghost use Rattle.dsv_word.specs.Words.{IsWord};

use dsv_netlist::Netlist;
use dsv_quantiser::Quantised;

/// A netlist of a subject, and the least and the greatest of its inputs, which are words.
#[derive(Drop)]
pub struct SubjectNetlist {
    pub net: Netlist,
    pub low: i64,
    pub high: i64,
    ghost low_word: { IsWord net.format low },
    ghost high_word: { IsWord net.format high },
    ghost order: { low ≤ℤ high },
}

impl SubjectNetlist {
    ghost use Rattle.std.specs.Prelude.{◌≡◌};

    /// The netlist with inputs from `low` to `high`.
    pub fn new(net: Netlist, low: i64, high: i64) -> SubjectNetlist
        requires low { IsWord net.format low }
        requires high { IsWord net.format high }
        requires order { low ≤ℤ high }
        ensures net { result.net ≡ net }
        ensures low { result.low ≡ low }
        ensures high { result.high ≡ high }
    {
        SubjectNetlist { net, low, high }
    }

    /// The netlist with the range of a controller's inputs.
    pub fn of_controller(net: Netlist, quantised: &Quantised) -> SubjectNetlist
        requires { net.format ≡ quantised.now.format }
        ensures net { result.net ≡ net }
        ensures low { result.low ≡ quantised.now.xlo }
        ensures high { result.high ≡ quantised.now.xhi }
    {
        SubjectNetlist::new(net, quantised.xlo(), quantised.xhi())
    }
}
