// How great a job is, before it is unrolled.
ghost use Rattle.std.specs.Prelude.{◌≡◌, ◌≤◌, ◌*◌, ◌^◌};
ghost use Rattle.dsv_unroll.specs.Goals.{size_of};

use dsv_netlist::Netlist;

/// Samples times products times the square of a word's bits.
fn product_of(samples: u32, products: u32, bits: u32) -> u64
    requires samples { samples ≤ 64 }
    requires bits { bits ≤ 48 }
    ensures { result ≡ samples * products * bits ^ 2 }
{
    let square = u64::from(bits * bits);
    let all = u64::from(samples) * u64::from(products);
    all * square
}

/// How great the job is that unrolls so many samples of a netlist: samples times products times
/// the square of a word's bits.
pub fn size(net: &Netlist, samples: u32) -> u64
    requires { samples ≤ 64 }
    ensures { result ≡ size_of net.now samples }
{
    product_of(samples, net.counts().products, net.format().width())
}
