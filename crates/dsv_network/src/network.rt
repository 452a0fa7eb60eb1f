// Networks.
ghost use Rattle.std.specs.Prelude.{◌≡◌, length};

use crate::signal::Signal;
use dsv_base::Items;
use dsv_word::Format;

/// Nodes over registers: in each sample each node gives a number, from the registers and from the
/// nodes before it, and then the registers are loaded with what nodes give.
#[derive(Drop)]
pub struct Network {
    /// The words that are checked and shown.
    pub format: Format,
    /// What the nodes give, in their order.
    pub nodes: Items<Signal>,
    /// The node that each register is loaded from.
    pub next: Items<u32>,
}
