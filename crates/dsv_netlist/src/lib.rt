//! Netlists: nodes that refer backwards, an output, and a next node for each register; their steps,
//! sample by sample.
#![tactic(auto, using(dsv_algebra::proofs::Casts::casts))]

mod bounds;
mod conditions;
mod law;
mod netlist;
mod node;
mod responses;
mod step;

pub use law::values_are_bounded;
pub use netlist::{Netlist, OpCounts};
pub use node::Node;
pub use responses::{PULSE, Responses, pulse_responses};

/// The most nodes that a netlist has.
pub const MOST_NODES: usize = 512;

/// The most registers that a netlist has.
pub const MOST_REGISTERS: usize = 512;

/// The bound of each node is below this.
pub const BOUND_LIMIT: u128 = 1 << 126;
