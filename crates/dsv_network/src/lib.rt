//! Networks: nodes over registers whose runs are bounded, whatever their length, by one pass of
//! linear forms. A network's nodes are outer signals, registers, products with whole numbers, sums,
//! differences, quotients with errors, and values that are checked or shown.
#![tactic(auto, using(dsv_algebra::proofs::Casts::casts))]

mod depth;
mod ends;
mod law;
mod network;
mod outlook;
mod pass;
mod ranges;
mod search;
mod signal;
mod start_parts;
mod starts;
mod walk;
mod weights;

pub use depth::ranges_of;
pub use ends::{Ends, SampleEnds};
pub use law::{
    depths_forget_starts, gains_are_found_again, gains_are_within, gains_hold, ranges_hold,
};
pub use network::Network;
pub use outlook::{Gain, Outlook};
pub use pass::{Pass, add_sample};
pub use ranges::{Ranges, hulls, hulls_after, range_at, scaled_range, shorter_length};
pub use search::gain_of;
pub use signal::{NearQuotient, Signal};
pub use start_parts::has_settled;
pub use starts::start_pass;
