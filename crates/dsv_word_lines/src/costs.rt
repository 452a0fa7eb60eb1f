// Writes the costs of a controller's file, with no memory.
ghost use Rattle.dsv_base.specs.Taking.{Writes};
ghost use Rattle.dsv_word_lines.specs.CostLines.{cost_line};

use crate::line_parts::{LinePart, put_line_parts};
use dsv_base::{Failed, Sink};
use dsv_reader::Costs;

/// Writes what the parts of a sample cost, in cycles. It takes no memory.
pub fn put_costs<K: Sink>(sink: &mut K, costs: &Costs) -> Result<(), Failed>
    ensures { Writes (K.seen sink.old) (K.seen sink.new) result (cost_line costs.now) }
{
    put_line_parts(
        sink,
        &[
            LinePart::Bytes(b"cost_sample "),
            LinePart::Count(u64::from(costs.sample)),
            LinePart::Bytes(b" cost_mul "),
            LinePart::Count(u64::from(costs.mul)),
            LinePart::Bytes(b" cost_add "),
            LinePart::Count(u64::from(costs.add)),
            LinePart::Bytes(b" cost_round "),
            LinePart::Count(u64::from(costs.round)),
            LinePart::Bytes(b" cost_fit "),
            LinePart::Count(u64::from(costs.fit)),
            LinePart::Bytes(b" cost_moves "),
            LinePart::Count(u64::from(costs.moves)),
            LinePart::Bytes(b"\n"),
        ],
    )
}
