// Writes the counts of generated controllers, with no memory.
ghost use Rattle.dsv_base.specs.Taking.{Writes};
ghost use Rattle.dsv_report.specs.Tallies.{seed_line, decided_line, overflow_line, tally_text};

use crate::lines::{put_number_line, put_numbered};
use dsv_base::{Failed, Sink};
use dsv_tally::Generated;

/// Writes how many controllers there are, and the seed.
fn put_seed<K: Sink>(sink: &mut K, count: u64, seed: u64) -> Result<(), Failed>
    ensures { Writes (K.seen sink.old) (K.seen sink.new) result (seed_line count seed) }
{
    put_numbered(sink, b"GENERATED ", count)?;
    put_number_line(sink, b" SEED ", seed)
}

/// Writes after the name of a property for how many controllers it is shown, and for how many not.
fn put_decided<K: Sink>(sink: &mut K, name: &[u8], shown: u64, refuted: u64) -> Result<(), Failed>
    ensures { Writes (K.seen sink.old) (K.seen sink.new) result
        (decided_line name.now shown refuted) }
{
    put_numbered(sink, name, shown)?;
    put_number_line(sink, b" failed ", refuted)
}

/// Writes how many controllers never overflow, how many do, and for how many the search gave up.
fn put_overflow_counts<K: Sink>(
    sink: &mut K,
    safe: u64,
    overflow: u64,
    spent: u64,
) -> Result<(), Failed>
    ensures { Writes (K.seen sink.old) (K.seen sink.new) result
        (overflow_line safe overflow spent) }
{
    put_numbered(sink, b"overflow successful ", safe)?;
    put_numbered(sink, b" failed ", overflow)?;
    put_number_line(sink, b" inconclusive ", spent)
}

/// Writes the counts of generated controllers.
pub(crate) fn put_tally<K: Sink>(sink: &mut K, found: &Generated) -> Result<(), Failed>
    ensures { Writes (K.seen sink.old) (K.seen sink.new) result (tally_text found.now) }
{
    let tally = found.tally;
    let stable = u64::from(tally.stable);
    let minimum = u64::from(tally.minimum);
    put_seed(sink, u64::from(tally.count), u64::from(found.seed))?;
    put_decided(
        sink,
        b"stability successful ",
        stable,
        u64::from(tally.unstable),
    )?;
    put_decided(
        sink,
        b"minimum-phase successful ",
        minimum,
        u64::from(tally.nonminimum),
    )?;
    put_overflow_counts(
        sink,
        u64::from(tally.safe),
        u64::from(tally.overflow),
        u64::from(tally.spent),
    )
}
