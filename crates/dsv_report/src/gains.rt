// Writes what the gain shows, and how far outputs are from those of exact runs, with no memory.
ghost use Rattle.std.specs.Prelude.{◌++◌};
ghost use Rattle.dsv_base.specs.Taking.{Writes};
ghost use Rattle.dsv_report.specs.Gains.{depth_text, range_text, gain_text, out_of_range_text};
ghost use Rattle.dsv_report.specs.Gains.{open_text, error_line, error_text, shown_text};
ghost use Rattle.dsv_report.specs.Lines.{numbered_lines};

use crate::answers::OutputError;
use crate::fragments::{Fragment, put_fragments};
use crate::lines::{put_number_line, put_numbered};
use dsv_base::{Failed, Sink, put_all};
use dsv_gain::{Gain, ShownError};
use dsv_linear::Range;

/// Writes the depth, and the sample whose step the ranges are taken from.
fn put_depth<K: Sink>(sink: &mut K, depth: u64, settled: u64) -> Result<(), Failed>
    ensures { Writes (K.seen sink.old) (K.seen sink.new) result (depth_text depth settled) }
{
    put_numbered(sink, b"depth ", depth)?;
    put_number_line(sink, b" settled ", settled)
}

/// Writes the range of the exact value of this number.
fn put_range<K: Sink>(sink: &mut K, number: u64, range: &Range) -> Result<(), Failed>
    ensures { Writes (K.seen sink.old) (K.seen sink.new) result (range_text number range.now) }
{
    put_fragments(
        sink,
        &[
            Fragment::Bytes(b"value "),
            Fragment::Number(number.into()),
            Fragment::Bytes(b" least "),
            Fragment::Number(range.low.get()),
            Fragment::Bytes(b" greatest "),
            Fragment::Number(range.high.get()),
            Fragment::Bytes(b"\n"),
        ],
    )
}

/// Writes a line for each range.
fn put_ranges<K: Sink>(sink: &mut K, ranges: &[Range]) -> Result<(), Failed>
    ensures { Writes (K.seen sink.old) (K.seen sink.new) result
        (numbered_lines range_text 0 ranges.now) }
{
    for (number, range) in ranges.iter().enumerate() {
        put_range(sink, number as u64, range)?;
    }
    Ok(())
}

/// Writes the depth and the ranges.
fn put_gain<K: Sink>(sink: &mut K, gain: &Gain) -> Result<(), Failed>
    ensures { Writes (K.seen sink.old) (K.seen sink.new) result (gain_text gain.now) }
{
    put_depth(sink, gain.depth.into(), gain.settled.into())?;
    put_ranges(sink, gain.ranges.as_slice())
}

/// Writes that no bound was found.
fn put_open<K: Sink>(sink: &mut K) -> Result<(), Failed>
    ensures { Writes (K.seen sink.old) (K.seen sink.new) result open_text }
{
    put_all(sink, b"error open\n")
}

/// Writes the depth of the offer that shows the bound, and the bound.
fn put_error_line<K: Sink>(sink: &mut K, depth: u64, output: &Range) -> Result<(), Failed>
    ensures { Writes (K.seen sink.old) (K.seen sink.new) result (error_line depth output.now) }
{
    put_fragments(
        sink,
        &[
            Fragment::Bytes(b"error depth "),
            Fragment::Number(depth.into()),
            Fragment::Bytes(b" least "),
            Fragment::Number(output.low.get()),
            Fragment::Bytes(b" greatest "),
            Fragment::Number(output.high.get()),
            Fragment::Bytes(b"\n"),
        ],
    )
}

/// Writes how far outputs are from those of exact runs, where it is sought.
fn put_error<K: Sink>(sink: &mut K, error: &OutputError) -> Result<(), Failed>
    ensures { Writes (K.seen sink.old) (K.seen sink.new) result (error_text error.now) }
{
    match error {
        OutputError::NotSought => Ok(()),
        OutputError::Open => put_open(sink),
        OutputError::Within(bound) => {
            put_error_line(sink, bound.offer.depth.into(), &bound.output)
        }
    }
}

/// Writes what a certificate shows of it, if it has an offer.
pub(crate) fn put_shown_error<K: Sink>(
    sink: &mut K,
    error: Option<ShownError>,
) -> Result<(), Failed>
    ensures { Writes (K.seen sink.old) (K.seen sink.new) result (shown_text error) }
{
    match error {
        Some(shown) => put_error_line(sink, shown.depth.into(), &shown.output),
        None => Ok(()),
    }
}

/// Writes what the gain shows, and how far outputs are from those of exact runs.
pub(crate) fn put_measure<K: Sink>(
    sink: &mut K,
    gain: &Gain,
    error: &OutputError,
) -> Result<(), Failed>
    ensures { Writes (K.seen sink.old) (K.seen sink.new) result
        (gain_text gain.now ++ error_text error.now) }
{
    put_gain(sink, gain)?;
    put_error(sink, error)
}

/// Writes the first sample and value whose range isn't known to be one of words.
pub(crate) fn put_out_of_range<K: Sink>(sink: &mut K, sample: u64, value: u64) -> Result<(), Failed>
    ensures { Writes (K.seen sink.old) (K.seen sink.new) result (out_of_range_text sample value) }
{
    put_numbered(sink, b"cause GAIN sample ", sample)?;
    put_number_line(sink, b" value ", value)
}
