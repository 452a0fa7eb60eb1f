// Ranges that don't grow with the words: passes from what registers hold by the ranges before.
ghost use Rattle.std.specs.Prelude.{◌≡◌, IfOk};
ghost use Rattle.dsv_linear.specs.Forms.{range, scaled_range};
ghost use Rattle.dsv_gain.specs.Narrowing.{all_of, held_after, held_in, starts_of};
ghost use Rattle.dsv_gain.specs.Narrowing.{kept_ranges, box_ranges};
ghost use Rattle.dsv_gain.specs.Narrowing.{meet, meets, times_width, is_known_less};
ghost use Rattle.dsv_gain.specs.Narrowing.{is_narrower, are_narrower, more_known};
ghost use Rattle.dsv_gain.specs.Narrowing.{narrower_ranges, narrowed, most_passes};
ghost use Rattle.dsv_gain.specs.Narrowing.{with_narrowed};

use crate::boxes::Known;
use crate::ranges::push_copies;
use crate::starts::words_network;
use dsv_algebra::NarrowInteger;
use dsv_base::NoMemory;
use dsv_linear::Range;
use dsv_netlist::Netlist;
use dsv_network::{Gain, Outlook, Ranges, gain_of, hulls, range_at, scaled_range, shorter_length};
use dsv_realise::RangedNetlist;
use std::alloc::Global;

/// The most passes after the first one.
const MOST_PASSES: u32 = 8;

/// The least box that holds this one and what registers are loaded with from it.
fn held_after(
    alloc: Global,
    net: &Netlist,
    input: &Range,
    fitted: &[Range],
    registers: &Ranges,
) -> Result<Option<Ranges>, NoMemory>
    ensures { IfOk result
        (λ list. list ≡ held_after input.now net.now.nodes net.now.next fitted.now
        registers.now) }
{
    let known = Known {
        input: *input,
        registers: registers.as_slice(),
        fitted,
    };
    match known.loaded_ranges(alloc, net.nodes(), net.next_nodes())? {
        Some(loaded) => Ok(Some(hulls(alloc, registers, &loaded)?)),
        None => Ok(None),
    }
}

/// What registers hold in runs from zeros, where these are the ranges of all that is fitted.
fn starts_of(
    alloc: Global,
    net: &Netlist,
    input: &Range,
    fitted: &[Range],
) -> Result<Option<Ranges>, NoMemory>
    ensures { IfOk result (λ list. list ≡ starts_of net.now input.now fitted.now) }
{
    let mut list = Ranges::new(alloc);
    push_copies(&mut list, net.registers(), &Range::between(&0, &0))?;
    for _ in 0..net.registers() {
        let Some(more) = held_after(alloc, net, input, fitted, &list)? else {
            return Ok(None);
        };
        list = more;
    }
    Ok(Some(list))
}

/// The ranges of the symbols of registers that lie in these.
fn symbols_of(alloc: Global, list: &[Range]) -> Result<Option<Ranges>, NoMemory>
    ensures { IfOk result (λ symbols. symbols ≡ all_of scaled_range list.now) }
{
    let mut symbols = Ranges::new(alloc);
    for range in list {
        let Some(symbol) = scaled_range(range) else {
            return Ok(None);
        };
        symbols.push(symbol)?;
    }
    Ok(Some(symbols))
}

/// The ranges of what is found from a box, where these keep it.
fn kept_ranges(net: &Netlist, input: &Range, list: &[Range], found: Outlook) -> Option<Ranges>
    ensures { result ≡ kept_ranges net.now input.now list.now found }
{
    let Outlook::Safe(gain) = found else {
        return None;
    };
    let known = Known {
        input: *input,
        registers: list,
        fitted: gain.ranges.as_slice(),
    };
    if known.is_kept(&net.format(), net.nodes(), net.next_nodes()) {
        Some(gain.ranges)
    } else {
        None
    }
}

/// The range of a subject's inputs.
fn input_range(subject: &RangedNetlist) -> Range
    ensures { result ≡ range subject.now.low subject.now.high }
{
    Range::between(&i128::from(subject.low), &i128::from(subject.high))
}

/// The ranges that a pass from a box shows, where they keep it.
fn box_ranges(
    alloc: Global,
    subject: &RangedNetlist,
    limit: u32,
    list: &[Range],
) -> Result<Option<Ranges>, NoMemory>
    ensures { IfOk result (λ ranges. ranges ≡ box_ranges subject.now.net.now subject.now.low
        subject.now.high limit list.now) }
{
    let Some(symbols) = symbols_of(alloc, list)? else {
        return Ok(None);
    };
    let network = words_network(alloc, subject)?;
    let found = gain_of(alloc, &network, symbols, limit)?;
    Ok(kept_ranges(subject.net, &input_range(subject), list, found))
}

/// The numbers that both hold.
fn meet(a: &Range, b: &Range) -> Range
    ensures { result ≡ meet a.now b.now }
{
    Range {
        low: if a.low.get() < b.low.get() {
            b.low
        } else {
            a.low
        },
        high: if b.high.get() < a.high.get() {
            b.high
        } else {
            a.high
        },
    }
}

/// Range by range, the numbers that both hold.
fn meets(alloc: Global, a: &Ranges, b: &Ranges) -> Result<Ranges, NoMemory>
    ensures { IfOk result (λ list. list ≡ meets a.now b.now) }
{
    let mut list = Ranges::new(alloc);
    let count = shorter_length(a, b);
    for i in 0..count {
        list.push(meet(&range_at(a, i), &range_at(b, i)))?;
    }
    Ok(list)
}

/// So many times the width of a range, where that is narrow.
fn times_width(n: u32, range: &Range) -> Option<NarrowInteger>
    ensures { result ≡ times_width n range.now }
{
    let width = range.high.checked_sub(range.low)?;
    NarrowInteger::from(i64::from(n)).checked_mul(width)
}

/// Whether the one number is less than the other, and both are known.
fn is_known_less(a: Option<NarrowInteger>, b: Option<NarrowInteger>) -> bool
    ensures { result ≡ is_known_less a b }
{
    match (a, b) {
        (Some(a), Some(b)) => a.get() < b.get(),
        _ => false,
    }
}

/// Whether the other range is narrower by more than a sixteenth.
fn is_narrower(a: &Range, b: &Range) -> bool
    ensures { result ≡ is_narrower a.now b.now }
{
    is_known_less(times_width(16, b), times_width(15, a))
}

/// Whether one of the others is.
fn are_narrower(a: &Ranges, b: &Ranges) -> bool
    ensures { result ≡ are_narrower a.now b.now }
{
    let count = shorter_length(a, b);
    for i in 0..count {
        if is_narrower(&range_at(a, i), &range_at(b, i)) {
            return true;
        }
    }
    false
}

/// What is known by both, where that is so much more.
fn more_known(alloc: Global, ranges: &Ranges, found: &Ranges) -> Result<Option<Ranges>, NoMemory>
    ensures { IfOk result (λ list. list ≡ more_known ranges.now found.now) }
{
    let both = meets(alloc, ranges, found)?;
    if are_narrower(ranges, &both) {
        Ok(Some(both))
    } else {
        Ok(None)
    }
}

/// The ranges after one pass more, from what registers hold by those before.
fn narrower_ranges(
    alloc: Global,
    subject: &RangedNetlist,
    limit: u32,
    ranges: &Ranges,
) -> Result<Option<Ranges>, NoMemory>
    ensures { IfOk result (λ list. list ≡ narrower_ranges subject.now.net.now subject.now.low
        subject.now.high limit ranges.now) }
{
    let input = input_range(subject);
    let Some(list) = starts_of(alloc, subject.net, &input, ranges.as_slice())? else {
        return Ok(None);
    };
    match box_ranges(alloc, subject, limit, list.as_slice())? {
        Some(found) => more_known(alloc, ranges, &found),
        None => Ok(None),
    }
}

/// The ranges after at most so many passes; one that shows not so much more is the last.
fn narrowed_ranges(
    alloc: Global,
    subject: &RangedNetlist,
    limit: u32,
    ranges: Ranges,
) -> Result<Ranges, NoMemory>
    ensures { IfOk result (λ list. list ≡ narrowed most_passes subject.now.net.now
        subject.now.low subject.now.high limit ranges) }
{
    let mut list = ranges;
    for _ in 0..MOST_PASSES {
        match narrower_ranges(alloc, subject, limit, &list)? {
            Some(narrower) => list = narrower,
            None => return Ok(list),
        }
    }
    Ok(list)
}

/// A gain with its ranges narrowed.
pub(crate) fn with_narrowed(
    alloc: Global,
    subject: &RangedNetlist,
    limit: u32,
    found: Outlook,
) -> Result<Outlook, NoMemory>
    ensures { IfOk result (λ now. now ≡ with_narrowed subject.now.net.now subject.now.low
        subject.now.high limit found) }
{
    match found {
        Outlook::Safe(gain) => Ok(Outlook::Safe(Gain {
            depth: gain.depth,
            settled: gain.settled,
            ranges: narrowed_ranges(alloc, subject, limit, gain.ranges)?,
        })),
        other => Ok(other),
    }
}
