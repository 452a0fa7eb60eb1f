// Ranges in words of three bits, in all realisations, beside enumerated runs of their netlists: all
// lists of four inputs from registers of zeros, and all lists up to the settled sample from all
// words in the registers.
#![tactic(auto, using(dsv_algebra::proofs::Casts::casts))]

ghost use Rattle.dsv_word.specs.Words.{IsWord};
ghost use Rattle.std.specs.Prelude.{IsTrue};
ghost use Rattle.std.specs.List.{All};

use crate::controllers::{Design, REALISATIONS};
use dsv_gain::{Gain, Outlook, gain};
use dsv_linear::Range;
use dsv_names::{OverflowMode, Realisation, Rounding};
use dsv_netlist::Netlist;
use dsv_realise::{Asking, realise};
use dsv_system::ExactList;
use dsv_word::Format;
use std::alloc::Global;
use std::test::Fail;

/// y = 0.5 x - 0.5 x_1 + 0.5 y_1 with delta 1; its inputs are the words from -1 to 1.
const FIRST: &str =
    "digital_system d = { .b = {0.5, -0.5}, .b_size = 2, .a = {1.0, -0.5}, .a_size = 2 };
implementation r = { .int_bits = 2, .frac_bits = 1, .max = 0.5, .min = -0.5, .delta = 1.0 };";

/// y = 0.5 x - 0.5 x_2 + 0.5 y_1 with delta 1; its inputs are the words 0 and 1.
const SECOND: &str =
    "digital_system d = { .b = {0.5, 0.0, -0.5}, .b_size = 3, .a = {1.0, -0.5, 0.0}, .a_size = 3 };
implementation r = { .int_bits = 2, .frac_bits = 1, .max = 0.5, .min = 0.0, .delta = 1.0 };";

fn are_words(format: &Format, words: &[i64]) -> bool
    ensures { IsTrue result → All (IsWord format.now) words.now }
{
    words.iter().all(|word| format.fits(i128::from(*word)))
}

/// The exact values of a sample, where the registers are as many as the netlist has and words.
fn exact_of(net: &Netlist, registers: &mut [i64], x: i64) -> Option<ExactList> {
    let format = net.format();
    if registers.len() != net.registers() as usize
        || !are_words(&format, registers)
        || !format.fits(i128::from(x))
    {
        return None;
    }
    let mut exact = ExactList::new();
    net.step(registers, x, &mut exact);
    Some(exact)
}

/// Whether there is a range for each value, which lies in it.
fn lie_in(ranges: &[Range], exact: &[i128]) -> bool {
    let mut met = ranges.len() == exact.len();
    for (range, value) in ranges.iter().zip(exact) {
        met = met && range.low.get() <= *value && *value <= range.high.get();
    }
    met
}

/// Numbers from `low` on, `base` of them, whose places among these are the digits of a number.
fn digits_of(alloc: Global, number: u32, count: u32, low: i64, base: u32) -> Option<Vec<i64>> {
    let mut list = Vec::new(alloc);
    let mut rest = number;
    for _ in 0..count {
        list.push(low.saturating_add(i64::from(rest.checked_rem(base)?)))
            .ok()?;
        rest = rest.checked_div(base)?;
    }
    Some(list)
}

/// A netlist, the range of its inputs, and what is claimed.
#[derive(Drop)]
struct Claim {
    net: Netlist,
    low: i64,
    high: i64,
    gain: Gain,
}

impl Claim {
    /// How many inputs there are.
    fn inputs(&self) -> u32 {
        u32::try_from(self.high.saturating_sub(self.low).saturating_add(1)).unwrap_or(0)
    }

    /// How many of the runs over all lists of so many inputs leave the ranges, from these words: in
    /// any sample, or in the last one where no value before it was outside the words.
    fn faults(&self, alloc: Global, start: &[i64], samples: u32, is_last: bool) -> Option<u32> {
        let mut faults: u32 = 0;
        for number in 0..self.inputs().saturating_pow(samples) {
            let inputs = digits_of(alloc, number, samples, self.low, self.inputs())?;
            let mut registers = Vec::from_slice(alloc, start).ok()?;
            let lies = if is_last {
                self.last_lies(registers.as_mut_slice(), inputs.as_slice())?
            } else {
                self.all_lie(registers.as_mut_slice(), inputs.as_slice())?
            };
            faults = faults.saturating_add(u32::from(!lies));
        }
        Some(faults)
    }

    /// Whether all values of a run lie in their ranges.
    fn all_lie(&self, registers: &mut [i64], inputs: &[i64]) -> Option<bool> {
        let mut met = true;
        for x in inputs {
            let exact = exact_of(&self.net, registers, *x)?;
            met = met && lie_in(self.gain.ranges.as_slice(), exact.as_slice());
        }
        Some(met)
    }

    /// Whether the values of the last sample lie in their ranges, or one before is no word.
    fn last_lies(&self, registers: &mut [i64], inputs: &[i64]) -> Option<bool> {
        let format = self.net.format();
        let (last, before) = inputs.split_last()?;
        for x in before {
            let exact = exact_of(&self.net, registers, *x)?;
            if !exact.as_slice().iter().all(|value| format.fits(*value)) {
                return Some(true);
            }
        }
        let exact = exact_of(&self.net, registers, *last)?;
        Some(lie_in(self.gain.ranges.as_slice(), exact.as_slice()))
    }

    /// Whether a start's feed-forward registers are inputs or 0.
    fn is_start(&self, start: &[i64]) -> bool {
        let count = self.net.feed_forward() as usize;
        start.iter().take(count).all(|word| *word == 0 || (self.low <= *word && *word <= self.high))
    }

    /// How many runs from zeros over four inputs leave the ranges.
    fn run_faults(&self, alloc: Global) -> Option<u32> {
        let start = digits_of(alloc, 0, self.net.registers(), 0, 1)?;
        self.faults(alloc, start.as_slice(), 4, false)
    }

    /// How many runs up to the settled sample leave the ranges in it, from all words.
    fn step_faults(&self, alloc: Global) -> Option<u32> {
        let format = self.net.format();
        let samples = self.gain.settled.saturating_add(1);
        let words = u32::try_from(format.hi().saturating_sub(format.lo())).ok()?;
        let base = words.saturating_add(1);
        let mut faults: u32 = 0;
        for number in 0..base.saturating_pow(self.net.registers()) {
            let start = digits_of(alloc, number, self.net.registers(), format.lo(), base)?;
            if self.is_start(start.as_slice()) {
                let more = self.faults(alloc, start.as_slice(), samples, true)?;
                faults = faults.saturating_add(more);
            }
        }
        Some(faults)
    }
}

/// What is claimed of a controller, if it is safe.
fn claim_of(alloc: Global, design: &Design, realisation: Realisation) -> Option<Claim> {
    let quantised = design.quantised_in(alloc, realisation)?;
    let net = realise(alloc, &quantised).ok()?;
    let asking = Asking::of(alloc, &quantised).ok()?;
    match gain(alloc, &asking, 16).ok()? {
        Outlook::Safe(gain) => Some(Claim {
            net,
            low: quantised.xlo(),
            high: quantised.xhi(),
            gain,
        }),
        _ => None,
    }
}

/// How many of the claims of all realisations stand, in a rounding and an overflow mode; none where
/// one doesn't.
fn standing_claims(
    alloc: Global,
    text: &'static str,
    rounding: Rounding,
    overflow: OverflowMode,
    from_words: bool,
) -> Option<u32> {
    let design = Design {
        text,
        int_bits: 2,
        frac_bits: 1,
        rounding,
        overflow,
    };
    let mut count: u32 = 0;
    for realisation in &REALISATIONS {
        if let Some(claim) = claim_of(alloc, &design, *realisation) {
            let faults = if from_words {
                claim.step_faults(alloc)?
            } else {
                claim.run_faults(alloc)?
            };
            if faults != 0 {
                return None;
            }
            count = count.saturating_add(1);
        }
    }
    Some(count)
}

/// Whether ranges are claimed for some realisations of both controllers, and each claim stands.
fn stand(alloc: Global, rounding: Rounding) -> bool {
    let first = standing_claims(alloc, FIRST, rounding, OverflowMode::Wrap, false);
    let second = standing_claims(alloc, SECOND, rounding, OverflowMode::Saturate, false);
    let from_words = standing_claims(alloc, FIRST, rounding, OverflowMode::Saturate, true);
    matches!(
        (first, second, from_words),
        (Some(3..), Some(3..), Some(3..))
    )
}

#[test]
fn ranges_stand_by_floors(rt: HostRuntime) -> Result<(), Fail> {
    let alloc = rt.alloc();
    assert!(rt; stand(alloc, Rounding::Floor));
    Ok(())
}

#[test]
fn ranges_stand_by_ceilings(rt: HostRuntime) -> Result<(), Fail> {
    let alloc = rt.alloc();
    assert!(rt; stand(alloc, Rounding::Ceil));
    Ok(())
}

#[test]
fn ranges_stand_by_nearest(rt: HostRuntime) -> Result<(), Fail> {
    let alloc = rt.alloc();
    assert!(rt; stand(alloc, Rounding::Nearest));
    Ok(())
}
