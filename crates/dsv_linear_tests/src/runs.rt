// Facts of all six realisations in all three roundings, beside all runs of their netlists up to the
// first break.
#![tactic(auto, using(dsv_algebra::proofs::Casts::casts))]

ghost use Rattle.dsv_word.specs.Words.{IsWord};
ghost use Rattle.std.specs.Prelude.{◌<◌, IsTrue};
ghost use Rattle.std.specs.List.{All};

use dsv_linear::{Fact, facts_of};
use dsv_names::{OverflowMode, Realisation, Rounding};
use dsv_netlist::Netlist;
use dsv_realise::realise;
use dsv_system::ExactList;
use dsv_test_setup::quantised_of;
use dsv_word::Format;
use std::alloc::Global;
use std::test::Fail;

/// (0.5 - 0.5 z^-2) / (1 - 0.5 z^-1 + 0.5 z^-2) with delta 1, whose words in 2.1 are 1, 0, -1 and
/// 2, -1, 1, and in the delta operator 1, 2, 0 and 2, 3, 2; its inputs are the words from -1 to 2.
const SECOND: &str =
    "digital_system d = { .b = {0.5, 0.0, -0.5}, .b_size = 3, .a = {1.0, -0.5, 0.5}, .a_size = 3 };
implementation r = { .int_bits = 2, .frac_bits = 1, .max = 1.0, .min = -0.5, .delta = 1.0 };";

const REALISATIONS: [Realisation; 6] = [
    Realisation::Dfi,
    Realisation::Dfii,
    Realisation::Tdfii,
    Realisation::Ddfi,
    Realisation::Ddfii,
    Realisation::Tddfii,
];

/// The range of the inputs, and how many lists of three of them there are.
const LOW: i64 = -1;

const HIGH: i64 = 2;

const LISTS: u32 = 64;

fn netlist(alloc: Global, rounding: Rounding, realisation: Realisation) -> Option<Netlist> {
    let format = Format::new(2, 1, rounding, OverflowMode::Wrap).ok()?;
    let quantised = quantised_of(alloc, SECOND, format, realisation)?;
    realise(alloc, &quantised).ok()
}

fn are_words(format: &Format, words: &[i64]) -> bool
    ensures { IsTrue result → All (IsWord format.now) words.now }
{
    words.iter().all(|word| format.fits(i128::from(*word)))
}

/// The inputs of the list of this number.
fn inputs_of(number: u32) -> [i64; 3] {
    let first = i64::from(number % 4) + LOW;
    let second = i64::from(number / 4 % 4) + LOW;
    let third = i64::from(number / 16 % 4) + LOW;
    [first, second, third]
}

/// The exact values of a sample, where the registers are as many as the netlist has and words.
fn exact_of(net: &Netlist, registers: &mut [i64], x: i64) -> Option<ExactList> {
    let format = net.format();
    if registers.len() != net.registers() as usize
        || !are_words(&format, registers)
        || !format.fits(i128::from(x))
    {
        return None;
    }
    let mut exact = ExactList::new();
    net.step(registers, x, &mut exact);
    Some(exact)
}

/// The exact value of this number in the run over these inputs, where all before it are words.
fn value_at(net: &Netlist, inputs: &[i64], place: usize) -> Option<i128> {
    let format = net.format();
    let mut room = [0; 16];
    let registers = room.get_mut(..net.registers() as usize)?;
    let mut before: usize = 0;
    for x in inputs {
        let exact = exact_of(net, registers, *x)?;
        for value in exact.iter() {
            if before == place {
                return Some(*value);
            }
            if !format.fits(*value) {
                return None;
            }
            before = before.saturating_add(1);
        }
    }
    None
}

/// Whether the fact is true of the value.
fn is_true(format: &Format, fact: &Fact, value: i128) -> bool {
    match fact {
        Fact::Open => true,
        Fact::Inside => format.fits(value),
        Fact::Within { low, high } => i128::from(*low) <= value && value <= i128::from(*high),
    }
}

/// Whether the value is an end of the fact.
fn is_end(fact: &Fact, value: i128) -> bool {
    match fact {
        Fact::Open | Fact::Inside => false,
        Fact::Within { low, high } => i128::from(*low) == value || i128::from(*high) == value,
    }
}

/// How many values of this number are ends of its fact, where it is true of all of them.
fn ends_met(net: &Netlist, place: usize, fact: &Fact) -> Option<u32> {
    let format = net.format();
    let mut met: u32 = 0;
    for number in 0..LISTS {
        if let Some(value) = value_at(net, &inputs_of(number), place) {
            if !is_true(&format, fact, value) {
                return None;
            }
            met = met.saturating_add(u32::from(is_end(fact, value)));
        }
    }
    Some(met)
}

/// How many values are ends of their facts, where all facts are true.
fn all_ends_met(alloc: Global, rounding: Rounding, realisation: Realisation) -> Option<u32> {
    let net = netlist(alloc, rounding, realisation)?;
    let facts = facts_of(alloc, &net, LOW, HIGH, 3).ok()?;
    let mut met: u32 = 0;
    for (place, fact) in facts.as_slice().iter().enumerate() {
        met = met.saturating_add(ends_met(&net, place, fact)?);
    }
    Some(met)
}

/// Whether the facts of all realisations hold, and some values of each are ends of their facts.
fn hold(alloc: Global, rounding: Rounding) -> bool {
    let mut met = true;
    for realisation in &REALISATIONS {
        met = met && matches!(all_ends_met(alloc, rounding, *realisation), Some(1..));
    }
    met
}

#[test]
fn facts_hold_of_runs_by_floors(rt: HostRuntime) -> Result<(), Fail> {
    let alloc = rt.alloc();
    assert!(rt; hold(alloc, Rounding::Floor));
    Ok(())
}

#[test]
fn facts_hold_of_runs_by_ceilings(rt: HostRuntime) -> Result<(), Fail> {
    let alloc = rt.alloc();
    assert!(rt; hold(alloc, Rounding::Ceil));
    Ok(())
}

#[test]
fn facts_hold_of_runs_by_nearest(rt: HostRuntime) -> Result<(), Fail> {
    let alloc = rt.alloc();
    assert!(rt; hold(alloc, Rounding::Nearest));
    Ok(())
}
