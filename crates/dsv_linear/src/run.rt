// The facts of a run.
//
// The netlist is run over forms and intervals in place of words, sample by sample. Each input is a
// symbol of its own, registers start with 0, and a sample's symbols join those of the samples
// before. A fitted value passes its form on unchanged: up to the first value that is no word,
// fitting changes nothing, and the facts are about runs up to there.
ghost use Rattle.std.specs.Prelude.{◌≡◌, map, replicate, IfOk};
ghost use Rattle.dsv_linear.specs.Facts.{AreFacts};
ghost use Rattle.dsv_linear.specs.Known.{estimate_at, zero_estimate, zero_start, no_point, fresh};
ghost use Rattle.dsv_linear.specs.Known.{point_from, loaded, facts_from, facts_of};

use crate::fact::Fact;
use crate::form::Form;
use crate::nodes::add_node;
use crate::point::{Estimate, Point, Start};
use crate::range::Range;
use dsv_base::{Items, NoMemory};
use dsv_netlist::{Netlist, Node};
use std::alloc::Global;

/// What is known of a value, copied.
fn copy_of(alloc: Global, estimate: &Estimate) -> Result<Estimate, NoMemory>
    ensures { IfOk result (λ copy. copy ≡ estimate.now) }
{
    let form = match &estimate.form {
        Some(form) => Some(form.copy(alloc)?),
        None => None,
    };
    Ok(Estimate {
        form,
        interval: estimate.interval,
    })
}

/// What is known of the value of this number, copied.
fn estimate_at(alloc: Global, estimates: &Items<Estimate>, i: u32) -> Result<Estimate, NoMemory>
    ensures { IfOk result (λ estimate. estimate ≡ estimate_at estimates.now i) }
{
    match estimates.as_slice().get(i as usize) {
        Some(estimate) => copy_of(alloc, estimate),
        None => Ok(Estimate {
            form: None,
            interval: None,
        }),
    }
}

/// What is known of the words in the registers that are loaded from these nodes.
#[tactic(auto, using(crate::proofs::Passes::mapped_more))]
pub fn loaded_estimates(
    alloc: Global,
    next: &[u32],
    estimates: &Items<Estimate>,
) -> Result<Items<Estimate>, NoMemory>
    ensures { IfOk result (λ registers. registers ≡ map (estimate_at estimates.now) next.now) }
{
    let mut registers = Items::new(alloc);
    for id in next {
        registers.push(estimate_at(alloc, estimates, *id)?)?;
    }
    Ok(registers)
}

/// Adds what the nodes give to what is known.
fn add_nodes(
    alloc: Global,
    start: &Start,
    nodes: &[Node],
    point: &mut Point,
) -> Result<(), NoMemory>
    ensures { IfOk result (λ u. point.new ≡ point_from start.now nodes.now point.old) }
{
    for node in nodes {
        add_node(alloc, start, point, node)?;
    }
    Ok(())
}

/// Adds what a sample gives to what is known, and loads the registers for the next.
fn add_sample(
    alloc: Global,
    nodes: &[Node],
    next: &[u32],
    start: &mut Start,
    point: &mut Point,
) -> Result<(), NoMemory>
    ensures point { IfOk result
        (λ u. point.new ≡ point_from start.old nodes.now (fresh point.old)) }
    ensures start { IfOk result (λ u. start.new ≡ loaded next.now start.old point.new) }
{
    point.estimates = Items::new(alloc);
    add_nodes(alloc, start, nodes, point)?;
    start.registers = loaded_estimates(alloc, next, &point.estimates)?;
    Ok(())
}

/// What is known of a register that starts with 0.
fn zero_estimate(alloc: Global) -> Estimate
    ensures { result ≡ zero_estimate }
{
    Estimate {
        form: Some(Form::new(alloc)),
        interval: Some(Range::between(&0, &0)),
    }
}

/// What is known of `count` registers that start with 0.
#[tactic(auto, using(crate::proofs::Passes::replicate_more))]
fn zero_registers(alloc: Global, count: u32) -> Result<Items<Estimate>, NoMemory>
    ensures { IfOk result (λ registers. registers ≡ replicate count zero_estimate) }
{
    let mut registers = Items::new(alloc);
    for _ in 0..count {
        registers.push(zero_estimate(alloc))?;
    }
    Ok(registers)
}

/// What a run starts with whose registers are 0, over inputs from `low` to `high`.
pub fn zero_start(alloc: Global, net: &Netlist, low: i64, high: i64) -> Result<Start, NoMemory>
    ensures { IfOk result (λ start. start ≡ zero_start net.now low high) }
{
    let registers = zero_registers(alloc, net.registers())?;
    Ok(Start {
        format: net.format(),
        input: Range::between(&low.into(), &high.into()),
        registers,
    })
}

/// No symbol and no fact yet.
pub fn no_point(alloc: Global) -> Point
    ensures { result ≡ no_point }
{
    Point {
        estimates: Items::new(alloc),
        ranges: Items::new(alloc),
        facts: Items::new(alloc),
    }
}

/// For each exact value of a run, in its order, what is known of it.
pub type Facts = Items<Fact>;

/// Adds what `samples` samples give to what is known.
#[tactic(auto, using(crate::proofs::Passes::samples_more))]
fn add_samples(
    alloc: Global,
    net: &Netlist,
    samples: u32,
    start: &mut Start,
    point: &mut Point,
) -> Result<(), NoMemory>
    ensures { IfOk result
        (λ u. point.new.facts ≡ facts_from net.now samples start.old point.old) }
{
    let (nodes, next) = (net.nodes(), net.next_nodes());
    for _ in 0..samples {
        add_sample(alloc, nodes, next, start, point)?;
    }
    Ok(())
}

/// The facts after `samples` samples, where this is known of the registers and so far.
fn facts_from(
    alloc: Global,
    net: &Netlist,
    samples: u32,
    start: Start,
    point: Point,
) -> Result<Facts, NoMemory>
    ensures { IfOk result (λ facts. facts ≡ facts_from net.now samples start point) }
{
    let mut start = start;
    let mut point = point;
    add_samples(alloc, net, samples, &mut start, &mut point)?;
    Ok(point.facts)
}

/// The facts of a run of `samples` samples from registers of zeros, over inputs from `low` to
/// `high`: for each exact value, in the order of a run, what is known of it if all exact values
/// before it are words.
pub fn facts_of(
    alloc: Global,
    net: &Netlist,
    low: i64,
    high: i64,
    samples: u32,
) -> Result<Facts, NoMemory>
    ensures made { IfOk result (λ facts. facts ≡ facts_of net.now low high samples) }
    ensures holds { IfOk result (AreFacts net.now low high samples) }
{
    let start = zero_start(alloc, net, low, high)?;
    facts_from(alloc, net, samples, start, no_point(alloc))
}
