// What a netlist answers to a pulse, in numbers that are neither rounded to words nor fitted.
//
// Without rounding and fits a netlist is linear and doesn't change with time. So an exact value of
// a sample is a sum over the inputs so far, in which an input counts as often as the value answers
// to a pulse that came with it. The sum is greatest where each input is the end of the range that
// has the sign of that answer, and least where each is the other end (Jackson, On the Interaction
// of Roundoff Noise and Dynamic Range in Digital Filters, 1970). With rounding and wrapping it is a
// guess, which a replay tests; so nothing is claimed of these numbers.
ghost use Rattle.std.specs.Prelude.{◌≤◌};

use crate::netlist::Netlist;
use crate::node::Node;
use crate::{MOST_NODES, MOST_REGISTERS};
use dsv_base::NoMemory;
use std::alloc::Global;

/// The pulse, large enough that what is lost in a division tells no sign.
pub const PULSE: i128 = 1 << 48;

/// The answers of a netlist's exact values to a pulse.
#[derive(Drop)]
pub struct Responses {
    /// How many exact values a sample has.
    values: usize,
    /// Sample after sample the answers of its exact values, in their order.
    answers: Vec<i128>,
}

impl Responses {
    /// How many exact values a sample has.
    pub fn values(&self) -> usize {
        self.values
    }

    /// The answer of the exact value of this number so many samples after the pulse; 0 where it
    /// wasn't computed.
    pub fn answer(&self, value: usize, after: u32) -> i128 {
        let before = (after as usize).saturating_mul(self.values);
        let place = before.saturating_add(value);
        self.answers.get(place).copied().unwrap_or(0)
    }
}

/// The number at a place, 0 where there is none.
fn at(numbers: &[i128], place: u32) -> i128 {
    numbers.get(place as usize).copied().unwrap_or(0)
}

/// What a node gives, over the values of the nodes before it. A number that is too large for its
/// type stays at its end.
fn node_value(node: &Node, registers: &[i128], x: i128, values: &[i128], frac_bits: u32) -> i128
    requires { frac_bits ≤ 48 }
{
    match node {
        Node::Input => x,
        Node::Reg(register) => at(registers, *register),
        Node::MulConst { coeff, of } => at(values, *of).saturating_mul(i128::from(*coeff)),
        Node::Round(of) => at(values, *of) >> frac_bits,
        Node::Add(left, right) => at(values, *left).saturating_add(at(values, *right)),
        Node::Sub(left, right) => at(values, *left).saturating_sub(at(values, *right)),
        Node::Fit(of) => at(values, *of),
        Node::Scale(of) => at(values, *of).saturating_mul(1i128 << frac_bits),
    }
}

/// The values of the nodes in one sample.
fn node_values(net: &Netlist, registers: &[i128], x: i128) -> [i128; MOST_NODES] {
    let frac_bits = net.format().frac_bits;
    let mut values = [0; MOST_NODES];
    for i in 0..net.len() {
        let value = node_value(&net.node(i), registers, x, &values, frac_bits);
        values[i as usize] = value;
    }
    values
}

/// The registers after a sample.
fn next_registers(net: &Netlist, values: &[i128]) -> [i128; MOST_REGISTERS] {
    let _count = net.len(); // its range, for the proof
    let mut registers = [0; MOST_REGISTERS];
    for k in 0..net.registers() {
        registers[k as usize] = at(values, net.next(k));
    }
    registers
}

/// The places of what is fitted, in the order of a sample's exact values.
fn places_of_fitted(alloc: Global, net: &Netlist) -> Result<Vec<u32>, NoMemory> {
    let mut places = Vec::new(alloc);
    for i in 0..net.len() {
        if let Node::Fit(of) = net.node(i) {
            places.push(of)?;
        }
    }
    Ok(places)
}

/// The answers of a netlist's exact values to a pulse in the first of so many samples.
pub fn pulse_responses(alloc: Global, net: &Netlist, samples: u32) -> Result<Responses, NoMemory> {
    let places = places_of_fitted(alloc, net)?;
    let mut answers = Vec::new(alloc);
    let mut registers = [0; MOST_REGISTERS];
    let mut x = PULSE;
    for _ in 0..samples {
        let values = node_values(net, &registers, x);
        for place in &places {
            answers.push(at(&values, *place))?;
        }
        registers = next_registers(net, &values);
        x = 0;
    }
    Ok(Responses {
        values: places.len(),
        answers,
    })
}
