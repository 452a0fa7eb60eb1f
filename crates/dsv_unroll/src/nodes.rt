// The term of each node of a sample.
ghost use Rattle.std.specs.Prelude.{◌≡◌, ◌<◌, ◌≤◌, ◌^◌, ◌++◌, length, IfOk};
ghost use Rattle.dsv_netlist.specs.Conditions.{IsNetlist, NamesBelow, ReadsBelow};
ghost use Rattle.dsv_unroll.specs.Rules.{addend_of, is_whole, addend_at, bound_at, node_term};
ghost use Rattle.dsv_unroll.specs.Rules.{node_tests};
ghost use Rattle.dsv_unroll.specs.Beside.{node_with};
ghost use Rattle.dsv_unroll.specs.Ready.{AreReady, fit_tests};

use crate::fitting::{NodeTerm, TestedTerm, fitted_term};
use crate::rules::{FitRule, difference_term, product_term, rounded_term, scaled_term, sum_term};
use dsv_base::NoMemory;
use dsv_names::Rounding;
use dsv_netlist::{Netlist, Node};
use dsv_term::{TermId, Terms};
use dsv_word::Format;

/// What is added before the bits below the point are cut off.
fn addend_of(format: &Format) -> u128
    ensures value { result ≡ addend_of format.now.rounding format.now.frac_bits }
    ensures small { result ≤ 2 ^ format.now.frac_bits }
{
    let one: u128 = 1;
    match format.rounding {
        Rounding::Floor => 0,
        Rounding::Ceil => (one << format.frac_bits) - 1,
        Rounding::Nearest => one << format.frac_bits.saturating_sub(1),
    }
}

/// Whether the node is a multiple of 2 to the number of bits after the point: a product by one, or
/// a node that is scaled.
fn is_whole(node: &Node, frac_bits: u32) -> bool
    requires { frac_bits ≤ 48 }
    ensures { result ≡ is_whole frac_bits node.now }
{
    match node {
        Node::MulConst { coeff, .. } => {
            let one: u64 = 1;
            coeff.unsigned_abs() % (one << frac_bits) == 0
        }
        Node::Scale(_) => true,
        _ => false,
    }
}

/// What is added to the node of this number before it is cut.
fn addend_at(net: &Netlist, of: u32) -> u128
    requires { of < length net.now.nodes }
    ensures value { result ≡ addend_at net.now of }
    ensures small { result ≤ 2 ^ net.now.format.frac_bits }
{
    let format = net.format();
    let node = net.node(of);
    if is_whole(&node, format.frac_bits) {
        return 0;
    }
    addend_of(&format)
}

/// The bound of the node of this number.
fn bound_at(net: &Netlist, i: u32) -> u128
    requires { i < length net.now.nodes }
    ensures value { result ≡ bound_at net.now i }
    ensures small { result < 2 ^ 126 }
{
    net.bound(i) as u128
}

/// What a sample is unrolled from: how a value becomes a word, and the terms of the registers and
/// of the input.
#[derive(Clone, Copy)]
pub(crate) struct Sample<'a> {
    pub rule: FitRule,
    pub registers: &'a [TermId],
    pub x: TermId,
}

/// The terms of a sample's nodes so far, the one that is 1 where a value so far was no word, and
/// the tests of its exact values, in their order.
#[derive(Drop)]
pub(crate) struct SampleTerms {
    pub ids: Vec<TermId>,
    pub overflowed: TermId,
    pub tested: Vec<Option<TestedTerm>>,
}

/// The term of the next node of a sample, after those of the nodes before it.
pub(crate) fn node_term(
    terms: &mut Terms,
    net: &Netlist,
    sample: &Sample<'_>,
    made: &SampleTerms,
    node: Node,
) -> Result<NodeTerm, NoMemory>
    requires netlist { IsNetlist net.now }
    requires ready { AreReady net.now sample.now.registers.now sample.now.x terms.old
        made.now.ids.items made.now.overflowed }
    requires below { length made.now.ids.items < length net.now.nodes }
    requires backwards { NamesBelow (length made.now.ids.items) node }
    requires reads { ReadsBelow (length sample.now.registers.now) node }
    ensures built { IfOk result (λ next. node_with terms.new next
        ≡ node_term sample.now.rule net.now sample.now.registers.now sample.now.x terms.old
        made.now.ids.items made.now.overflowed node) }
    ensures tests { IfOk result (λ next. fit_tests node next.tested
        ≡ node_tests sample.now.rule net.now.format terms.old made.now.ids.items node) }
{
    let ids = made.ids.as_slice();
    let i = ids.len() as u32;
    let id = match node {
        Node::Input => sample.x,
        Node::Reg(register) => sample.registers[register as usize],
        Node::MulConst { coeff, of } => {
            let bound = bound_at(net, i);
            product_term(terms, bound, coeff, ids[of as usize])?
        }
        Node::Round(of) => {
            let bound = bound_at(net, of);
            let frac_bits = net.format().frac_bits;
            let addend = addend_at(net, of);
            rounded_term(terms, bound, addend, frac_bits, ids[of as usize])?
        }
        Node::Add(left, right) => {
            let bound = bound_at(net, i);
            sum_term(terms, bound, ids[left as usize], ids[right as usize])?
        }
        Node::Sub(left, right) => {
            let bound = bound_at(net, i);
            difference_term(terms, bound, ids[left as usize], ids[right as usize])?
        }
        Node::Fit(of) => {
            let rule = sample.rule;
            let format = net.format();
            return fitted_term(terms, rule, &format, ids[of as usize], made.overflowed);
        }
        Node::Scale(of) => {
            let bound = bound_at(net, i);
            let frac_bits = net.format().frac_bits;
            scaled_term(terms, bound, frac_bits, ids[of as usize])?
        }
    };
    Ok(NodeTerm {
        id,
        overflowed: made.overflowed,
        tested: None,
    })
}

/// Adds the test of a node that fits a value.
pub(crate) fn put_tested(
    tested: &mut Vec<Option<TestedTerm>>,
    node: &Node,
    entry: Option<TestedTerm>,
) -> Result<(), NoMemory>
    ensures { IfOk result
        (λ u. tested.new.items ≡ tested.old.items ++ fit_tests node.now entry) }
{
    if let Node::Fit(_) = node {
        tested.push(entry)?;
    }
    Ok(())
}
