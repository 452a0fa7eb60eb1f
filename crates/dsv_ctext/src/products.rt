// The comments on products: the numbers that their words stand for.
#![tactic(auto, using(dsv_algebra::proofs::Casts::casts))]

ghost use Rattle.std.specs.Prelude.{◌≡◌, ◌<◌, ◌≤◌, ◌^◌, ◌++◌, ◌||◌, length, pos, codes};
ghost use Rattle.std.specs.Prelude.{option_to_list};
ghost use Rattle.dsv_base.specs.Taking.{Writes};
ghost use Rattle.dsv_c.specs.Programs.{codes_of, code_at};
ghost use Rattle.dsv_ctext.specs.Comments.{millionths, digit_at, millionths_text, sign_text};
ghost use Rattle.dsv_ctext.specs.Comments.{value_text, separator, values_text, coefficients_of};
ghost use Rattle.dsv_ctext.specs.Comments.{comment_text, commented_end};
ghost use Rattle.dsv_ctext.specs.Plans.{IsPlan, has_values, node_factor};

use crate::fragments::{Fragment, put_fragments};
use crate::nodes::{Arity, Plan, node_at, operands_of};
use dsv_base::{Failed, Sink, put_all};
use dsv_netlist::{Netlist, Node};

/// The size of a word's number in millionths, rounded, a half up; the word has so many bits after
/// the point.
#[tactic(auto, using(crate::proofs::Powers::power_small))]
fn millionths(bits: u32, coeff: &i64) -> u128
    requires { bits ≤ 48 }
    ensures value { result ≡ millionths bits coeff.now }
    ensures small { result < 2 ^ 84 }
{
    let unit = 1u128 << bits;
    (u128::from(coeff.unsigned_abs()) * 1_000_000 + unit / 2) / unit
}

/// The digit of this number at this power of ten.
fn digit_at(number: u128, power: u128) -> u8
    requires { 0 < power }
    ensures { result ≡ digit_at number power }
{
    b'0' + (number / power % 10) as u8
}

/// Writes millionths as a decimal.
fn put_millionths<K: Sink>(sink: &mut K, number: u128) -> Result<(), Failed>
    requires { number < 2 ^ 84 }
    ensures { Writes (K.seen sink.old) (K.seen sink.new) result (millionths_text number) }
{
    put_fragments(
        sink,
        &[
            Fragment::Number((number / 1_000_000) as i128),
            Fragment::Bytes(b"."),
            Fragment::Byte(digit_at(number, 100_000)),
            Fragment::Byte(digit_at(number, 10_000)),
            Fragment::Byte(digit_at(number, 1_000)),
            Fragment::Byte(digit_at(number, 100)),
            Fragment::Byte(digit_at(number, 10)),
            Fragment::Byte(digit_at(number, 1)),
        ],
    )
}

/// The sign before a number.
fn sign_text(coeff: &i64) -> &'static [u8]
    ensures { result.now ≡ sign_text coeff.now }
{
    if *coeff < 0 { b"-" } else { b"" }
}

/// Writes the number that a word stands for.
fn put_number_of<K: Sink>(sink: &mut K, bits: u32, coeff: &i64) -> Result<(), Failed>
    requires { bits ≤ 48 }
    ensures { Writes (K.seen sink.old) (K.seen sink.new) result (value_text bits coeff.now) }
{
    put_all(sink, sign_text(coeff))?;
    put_millionths(sink, millionths(bits, coeff))
}

/// What stands before a number: the first of a comment, or another.
fn separator(started: bool) -> &'static [u8]
    ensures { result.now ≡ separator started }
{
    if started { b", " } else { b" /* " }
}

/// The word that stands for 1, of words with so many bits after the point.
#[tactic(auto, using(crate::proofs::Powers::power_small))]
fn one_word(bits: u32) -> i64
    requires { bits ≤ 48 }
    ensures { result ≡ pos (2 ^ bits) }
{
    1i64 << bits
}

/// The coefficient of a node that is a product.
fn node_factor(net: &Netlist, node: &Node) -> Option<i64>
    ensures { option_to_list result ≡ node_factor net.now node.now }
{
    match node {
        Node::MulConst { coeff, .. } => Some(*coeff),
        Node::Scale(_) => Some(one_word(net.format().frac_bits)),
        _ => None,
    }
}

/// Writes the number of a coefficient, if there is one.
fn put_factor<K: Sink>(
    sink: &mut K,
    bits: u32,
    factor: &Option<i64>,
    started: bool,
) -> Result<(), Failed>
    requires { bits ≤ 48 }
    ensures { Writes (K.seen sink.old) (K.seen sink.new) result
        (values_text bits started (option_to_list factor.now)) }
{
    match factor {
        Some(coeff) => {
            put_all(sink, separator(started))?;
            put_number_of(sink, bits, coeff)
        }
        None => Ok(()),
    }
}

/// Whether either holds.
fn either(left: bool, right: bool) -> bool
    ensures { result ≡ (left || right) }
{
    left || right
}

/// Whether there is a coefficient.
fn has_factor(factor: &Option<i64>) -> bool
    ensures { result ≡ has_values (option_to_list factor.now) }
{
    match factor {
        Some(_) => true,
        None => false,
    }
}

/// Whether there is a product in a node's expression.
fn has_products(plan: &Plan, i: u32) -> bool
    requires plan { IsPlan plan.now.net.now plan.now.types.now plan.now.locals.now }
    requires there { i < length plan.now.net.now.nodes }
    ensures { result ≡ has_values (coefficients_of (code_at (codes_of plan.now.net.now) i).expr) }
{
    let node = node_at(plan.net, i);
    let operands = operands_of(node);
    match operands.arity {
        Arity::None => false,
        Arity::One => {
            let factor = node_factor(plan.net, &node);
            let own = has_factor(&factor);
            either(own, has_products(plan, operands.left))
        }
        Arity::Two => {
            let first = has_products(plan, operands.left);
            either(first, has_products(plan, operands.right))
        }
    }
}

/// Writes the numbers of the products in a node's expression, some of which may stand before them.
fn put_products<K: Sink>(sink: &mut K, plan: &Plan, i: u32, started: bool) -> Result<(), Failed>
    requires plan { IsPlan plan.now.net.now plan.now.types.now plan.now.locals.now }
    requires there { i < length plan.now.net.now.nodes }
    ensures { Writes (K.seen sink.old) (K.seen sink.new) result
        (values_text plan.now.names.remarks.format.frac_bits started
        (coefficients_of (code_at (codes_of plan.now.net.now) i).expr)) }
{
    let bits = plan.names.remarks.format.frac_bits;
    let node = node_at(plan.net, i);
    let operands = operands_of(node);
    match operands.arity {
        Arity::None => Ok(()),
        Arity::One => {
            let factor = node_factor(plan.net, &node);
            put_factor(sink, bits, &factor, started)?;
            let later = either(started, has_factor(&factor));
            put_products(sink, plan, operands.left, later)
        }
        Arity::Two => {
            put_products(sink, plan, operands.left, started)?;
            let later = either(started, has_products(plan, operands.left));
            put_products(sink, plan, operands.right, later)
        }
    }
}

/// Writes the comment on the products in a node's expression, if there are any.
fn put_comment<K: Sink>(sink: &mut K, plan: &Plan, i: u32) -> Result<(), Failed>
    requires plan { IsPlan plan.now.net.now plan.now.types.now plan.now.locals.now }
    requires there { i < length plan.now.net.now.nodes }
    ensures { Writes (K.seen sink.old) (K.seen sink.new) result
        (comment_text plan.now.names.remarks.format.frac_bits
        (coefficients_of (code_at (codes_of plan.now.net.now) i).expr)) }
{
    if has_products(plan, i) {
        put_products(sink, plan, i, false)?;
        put_all(sink, b" */")
    } else {
        Ok(())
    }
}

/// Writes the end of the line of a local that fits a node's value.
pub(crate) fn put_fit_end<K: Sink>(sink: &mut K, plan: &Plan, i: u32) -> Result<(), Failed>
    requires plan { IsPlan plan.now.net.now plan.now.types.now plan.now.locals.now }
    requires there { i < length plan.now.net.now.nodes }
    ensures { Writes (K.seen sink.old) (K.seen sink.new) result
        (codes ")" ++ commented_end plan.now.names.remarks.format.frac_bits
        (code_at (codes_of plan.now.net.now) i).expr) }
{
    put_all(sink, b");")?;
    put_comment(sink, plan, i)?;
    put_all(sink, b"\n")
}
