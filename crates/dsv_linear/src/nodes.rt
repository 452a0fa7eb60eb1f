// What a node adds to what is known.
ghost use Rattle.std.specs.Prelude.{◌≡◌, ◌++◌, IfOk};
ghost use Rattle.std.specs.Prelude.{option_to_list, None};
ghost use Rattle.dsv_linear.specs.Forms.{without_symbol};
ghost use Rattle.dsv_linear.specs.Known.{rounded_at, input_entry, form_of, symbol_of};
ghost use Rattle.dsv_linear.specs.Known.{node_entry, after_node, advanced};

use crate::arithmetic::unit;
use crate::fact::Fact;
use crate::form::Form;
use crate::intervals::{node_fact, node_interval};
use crate::options::{copy_of, difference_of, product_of, sum_of};
use crate::point::{Entry, Estimate, Point, Start, form_at};
use crate::powers::one;
use crate::range::Range;
use crate::rounding::rounded_entry;
use dsv_algebra::NarrowInteger;
use dsv_base::{Items, NoMemory};
use dsv_netlist::Node;
use std::alloc::Global;

/// The form of the value of this number, rounded, with its symbol.
fn rounded_at(
    alloc: Global,
    start: &Start,
    point: &Point,
    i: u32,
) -> Result<Option<Entry>, NoMemory>
    ensures { IfOk result (λ entry. entry ≡ rounded_at start.now.format point.now i) }
{
    match form_at(&point.estimates, i) {
        Some(form) => rounded_entry(alloc, &start.format, point.ranges.as_slice(), form),
        None => Ok(None),
    }
}

/// An input from this range, after `count` symbols.
fn input_entry(alloc: Global, input: &Range, count: usize) -> Result<Option<Entry>, NoMemory>
    ensures { IfOk result (λ entry. entry ≡ input_entry input.now count) }
{
    let Some(symbol) = input.scaled_range() else {
        return Ok(None);
    };
    Ok(Some(Entry {
        form: unit(alloc, count)?,
        symbol: Some(symbol),
    }))
}

/// A form that brings no symbol.
fn without_symbol(form: Option<Form>) -> Option<Entry>
    ensures { result ≡ without_symbol form }
{
    Some(Entry {
        form: form?,
        symbol: None,
    })
}

/// The form of what a node gives, and its symbol.
fn node_entry(
    alloc: Global,
    start: &Start,
    point: &Point,
    node: &Node,
) -> Result<Option<Entry>, NoMemory>
    ensures { IfOk result (λ entry. entry ≡ node_entry start.now point.now node.now) }
{
    let known = &point.estimates;
    let form = match node {
        Node::Input => return input_entry(alloc, &start.input, point.ranges.len()),
        Node::Round(of) => return rounded_at(alloc, start, point, *of),
        Node::Reg(register) => copy_of(alloc, form_at(&start.registers, *register))?,
        Node::MulConst { coeff, of } => {
            product_of(alloc, NarrowInteger::from(*coeff), form_at(known, *of))?
        }
        Node::Add(left, right) => sum_of(alloc, form_at(known, *left), form_at(known, *right))?,
        Node::Sub(left, right) => {
            difference_of(alloc, form_at(known, *left), form_at(known, *right))?
        }
        Node::Fit(of) => copy_of(alloc, form_at(known, *of))?,
        Node::Scale(of) => product_of(alloc, one(&start.format), form_at(known, *of))?,
    };
    Ok(without_symbol(form))
}

/// What a node adds, where it is known.
fn split_entry(entry: Option<Entry>) -> (Option<Form>, Option<Range>)
    ensures form { result.0 ≡ form_of entry }
    ensures symbol { result.1 ≡ symbol_of entry }
{
    match entry {
        Some(entry) => (Some(entry.form), entry.symbol),
        None => (None, None),
    }
}

/// The list with an item more, if there is one.
fn push_some<T: Drop>(list: &mut Items<T>, item: Option<T>) -> Result<(), NoMemory>
    ensures { IfOk result (λ u. list.new ≡ list.old ++ option_to_list item) }
{
    match item {
        Some(item) => list.push(item),
        None => Ok(()),
    }
}

impl Point {
    /// Adds what a node gives.
    fn advance(
        &mut self,
        entry: Option<Entry>,
        interval: Option<Range>,
        fact: Option<Fact>,
    ) -> Result<(), NoMemory>
        ensures { IfOk result (λ u. self.new ≡ advanced self.old entry interval fact) }
    {
        let (form, symbol) = split_entry(entry);
        self.estimates.push(Estimate { form, interval })?;
        push_some(&mut self.ranges, symbol)?;
        push_some(&mut self.facts, fact)
    }
}

/// Adds what a node gives to what is known.
pub(crate) fn add_node(
    alloc: Global,
    start: &Start,
    point: &mut Point,
    node: &Node,
) -> Result<(), NoMemory>
    ensures { IfOk result (λ u. point.new ≡ after_node start.now point.old node.now) }
{
    let entry = node_entry(alloc, start, point, node)?;
    let interval = node_interval(start, point, node);
    let fact = node_fact(&start.format, point, node);
    point.advance(entry, interval, fact)
}
