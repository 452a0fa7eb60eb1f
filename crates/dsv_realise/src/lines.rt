// The nodes of lines.
//
// A line's summands are the same in both ways of summing. In words each product has a node, its
// rounding and its fit, and each sum a node and its fit; in a wide accumulator products and scaled
// words are summed as they are, and the total is rounded and fitted.
#![tactic(auto, using(dsv_algebra::proofs::Casts::casts))]

ghost use Rattle.std.specs.Prelude.{◌≡◌, ◌+◌, ◌*◌, ◌^◌, ◌<◌, ◌≤◌, length, IfOk, true};
ghost use Rattle.dsv_meaning.specs.declared.summands.TheConstants.{MOST_SUMMANDS};
ghost use Rattle.dsv_meaning.specs.Lines.{has_product};
ghost use Rattle.dsv_realise.specs.Making.{made_at, put, with_product, sum_node, with_sum};
ghost use Rattle.dsv_realise.specs.Making.{with_first};
ghost use Rattle.dsv_realise.specs.Making.{with_next, with_summands, with_narrow_line};
ghost use Rattle.dsv_realise.specs.Making.{exact_node, is_away};
ghost use Rattle.dsv_realise.specs.Making.{with_next_exact};
ghost use Rattle.dsv_realise.specs.Making.{with_exact_summands, with_total};
ghost use Rattle.dsv_realise.specs.Making.{first_place, with_wide_line, line_nodes};
ghost use Rattle.dsv_realise.specs.Parts.{begins_added};

use crate::nodes::put;
use crate::summands::Summands;
use dsv_base::NoMemory;
use dsv_meaning::Summand;
use dsv_netlist::Node;
use dsv_quantiser::Quantised;

/// The nodes of a product.
fn product(nodes: &mut Vec<Node>, coeff: i64, of: u32) -> Result<u32, NoMemory>
    requires { length nodes.old.items < 2 ^ 19 }
    ensures made { IfOk result (λ place. made_at nodes.new.items place
        ≡ with_product nodes.old.items coeff of) }
    ensures few { IfOk result (λ place. length nodes.new.items ≡ length nodes.old.items + 3) }
{
    let multiplied = put(nodes, Node::MulConst { coeff, of })?;
    let rounded = put(nodes, Node::Round(multiplied))?;
    put(nodes, Node::Fit(rounded))
}

/// The node of a sum, or of a difference.
fn sum_node(away: bool, left: u32, right: u32) -> Node
    ensures { result ≡ sum_node away left right }
{
    if away {
        Node::Sub(left, right)
    } else {
        Node::Add(left, right)
    }
}

/// The nodes of a sum, or of a difference.
fn sum(nodes: &mut Vec<Node>, away: bool, left: u32, right: u32) -> Result<u32, NoMemory>
    requires { length nodes.old.items < 2 ^ 19 }
    ensures made { IfOk result (λ place. made_at nodes.new.items place
        ≡ with_sum away nodes.old.items left right) }
    ensures few { IfOk result (λ place. length nodes.new.items ≡ length nodes.old.items + 2) }
{
    let summed = put(nodes, sum_node(away, left, right))?;
    put(nodes, Node::Fit(summed))
}

/// A line's first summand.
fn first_summand(nodes: &mut Vec<Node>, summand: Summand<u32>) -> Result<u32, NoMemory>
    requires { length nodes.old.items < 2 ^ 18 }
    ensures made { IfOk result (λ place. made_at nodes.new.items place ≡
        with_first nodes.old.items summand) }
    ensures few { IfOk result (λ place. length nodes.new.items ≤ length nodes.old.items + 3) }
{
    match summand {
        Summand::Times {
            away: _,
            coeff,
            word,
        } => product(nodes, coeff, word),
        Summand::Alone { word } => Ok(word),
    }
}

/// A summand more in a line.
fn next_summand(nodes: &mut Vec<Node>, line: u32, summand: Summand<u32>) -> Result<u32, NoMemory>
    requires { length nodes.old.items < 2 ^ 18 }
    ensures made { IfOk result (λ place. made_at nodes.new.items place ≡
        with_next (made_at nodes.old.items line) summand) }
    ensures few { IfOk result (λ place. length nodes.new.items ≤ length nodes.old.items + 5) }
{
    match summand {
        Summand::Times { away, coeff, word } => {
            let factor = product(nodes, coeff, word)?;
            sum(nodes, away, line, factor)
        }
        Summand::Alone { word } => sum(nodes, false, line, word),
    }
}

/// Summands more in a line, one after another.
fn next_summands(
    nodes: &mut Vec<Node>,
    line: u32,
    summands: &[Summand<u32>],
) -> Result<u32, NoMemory>
    requires few { length nodes.old.items < 2 ^ 16 }
    requires short { length summands.now ≤ MOST_SUMMANDS }
    ensures made { IfOk result (λ place. made_at nodes.new.items place ≡
        with_summands (made_at nodes.old.items line) summands.now) }
    ensures few { IfOk result (λ place. length nodes.new.items
        ≤ length nodes.old.items + 5 * length summands.now) }
{
    let mut place = line;
    for summand in summands {
        place = next_summand(nodes, place, *summand)?;
    }
    Ok(place)
}

/// The nodes of a line of at most `MOST_SUMMANDS` summands that is summed in words, after fewer
/// than 2^15 nodes; answers the number of the one that has its value.
pub fn narrow_line(nodes: &mut Vec<Node>, summands: &[Summand<u32>]) -> Result<u32, NoMemory>
    requires few { length nodes.old.items < 2 ^ 15 }
    requires short { length summands.now ≤ MOST_SUMMANDS }
    ensures made { IfOk result (λ place. made_at nodes.new.items place ≡
        with_narrow_line nodes.old.items summands.now) }
    ensures few { IfOk result (λ place. length nodes.new.items
        ≤ length nodes.old.items + 5 * length summands.now) }
{
    match summands.first() {
        Some(first) => {
            let line = first_summand(nodes, *first)?;
            next_summands(nodes, line, summands.split_at(1).1)
        }
        None => Ok(0),
    }
}

/// The node of what a summand adds to the total or takes away.
fn exact_node(summand: Summand<u32>) -> Node
    ensures { result ≡ exact_node summand }
{
    match summand {
        Summand::Times {
            away: _,
            coeff,
            word,
        } => Node::MulConst { coeff, of: word },
        Summand::Alone { word } => Node::Scale(word),
    }
}

/// Whether a summand is taken away.
fn is_away(summand: Summand<u32>) -> bool
    ensures { result ≡ is_away summand }
{
    match summand {
        Summand::Times { away, .. } => away,
        Summand::Alone { .. } => false,
    }
}

/// A summand more in a total.
fn next_exact(nodes: &mut Vec<Node>, total: u32, summand: Summand<u32>) -> Result<u32, NoMemory>
    requires { length nodes.old.items < 2 ^ 18 }
    ensures made { IfOk result (λ place. made_at nodes.new.items place ≡
        with_next_exact (made_at nodes.old.items total) summand) }
    ensures few { IfOk result (λ place. length nodes.new.items ≡ length nodes.old.items + 2) }
{
    let term = put(nodes, exact_node(summand))?;
    put(nodes, sum_node(is_away(summand), total, term))
}

/// Summands more in a total, one after another.
fn next_exacts(
    nodes: &mut Vec<Node>,
    total: u32,
    summands: &[Summand<u32>],
) -> Result<u32, NoMemory>
    requires few { length nodes.old.items < 2 ^ 16 }
    requires short { length summands.now ≤ MOST_SUMMANDS }
    ensures made { IfOk result (λ place. made_at nodes.new.items place ≡
        with_exact_summands (made_at nodes.old.items total) summands.now) }
    ensures few { IfOk result (λ place. length nodes.new.items
        ≡ length nodes.old.items + 2 * length summands.now) }
{
    let mut place = total;
    for summand in summands {
        place = next_exact(nodes, place, *summand)?;
    }
    Ok(place)
}

/// The nodes of a line's total, whose first summand isn't taken away.
fn total(nodes: &mut Vec<Node>, summands: &[Summand<u32>]) -> Result<u32, NoMemory>
    requires few { length nodes.old.items < 2 ^ 15 }
    requires short { length summands.now ≤ MOST_SUMMANDS }
    requires added { begins_added summands.now ≡ true }
    ensures made { IfOk result (λ place. made_at nodes.new.items place ≡
        with_total nodes.old.items summands.now) }
    ensures few { IfOk result (λ place. length nodes.new.items
        ≤ length nodes.old.items + 2 * length summands.now) }
{
    match summands.first() {
        Some(first) => {
            let place = put(nodes, exact_node(*first))?;
            next_exacts(nodes, place, summands.split_at(1).1)
        }
        None => Ok(0),
    }
}

/// Whether one of the summands is a product.
fn has_product(summands: &[Summand<u32>]) -> bool
    ensures { result ≡ has_product summands.now }
{
    for summand in summands {
        if let Summand::Times { .. } = summand {
            return true;
        }
    }
    false
}

/// The node of a word that stands first.
fn first_place(summands: &[Summand<u32>]) -> u32
    ensures { result ≡ first_place summands.now }
{
    match summands.first() {
        Some(Summand::Alone { word }) => *word,
        _ => 0,
    }
}

/// The nodes of a line that is summed in a wide accumulator.
fn wide_line(nodes: &mut Vec<Node>, summands: &[Summand<u32>]) -> Result<u32, NoMemory>
    requires few { length nodes.old.items < 2 ^ 15 }
    requires short { length summands.now ≤ MOST_SUMMANDS }
    requires added { begins_added summands.now ≡ true }
    ensures made { IfOk result (λ place. made_at nodes.new.items place ≡
        with_wide_line nodes.old.items summands.now) }
    ensures few { IfOk result (λ place. length nodes.new.items
        ≤ length nodes.old.items + 2 * length summands.now + 2) }
{
    if has_product(summands) {
        let total = total(nodes, summands)?;
        let rounded = put(nodes, Node::Round(total))?;
        put(nodes, Node::Fit(rounded))
    } else {
        Ok(first_place(summands))
    }
}

/// The nodes of a line; answers the number of the one that has its value.
pub(crate) fn line(
    nodes: &mut Vec<Node>,
    quantised: &Quantised,
    summands: &Summands,
) -> Result<u32, NoMemory>
    requires few { length nodes.old.items < 2 ^ 15 }
    requires some { 1 ≤ length summands.now.items }
    requires added { begins_added summands.now.items ≡ true }
    ensures made { IfOk result (λ place. made_at nodes.new.items place ≡
        line_nodes quantised.now nodes.old.items summands.now.items) }
    ensures few { IfOk result (λ place. length nodes.new.items
        ≤ length nodes.old.items + 5 * length summands.now.items) }
{
    let summands = summands.as_slice();
    if quantised.is_wide() {
        wide_line(nodes, summands)
    } else {
        narrow_line(nodes, summands)
    }
}
