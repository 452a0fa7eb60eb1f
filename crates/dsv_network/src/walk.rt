// A sample node by node: forms, weights, and the ranges of symbols.
ghost use Rattle.std.specs.Prelude.{◌≡◌, ◌<◌, ◌≤◌, ◌^◌, length, pos, true, MatchOption, IfOk};
ghost use Rattle.std.specs.Prelude.{unsigned_abs, option_map};
ghost use Rattle.std.specs.Prelude.{◌<ℤ◌};
ghost use Rattle.dsv_word.specs.Width.{widest_word};
ghost use Rattle.dsv_algebra.specs.Floor.{floor_of};
ghost use Rattle.dsv_netlist.specs.Nodes.{at};
ghost use Rattle.dsv_linear.specs.Forms.{lower, upper};
ghost use Rattle.dsv_network.specs.Samples.{form_at, owned, outer_form, is_lawful, step_of};
ghost use Rattle.dsv_network.specs.Samples.{quotient_form, near_at, node_form};
ghost use Rattle.dsv_network.specs.Samples.{no_weights, old_weights, shown_at, left_over_at};
ghost use Rattle.dsv_network.specs.Samples.{node_weights, widened, loss_divisor, symbol_range};
ghost use Rattle.dsv_network.specs.Samples.{error_symbol, node_ranges};
ghost use Rattle.dsv_network.specs.Samples.{own_after, own_limit, after_node, begun};

use crate::pass::Pass;
use crate::ranges::{Ranges, hull, scaled_range};
use crate::signal::{NearQuotient, Signal};
use crate::weights::Weights;
use dsv_algebra::NarrowInteger;
use dsv_base::{Items, NoMemory};
use dsv_linear::{Form, Range, copy_of, difference_of, power, product_of, step, sum_of, unit};
use dsv_word::WIDEST_WORD;
use std::alloc::Global;

/// No symbol has a number from there on.
const OWN_LIMIT: usize = 1 << 32;

/// How far a sample has come: the forms and the weights of the values of its nodes so far, the
/// ranges of all symbols, and the number of the next symbol that a node brings.
#[derive(Drop)]
pub(crate) struct Walk {
    pub forms: Items<Form>,
    pub weights: Items<Weights>,
    pub ranges: Ranges,
    pub own: usize,
}

/// The form of this number, where there is one.
pub(crate) fn form_at(forms: &Items<Form>, i: u32) -> Option<&Form>
    ensures { option_map (λ form. form.now) result ≡ form_at forms.now i }
{
    let forms = forms.as_slice();
    if (i as usize) < forms.len() {
        Some(&forms[i as usize])
    } else {
        None
    }
}

/// The form of an outer signal, whose symbol is of this number.
fn outer_form(alloc: Global, is_first: bool, own: usize) -> Result<Form, NoMemory>
    ensures { IfOk result (λ form. form ≡ outer_form is_first own) }
{
    if is_first {
        unit(alloc, own)
    } else {
        Ok(Form::new(alloc))
    }
}

/// Whether a quotient's divisor is positive, and its error has no more bits after the point than a
/// word.
fn is_lawful(near: &NearQuotient) -> bool
    ensures { result ≡ is_lawful near.now }
{
    0 < near.divisor && near.bits <= WIDEST_WORD
}

/// The coefficient of an error in the quotient that brings it.
fn step_of(near: &NearQuotient) -> i64
    requires { near.now.bits ≤ widest_word }
    ensures value { result ≡ pos (step_of near.now) }
    ensures positive { 0 < step_of near.now }
    ensures small { step_of near.now ≤ 2 ^ 53 }
{
    step(power(near.bits))
}

/// The quotient of a number by a positive one, rounded down.
fn lower_number(v: NarrowInteger, d: u64) -> NarrowInteger
    requires { 0 < d }
    ensures { result ≡ floor_of v d }
{
    NarrowInteger::from(v.get().div_euclid(i128::from(d)))
}

/// The coefficient of a symbol in a quotient, where its own symbol has this number.
fn quotient_at(
    is_first: bool,
    own: usize,
    near: &NearQuotient,
    form: &Form,
    j: usize,
) -> NarrowInteger
    requires divisor { 0 < near.now.divisor }
    requires bits { near.now.bits ≤ widest_word }
    ensures { result ≡ owned is_first own j (pos (step_of near.now))
        (floor_of (at form.now j) near.now.divisor) }
{
    if is_first && j == own {
        NarrowInteger::from(step_of(near))
    } else {
        lower_number(form.coefficient(j), near.divisor)
    }
}

/// The form of a quotient, whose own symbol has this number.
fn quotient_form(
    alloc: Global,
    pass: &Pass,
    own: usize,
    near: &NearQuotient,
    form: &Form,
) -> Result<Option<Form>, NoMemory>
    ensures { IfOk result (λ list. list
        ≡ quotient_form pass.now.is_first (length pass.now.ranges) own near.now form.now) }
{
    if !is_lawful(near) {
        return Ok(None);
    }
    let mut list = Items::new(alloc);
    for j in 0..pass.ranges.len() {
        let Some(entry) = quotient_at(pass.is_first, own, near, form, j).narrow_number() else {
            return Ok(None);
        };
        list.push(entry)?;
    }
    Ok(Some(Form::from_wide(alloc, list)))
}

/// The ranges, of which this one is the least that holds it and another.
fn widened_ranges(ranges: Ranges, j: usize, range: &Range) -> Ranges
    ensures { result ≡ widened ranges j range.now }
{
    let mut list = ranges.into_vec();
    if j < list.len() {
        list[j] = hull(&list[j], range);
    }
    Ranges::from(list)
}

/// What a symbol's range is lost by, for each unit of what is left of the coefficients.
fn loss_divisor(near: &NearQuotient) -> i128
    requires divisor { 0 < near.now.divisor }
    requires bits { near.now.bits ≤ widest_word }
    ensures value { result ≡ pos (loss_divisor near.now) }
    ensures positive { 0 < loss_divisor near.now }
{
    i128::from(near.divisor) * i128::from(step_of(near))
}

/// The quotient by a positive number, rounded down.
fn lower_quotient(v: NarrowInteger, d: i128) -> Option<NarrowInteger>
    requires { pos 0 <ℤ d }
    ensures { result ≡ lower v (unsigned_abs d) }
{
    NarrowInteger::from(v.get().div_euclid(d)).narrow_number()
}

/// The quotient by a positive number, rounded up.
fn upper_quotient(v: NarrowInteger, d: i128) -> Option<NarrowInteger>
    requires { pos 0 <ℤ d }
    ensures { result ≡ upper v (unsigned_abs d) }
{
    let sum = v.checked_add(NarrowInteger::from(d - 1))?;
    lower_quotient(sum, d)
}

/// The range of the symbol of a quotient, where these are the extreme sums of what is left.
fn symbol_range(near: &NearQuotient, sums: &Range) -> Option<Range>
    requires { is_lawful near.now ≡ true }
    ensures { result ≡ symbol_range near.now sums.now }
{
    let d = loss_divisor(near);
    let low = lower_quotient(sums.low, d)?;
    let high = upper_quotient(sums.high, d)?;
    let errors = scaled_range(&near.errors)?;
    Some(Range {
        low: errors.low.checked_add(low)?,
        high: errors.high.checked_add(high)?,
    })
}

/// The range of the symbol of a quotient: its error, and what the coefficients lose.
fn error_symbol(near: &NearQuotient, ranges: &[Range], weights: &Weights) -> Option<Range>
    requires { is_lawful near.now ≡ true }
    ensures { result ≡ error_symbol near.now ranges.now weights.now }
{
    symbol_range(near, &weights.sums_from(ranges, 0)?)
}

/// The ranges of all symbols after a node, whose symbol has this number where it brings one.
fn node_ranges(ranges: Ranges, own: usize, weights: &Weights, node: &Signal) -> Option<Ranges>
    ensures { result ≡ node_ranges ranges own weights.now node.now }
{
    match node {
        Signal::Near(near) => {
            if !is_lawful(near) {
                return None;
            }
            let symbol = error_symbol(near, ranges.as_slice(), weights)?;
            Some(widened_ranges(ranges, own, &symbol))
        }
        _ => Some(ranges),
    }
}

/// The number of the next symbol after a node.
fn own_after(own: usize, node: &Signal) -> usize
    requires { own < own_limit }
    ensures { result ≡ own_after own node.now }
{
    match node {
        Signal::Outer(_) | Signal::Near(_) => own + 1,
        _ => own,
    }
}

impl Walk {
    /// Before a sample's first node.
    pub(crate) fn begin(alloc: Global, pass: &Pass) -> Result<Walk, NoMemory>
        ensures { IfOk result (λ walk. walk ≡ begun pass.now) }
    {
        Ok(Walk {
            forms: Items::new(alloc),
            weights: Items::new(alloc),
            ranges: Items::from_slice(alloc, pass.ranges.as_slice())?,
            own: pass.count,
        })
    }

    /// The form of a quotient.
    fn near_at(
        &self,
        alloc: Global,
        pass: &Pass,
        near: &NearQuotient,
    ) -> Result<Option<Form>, NoMemory>
        ensures { IfOk result (λ form. form ≡ near_at pass.now self.now near.now) }
    {
        let Some(form) = form_at(&self.forms, near.of) else {
            return Ok(None);
        };
        quotient_form(alloc, pass, self.own, near, form)
    }

    /// The form of what a node gives.
    fn node_form(&self, alloc: Global, pass: &Pass, node: &Signal) -> Result<Option<Form>, NoMemory>
        ensures { IfOk result (λ form. form ≡ node_form pass.now self.now node.now) }
    {
        let forms = &self.forms;
        match node {
            Signal::Outer(_) => Ok(Some(outer_form(alloc, pass.is_first, self.own)?)),
            Signal::Register(register) => copy_of(alloc, form_at(&pass.registers, *register)),
            Signal::Product { coeff, of } => product_of(alloc, *coeff, form_at(forms, *of)),
            Signal::Sum(left, right) => sum_of(
                alloc,
                form_at(forms, *left),
                form_at(forms, *right),
            ),
            Signal::Difference(left, right) => {
                difference_of(alloc, form_at(forms, *left), form_at(forms, *right))
            }
            Signal::Near(near) => self.near_at(alloc, pass, near),
            Signal::Checked(of) | Signal::Shown(of) => copy_of(alloc, form_at(forms, *of)),
        }
    }

    /// The weights of the next value in the samples before.
    fn old_weights<'a>(&self, pass: &'a Pass) -> Option<&'a Weights>
        ensures { MatchOption result (no_weights ≡ old_weights pass.now self.now)
            (λ weights. weights.now ≡ old_weights pass.now self.now) }
    {
        pass.weights.as_slice().get(self.forms.len())
    }

    /// The weights of a value that is shown.
    fn shown_at(&self, alloc: Global, pass: &Pass, i: u32) -> Result<Option<Weights>, NoMemory>
        ensures { IfOk result (λ weights. weights ≡ shown_at pass.now self.now i) }
    {
        let Some(form) = form_at(&self.forms, i) else {
            return Ok(None);
        };
        match self.old_weights(pass) {
            Some(old) => old.shown_weights(alloc, pass, form),
            None => Weights::none(alloc).shown_weights(alloc, pass, form),
        }
    }

    /// The weights of a value that is divided.
    fn left_over_at(
        &self,
        alloc: Global,
        pass: &Pass,
        near: &NearQuotient,
    ) -> Result<Option<Weights>, NoMemory>
        ensures { IfOk result (λ weights. weights ≡ left_over_at pass.now self.now near.now) }
    {
        if !is_lawful(near) {
            return Ok(None);
        }
        let Some(form) = form_at(&self.forms, near.of) else {
            return Ok(None);
        };
        match self.old_weights(pass) {
            Some(old) => old.left_over(alloc, pass, near.divisor, form),
            None => Weights::none(alloc).left_over(alloc, pass, near.divisor, form),
        }
    }

    /// The weights of what a node gives, over all samples so far.
    fn node_weights(
        &self,
        alloc: Global,
        pass: &Pass,
        node: &Signal,
    ) -> Result<Option<Weights>, NoMemory>
        ensures { IfOk result (λ weights. weights ≡ node_weights pass.now self.now node.now) }
    {
        match node {
            Signal::Near(near) => self.left_over_at(alloc, pass, near),
            Signal::Checked(of) | Signal::Shown(of) => self.shown_at(alloc, pass, *of),
            _ => Ok(Some(Weights::none(alloc))),
        }
    }

    /// With what one node gives more, where its numbers are narrow.
    pub(crate) fn with_node(
        self,
        alloc: Global,
        pass: &Pass,
        node: &Signal,
    ) -> Result<Option<Walk>, NoMemory>
        ensures { IfOk result (λ walk. walk ≡ after_node pass.now self node.now) }
    {
        if OWN_LIMIT <= self.own {
            return Ok(None);
        }
        let Some(form) = self.node_form(alloc, pass, node)? else {
            return Ok(None);
        };
        let Some(weights) = self.node_weights(alloc, pass, node)? else {
            return Ok(None);
        };
        let own = own_after(self.own, node);
        let Some(ranges) = node_ranges(self.ranges, self.own, &weights, node) else {
            return Ok(None);
        };
        let mut walk = Walk {
            forms: self.forms,
            weights: self.weights,
            ranges,
            own,
        };
        walk.forms.push(form)?;
        walk.weights.push(weights)?;
        Ok(Some(walk))
    }
}
