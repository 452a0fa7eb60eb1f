// The values of the inputs that a model of the formula gives.
ghost use Rattle.std.specs.Prelude.{◌≡◌, ◌<◌, ◌≤◌, length, IfOk};
ghost use Rattle.dsv_cnf.specs.Formula.{IsOver, assignment_of};
ghost use Rattle.dsv_cnf.specs.Literal.{literal_value};
ghost use Rattle.dsv_term.specs.Limits.{max_width};
ghost use Rattle.dsv_blast.specs.Words.{bits_value, number_of};
ghost use Rattle.dsv_blast.specs.Blast.{input_values};

use crate::goal_formula::Blasted;
use dsv_base::{Items, NoMemory};
use dsv_cnf::{Assignment, Lit};
use dsv_term::ValueList;
use std::alloc::Global;

/// Whether a literal is true.
fn is_true(literal: Lit, model: &Assignment) -> bool
    requires { literal.var < length model.now }
    ensures { result ≡ literal_value (assignment_of model.now) literal }
{
    model.get(literal.var()) == literal.is_positive()
}

/// The number that literals spell.
fn number(bits: &[Lit], model: &Assignment) -> u128
    requires over { IsOver (length model.now) bits.now }
    requires narrow { length bits.now ≤ max_width }
    ensures { result ≡ number_of (bits_value (assignment_of model.now) bits.now) }
{
    let mut number: u128 = 0;
    for i in 0..bits.len() {
        let bit = is_true(bits[bits.len() - 1 - i], model);
        number = u128::from(bit) + 2 * number;
    }
    number
}

/// The values that a model of the formula gives the inputs.
pub fn values_of(
    alloc: Global,
    blasted: &Blasted,
    model: &Assignment,
) -> Result<ValueList, NoMemory>
    requires { length model.now ≡ blasted.now.formula.vars }
    ensures { IfOk result
        (λ values. values ≡ input_values blasted.now.inputs (assignment_of model.now)) }
{
    let mut values = Items::new(alloc);
    for i in 0..blasted.inputs.len() {
        values.push(number(blasted.inputs.at(i), model))?;
    }
    Ok(values)
}
