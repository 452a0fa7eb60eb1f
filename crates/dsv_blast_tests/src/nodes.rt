// The values of inputs that a model of a goal's formula spells.
use dsv_blast::{Blasted, blast, values_of};
use dsv_cnf::Assignment;
use dsv_term::{Goal, Terms};
use std::alloc::Global;

/// The goal that an input of three bits is less than one of two bits.
fn goal_of(alloc: Global) -> Option<Goal> {
    let mut terms = Terms::new(alloc);
    let first = terms.input(3).ok()?;
    let second = terms.input(2).ok()?;
    let wider = terms.sext(second, 3).ok()?;
    let root = terms.slt(first, wider).ok()?;
    Goal::new(alloc, terms, root).ok()
}

/// Gives a variable a value, where the model has it.
fn put(model: &mut Assignment, var: u32, value: bool) {
    if var < model.vars() {
        model.set(var, value);
    }
}

/// The assignment in which bits 0 and 2 of the first input are 1, and bit 1 of the second.
fn model_of(alloc: Global, vars: u32) -> Option<Assignment> {
    let mut model = Assignment::new(alloc, vars).ok()?;
    put(&mut model, 0, true);
    put(&mut model, 2, true);
    put(&mut model, 4, true);
    Some(model)
}

/// Whether the formula's inputs have these values in that assignment.
fn has_values(alloc: Global, blasted: &Blasted, values: &[u128]) -> Option<bool> {
    let model = model_of(alloc, blasted.formula.vars())?;
    if model.vars() != blasted.formula.vars() {
        return None;
    }
    let found = values_of(alloc, blasted, &model).ok()?;
    Some(found.as_slice() == values)
}

fn is_read(alloc: Global) -> Option<bool> {
    let goal = goal_of(alloc)?;
    let blasted = blast(alloc, &goal).ok()?;
    has_values(alloc, &blasted, &[5, 2])
}

#[test]
fn reads_the_values_of_a_model(rt: HostRuntime) {
    assert!(rt; is_read(rt.alloc()) == Some(true));
}
