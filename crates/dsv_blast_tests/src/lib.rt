//! Tests of the formulas of goals: the values that a model of one spells. That a formula is
//! satisfied exactly where the goal's root is 1 is a clause of `blast`; what terms stand for is
//! tested in `dsv_logic_tests`, and formulas are solved in `dsv_bounded_tests`.
#![tactic(auto)]

#[cfg(test)]
mod nodes;
