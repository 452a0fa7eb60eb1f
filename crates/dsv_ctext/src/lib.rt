//! The text of the C of a netlist: written, and read as expressions.
#![tactic(auto)]

mod emit;
mod fragments;
mod functions;
mod grammar;
mod lines;
mod names;
mod nodes;
mod products;
mod remarks;
mod test_main;
mod types;

pub use emit::put_program;
pub use grammar::{expressions_are_spelled, expressions_read_back};
pub use names::{Labels, MemberName};
pub use remarks::{Origin, Remarks};
pub use test_main::put_test;
