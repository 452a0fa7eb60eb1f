//! Formulas in conjunctive normal form: literals, sets of literals, clauses in one list, truth
//! assignments, and the DIMACS text.
#![tactic(auto)]

mod assignment;
mod dimacs;
mod formula;
mod law;
mod literal;
mod literal_set;
mod reader;

pub use assignment::{Assignment, holds};
pub use dimacs::write_dimacs;
pub use formula::Formula;
pub use law::texts_are_read;
pub use literal::Lit;
pub use literal_set::LiteralSet;
pub use reader::{CnfRefusal, read_dimacs};
