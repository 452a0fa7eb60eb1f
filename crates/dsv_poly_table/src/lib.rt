//! Jury's tables of the polynomials in words that properties test, in exact whole numbers, and what
//! the verdict of Jury's recursion on such a polynomial means.
#![tactic(auto)]

mod law;
mod sections;
mod table;

pub use law::jury_is_shown;
pub use sections::{SectionTables, section_tables};
pub use table::{integers_of, poly_finding};
