//! Jury's table in exact whole numbers, what its verdict means, and the size of the greatest root.
#![tactic(auto)]

mod finding;
mod law;
mod roots;
mod table;
mod verdict;

pub use finding::{RootBounds, TableFinding, finding_of};
pub use law::{one_finding, one_root_size, schur_cohn_forms_lose_a_square, tables_decide};
pub use roots::{RootSize, root_size};
pub use table::verdict_of;
pub use verdict::TableVerdict;
