//! The trail of a clause-learning solver: the literals that are true, in the order in which they
//! became so, each with its level and, where a clause implied it, the number of that clause.
#![tactic(auto)]

mod law;
mod marks;
mod trail;

pub use law::{more_clauses_keep_reasons, values_are_of_the_trail};
pub use marks::Mark;
pub use trail::Trail;
