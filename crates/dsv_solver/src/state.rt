// The fields of a search.
use crate::order::Order;
use crate::seen::Seen;
use crate::watches::Watches;
use dsv_cnf::Formula;
use dsv_hints::Log;
use dsv_trail::Trail;

/// The clauses, and what is set by them and by decisions.
#[derive(Drop)]
pub struct State {
    /// The formula's clauses, and after them the learned ones.
    pub clauses: Formula,
    /// The literals that are true, in the order in which they came, each with its level and reason.
    pub trail: Trail,
    /// For each literal the clauses that watch it: two literals of each clause are watched.
    pub watches: Watches,
    /// How many literals of the trail are propagated.
    pub head: u32,
}

/// A search that is under way.
#[derive(Drop)]
pub struct Search {
    /// What propagation reads and changes.
    pub state: State,
    /// Which variable is decided next, and to which value.
    pub order: Order,
    /// The literals that the analysis of a conflict met; it is emptied before each.
    pub seen: Seen,
    /// A step for each learned clause.
    pub log: Log,
}
