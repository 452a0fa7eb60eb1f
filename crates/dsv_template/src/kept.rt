// Candidates that weren't good.
use crate::candidate::Candidate;
use crate::verdict::Why;
use dsv_base::Items;

/// A candidate that was offered, and why it isn't good or nothing was found of it.
#[derive(Drop)]
pub struct KeptSet {
    pub candidate: Candidate,
    pub why: Why,
}

/// Candidates that weren't good, in the order in which they came.
pub type KeptSets = Items<KeptSet>;
