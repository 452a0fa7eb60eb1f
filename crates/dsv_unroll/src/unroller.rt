// What the parts of a goal share.
use dsv_netlist::Netlist;
use dsv_term::TermId;
use std::alloc::Global;

/// Unrolls a netlist into the terms of a goal. Its methods stand with what they make.
#[derive(Clone, Copy)]
pub(crate) struct Unroller<'a> {
    /// Where lists of terms are kept.
    pub alloc: Global,
    /// What is unrolled.
    pub net: &'a Netlist,
    /// A zero in one bit.
    pub zero_bit: TermId,
}
