//! Cascades: controllers in series, each the section after the one before it.
#![tactic(auto)]

mod cascade;
mod law;
mod netlist;
mod stability;
mod subject;

pub use cascade::{Cascade, CascadeRefusal, MOST_SECTIONS};
pub use law::longest_cascade;
pub use netlist::cascade_net;
pub use stability::{CascadeForms, SectionFault, SectionOffer, SectionOffers, cascade_stability};
