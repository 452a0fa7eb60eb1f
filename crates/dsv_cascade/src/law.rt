// How many sections there are.
ghost use Rattle.std.specs.Prelude.{◌≡◌};
ghost use Rattle.dsv_cascade.specs.Sections.{most_sections};
ghost use Rattle.dsv_cascade.specs.declared.cascade.TheConstants.{MOST_SECTIONS};

/// The law of [`MOST_SECTIONS`](crate::MOST_SECTIONS), for proofs: it is the limit that contracts
/// name. The call does nothing.
pub fn longest_cascade()
    ensures { MOST_SECTIONS ≡ most_sections }
{}
