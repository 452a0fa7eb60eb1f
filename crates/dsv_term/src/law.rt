// How wide terms are.
ghost use Rattle.std.specs.Prelude.{◌≡◌};
ghost use Rattle.dsv_term.specs.Limits.{max_width};
ghost use Rattle.dsv_term.specs.declared.node.TheConstants.{MAX_WIDTH};

/// The law of [`MAX_WIDTH`](crate::MAX_WIDTH), for proofs: it is the limit that the conditions of
/// the makers name. The call does nothing.
pub fn widest_term()
    ensures { MAX_WIDTH ≡ max_width }
{}
