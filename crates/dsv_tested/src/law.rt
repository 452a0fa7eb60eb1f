// The theorem on common powers of two.
ghost use Rattle.std.specs.Prelude.{◌≢◌, List, ◌∷◌, ℤ, pos};
ghost use Rattle.dsv_tested.specs.Reduced.{IsReduced};
ghost use Rattle.dsv_tested.specs.Tested.{without_common_twos};

/// The law of common powers of two, for proofs: where a list's first number isn't 0, all its
/// numbers are multiples of a power of two, and one of the quotients is odd. The call does nothing.
pub fn common_twos_are_taken_out()
    ensures { (c : ℤ) (cs : List ℤ) → c ≢ pos 0
        → IsReduced (c ∷ cs) (without_common_twos (c ∷ cs)) }
{}
