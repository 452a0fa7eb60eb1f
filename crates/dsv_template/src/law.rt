// What a kept set means, and how much a candidate holds.
ghost use Rattle.std.specs.Prelude.{◌≡◌, List, ℤ};
ghost use Rattle.dsv_template.specs.Kept.{KeptNeverBreaks};
ghost use Rattle.dsv_template.specs.Limits.{most_registers, most_inequalities};
ghost use Rattle.dsv_template.specs.declared.limits.TheConstants.{MOST_REGISTERS};
ghost use Rattle.dsv_template.specs.declared.limits.TheConstants.{MOST_INEQUALITIES};

/// A system that keeps to a candidate's set breaks at no list of inputs in range, however long. It
/// is said of systems whose past is the words in their registers, as netlists are.
pub fn kept_sets_never_break()
    ensures { KeptNeverBreaks (List ℤ) }
{}

/// The law of the lists of a [`Candidate`](crate::Candidate), for proofs: an inequality has room
/// for a coefficient of each register, and a candidate for so many inequalities. The call does
/// nothing.
pub fn room_of_candidates()
    ensures coefficients { MOST_REGISTERS ≡ most_registers }
    ensures inequalities { MOST_INEQUALITIES ≡ most_inequalities }
{}
