// The laws of trails.
ghost use Rattle.std.specs.Prelude.{◌≡◌, ℕ, List, [], ◌∷◌, ◌++◌, Some, true, false};
ghost use Rattle.dsv_cnf.specs.Literal.{Literal, negation};
ghost use Rattle.dsv_trail.specs.TrailView.{TrailView};
ghost use Rattle.dsv_trail.specs.Marks.{literal_at, value_of};
ghost use Rattle.dsv_trail.specs.Levels.{IsTrail};
ghost use Rattle.dsv_trail.specs.Justification.{IsJustified};

/// The law of [`value`](crate::Trail::value), for proofs: a literal is true exactly where it stands
/// on the trail, and false exactly where its negation does.
pub fn values_are_of_the_trail()
    ensures stands { (t : TrailView) (l : Literal) → value_of t.marks l ≡ Some true →
        (i : ℕ) × (literal_at t.marks i ≡ Some l) }
    ensures negation_stands { (t : TrailView) (l : Literal) → value_of t.marks l ≡ Some false →
        (i : ℕ) × (literal_at t.marks i ≡ Some (negation l)) }
    ensures is_true { (t : TrailView) (i : ℕ) (l : Literal) → IsTrail t
        → literal_at t.marks i ≡ Some l →
        value_of t.marks l ≡ Some true }
    ensures is_false { (t : TrailView) (i : ℕ) (l : Literal) → IsTrail t
        → literal_at t.marks i ≡ Some l →
        value_of t.marks (negation l) ≡ Some false }
{}

/// The law of reasons, for proofs: a clause that comes at the end of the formula keeps each of
/// them.
pub fn more_clauses_keep_reasons()
    ensures { (t : TrailView) (clauses : List (List Literal)) (c : List Literal)
        → IsJustified t clauses →
        IsJustified t (clauses ++ c ∷ []) }
{}
