// What a verdict means.
ghost use Rattle.std.specs.Prelude.{◌≡◌, ◌↔◌, List, ℤ};
ghost use Rattle.dsv_jury.specs.declared.verdict.Jury.{Jury};
ghost use Rattle.dsv_jury.specs.Jury.{jury_of};
ghost use Rattle.dsv_jury.specs.Rows.{IsJury};

/// The law of [`jury`](crate::jury), for proofs: its verdict is the one that the relation on rows
/// allows. The call does nothing.
pub fn one_verdict()
    ensures { (c : List ℤ) (v : Jury) → IsJury c v ↔ (v ≡ jury_of c) }
{}
