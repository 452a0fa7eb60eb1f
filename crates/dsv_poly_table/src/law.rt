// What the verdict of Jury's recursion means.
ghost use Rattle.dsv_poly_table.specs.Recursion.{JuryIsShown};

/// The law of [`jury`](dsv_jury::jury), for proofs: what its verdict says of a polynomial with a
/// positive lead is shown by a form, as what the table says. The call does nothing.
pub fn jury_is_shown()
    ensures { JuryIsShown }
{}
