// What a form that strictly falls excludes.
ghost use Rattle.dsv_apart.specs.Apart.{NothingIsBoth};

/// The law of both kinds of evidence, for proofs: a polynomial, or any system, that has a form
/// which strictly falls has none that keeps a trajectory away from 0. So no controller is both
/// stable and unstable by its evidence, where that is a form. Polynomials are the systems with
/// their companion matrices. The call does nothing.
pub fn nothing_is_both()
    ensures { NothingIsBoth }
{}
