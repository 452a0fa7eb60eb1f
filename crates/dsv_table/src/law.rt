// What the verdict of a table means.
ghost use Rattle.dsv_table.specs.SchurCohn.{AreSums, LosesASquare, KeepsAway};
ghost use Rattle.dsv_table.specs.Verdicts.{Decides, FactorsDoNotCount};
ghost use Rattle.dsv_table.specs.Systems.{SystemsFall, SystemsAreKeptAway};
ghost use Rattle.dsv_table.specs.Rates.{FallsAtRate, IsKeptAwayAtRate};
ghost use Rattle.dsv_table.specs.Findings.{OneFinding};
ghost use Rattle.dsv_table.specs.RootSize.{OneRootSize, RootSizesAreShown};

/// The law of Schur-Cohn forms, for proofs, at every order: what their entries are, that in a step
/// they lose the square of one row, and so that they keep a trajectory away from 0 from where they
/// are negative. The call does nothing.
pub fn schur_cohn_forms_lose_a_square()
    ensures sums { AreSums }
    ensures loses { LosesASquare }
    ensures away { KeepsAway }
{}

/// The law of the table, for proofs, at every order: each verdict on a polynomial with a positive
/// lead comes with a form that shows it, and a positive factor of a row doesn't change it. The form
/// shows as much of a system that the polynomial annihilates, and the form of a polynomial with its
/// roots divided by a number shows at what rate trajectories fall. The call does nothing.
pub fn tables_decide()
    ensures decides { Decides }
    ensures factors { FactorsDoNotCount }
    ensures systems { SystemsFall }
    ensures away { SystemsAreKeptAway }
    ensures rates { FallsAtRate }
    ensures rates_away { IsKeptAwayAtRate }
{}

/// The law of root sizes, for proofs: that a polynomial has one, and that forms show both of its
/// numbers. The call does nothing.
pub fn one_root_size()
    ensures one { OneRootSize }
    ensures shown { RootSizesAreShown }
{}

/// The law of findings, for proofs: that a polynomial has one. The call does nothing.
pub fn one_finding()
    ensures { OneFinding }
{}
