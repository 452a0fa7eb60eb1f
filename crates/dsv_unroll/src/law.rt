// What the tests of facts are to the goal of an overflow.
ghost use Rattle.dsv_unroll.specs.Law.{FactsKeepRoot};

/// The tests of facts leave the root as it is: for every netlist, range of inputs and number of
/// samples the goal of an overflow and the plain goal, which has no such tests, have the same
/// inputs, and at all values of these their roots have the same word.
pub fn facts_keep_root()
    ensures { FactsKeepRoot }
{}
