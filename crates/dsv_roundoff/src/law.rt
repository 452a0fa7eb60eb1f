// What exact runs are, and what the differences from them obey.
ghost use Rattle.dsv_roundoff.specs.Laws.{RunsExist, RunsAreOne, DifferencesObeyTheStep};
ghost use Rattle.dsv_roundoff.specs.Laws.{OutputsDiffer, ExactRunsAreWritten};
ghost use Rattle.dsv_roundoff.specs.Laws.{WrittenRunsAreExact, WrittenRunsExist};
ghost use Rattle.dsv_roundoff.specs.Laws.{WrittenRunsAreOne, ControllersRunApart};

/// There is an exact run of every netlist from registers of zeros, over any inputs.
pub fn runs_exist()
    ensures { RunsExist }
{}

/// All exact runs of a netlist from registers of zeros over the same inputs have the same values.
pub fn runs_are_one()
    ensures { RunsAreOne }
{}

/// Where no exact value of a netlist's run from registers of zeros leaves the words, the
/// differences of all nodes' values from those of the exact run obey the netlist's own step without
/// input, with one error for each rounded value.
pub fn differences_obey_the_step()
    ensures { DifferencesObeyTheStep }
{}

/// At the output's node these differences are those of the run's outputs from the exact run's.
pub fn outputs_differ()
    ensures { OutputsDiffer }
{}

/// The outputs of the exact run of a quantised controller's netlist are those of the written
/// equations of its realisation over fractions.
pub fn exact_runs_are_written()
    ensures { ExactRunsAreWritten }
{}

/// The other way: over some denominator there is an exact run of the netlist that has the outputs
/// of an exact run of the written equations.
pub fn written_runs_are_exact()
    ensures { WrittenRunsAreExact }
{}

/// There is an exact run of the written equations of every quantised controller, over any inputs.
pub fn written_runs_exist()
    ensures { WrittenRunsExist }
{}

/// All exact runs of the written equations over the same inputs have the same outputs.
pub fn written_runs_are_one()
    ensures { WrittenRunsAreOne }
{}

/// Where no exact value of a controller's run from registers of zeros leaves the words, its outputs
/// differ from those of the exact run of the written equations by what the linear step of its
/// netlist gives: with one error for each rounded value, and without input.
pub fn controllers_run_apart()
    ensures { ControllersRunApart }
{}
