// What the program of a netlist does.
ghost use Rattle.dsv_c.specs.Law.{CodeValuesAsNetlist, CodeStartsAsNetlist};
ghost use Rattle.dsv_c.specs.Law.{CodeStepsAsNetlist, CodeRunsAsNetlist};

/// Under the meaning of C in specs/Meaning no step of the program of a netlist whose values fit in
/// 64 bits is stuck, from registers and an input that are words, and each gives the output and the
/// registers that the netlist's step gives.
pub fn code_steps_as_netlist()
    ensures { CodeStepsAsNetlist }
{}

/// The locals of a step are the input, the registers and the words of the exact values, in the
/// order in which reports number them.
pub fn code_values_as_netlist()
    ensures { CodeValuesAsNetlist }
{}

/// The program's init isn't stuck, whatever the members were, and sets the registers to 0.
pub fn code_starts_as_netlist()
    ensures { CodeStartsAsNetlist }
{}

/// From any words in the registers and over any list of words no step is stuck, and the results are
/// the outputs of whatever agrees with the netlist.
pub fn code_runs_as_netlist()
    ensures { CodeRunsAsNetlist }
{}
