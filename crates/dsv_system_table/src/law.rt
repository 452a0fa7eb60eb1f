// What the outputs of a system tell of it.
ghost use Rattle.dsv_system_table.specs.Outputs.{OutputsKeepAway};

/// The law of outputs, for proofs: a system is kept away from 0 somewhere if the polynomial of one
/// of its outputs is, and each window of the output comes from a start. The call does nothing.
pub fn outputs_tell()
    ensures { OutputsKeepAway }
{}
