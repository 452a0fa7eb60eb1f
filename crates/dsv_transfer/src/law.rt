// What the coefficients in z say of exact runs.
ghost use Rattle.dsv_transfer.specs.Transfer.{RunsMeetTheTransferFunction};

/// The law of the transfer function, for proofs, for all six realisations: in each exact run of the
/// written equations, from any registers, the outputs and the inputs meet the coefficients in z by
/// which stability and the loop with a plant are decided, in every sample that comes after as many
/// others as the order is. The call does nothing.
pub fn runs_meet_the_transfer_function()
    ensures { RunsMeetTheTransferFunction }
{}
