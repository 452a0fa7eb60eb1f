// Which certificates are refused for the format of the words, for a loop, and for what they are of.
ghost use Rattle.dsv_certcheck.specs.Laws.{AreOfFormats, NoLoopIsRefused};
ghost use Rattle.dsv_certcheck.specs.Laws.{LoopsMisfitAlone, OthersMisfitLoops};

/// The law of the refusal FORMAT, for proofs: [`check`](crate::check) gives it exactly if the
/// comparison of the certificate's format with the controller's does, at the same line; no later
/// test gives it, alone or beside a plant. The call does nothing.
pub fn formats_are_compared()
    ensures { AreOfFormats }
{}

/// The law of the refusals of loops, for proofs: without a plant [`check`](crate::check) gives
/// none. The call does nothing.
pub fn no_loop_is_refused_alone()
    ensures { NoLoopIsRefused }
{}

/// The law of the two subjects, for proofs: without a plant [`check`](crate::check) refuses at the
/// kind's line each certificate that says it is of a loop, and with one each that doesn't. The call
/// does nothing.
pub fn checks_are_apart()
    ensures alone { LoopsMisfitAlone }
    ensures beside { OthersMisfitLoops }
{}
