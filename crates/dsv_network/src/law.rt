// What is shown of the runs of networks.
ghost use Rattle.dsv_network.specs.Laws.{RangesHold, GainsHold, GainsAreFoundAgain};
ghost use Rattle.dsv_network.specs.Laws.{GainsAreWithin, DepthsForgetStarts};

/// The ranges of a depth hold in every run from registers of zeros, of any length, if registers
/// that begin in the starts stay in them.
pub fn ranges_hold()
    ensures { RangesHold }
{}

/// So do those of a gain, whatever the limit.
pub fn gains_hold()
    ensures { GainsHold }
{}

/// A gain that is found of some number of samples is found of as many as its depth and one more.
pub fn gains_are_found_again()
    ensures { GainsAreFoundAgain }
{}

/// The samples that show a gain are below the limit.
pub fn gains_are_within()
    ensures { GainsAreWithin }
{}

/// The depth of a gain: from any registers in the starts, what the sample after so many shows is
/// between words, if it is so of all samples before it.
pub fn depths_forget_starts()
    ensures { DepthsForgetStarts }
{}
