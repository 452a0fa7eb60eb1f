// What the ranges of a gain say.
ghost use Rattle.std.specs.Prelude.{◌≡◌};
ghost use Rattle.dsv_gain.specs.Safe.{GainsAreSafe, GainsAreFoundAgain, DepthsForgetStarts};
ghost use Rattle.dsv_gain.specs.Near.{OutputsStayNear, RegistersStayNear, ControllersStayNear};
ghost use Rattle.dsv_gain.specs.Near.{OffersFit};
ghost use Rattle.dsv_gain.specs.declared.lists.TheConstants.{MOST_DRIVEN};
ghost use Rattle.dsv_gain.specs.Subjects.{most_driven};

/// In every run of a netlist from registers of zeros, over inputs in range, of any length, each
/// exact value lies in its range of the gain, whose ends are words.
pub fn gains_are_safe()
    ensures { GainsAreSafe }
{}

/// A gain that is found of some number of samples is found of as many as its depth and one more.
pub fn gains_are_found_again()
    ensures { GainsAreFoundAgain }
{}

/// The depth of a gain: from any words in the registers, of which those that hold inputs hold past
/// ones, the exact values of the sample that comes after as many samples as the depth are words, if
/// those of all samples before it are.
pub fn depths_forget_starts()
    ensures { DepthsForgetStarts }
{}

/// The box of an offer that shows a range holds how far each register is from what it holds in the
/// exact run, after every sample of every run in which no exact value leaves the words.
pub fn registers_stay_near()
    ensures { RegistersStayNear }
{}

/// The range that an offer shows of a netlist holds how far its output is from that of its exact
/// run, in every sample of every run in which no exact value leaves the words.
pub fn outputs_stay_near()
    ensures { OutputsStayNear }
{}

/// The same of a quantised controller and the exact run of its written equations.
pub fn controllers_stay_near()
    ensures { ControllersStayNear }
{}

/// An offer that shows a range has a range of words for each register.
pub fn offers_fit()
    ensures { OffersFit }
{}

/// The law of [`MOST_DRIVEN`](crate::MOST_DRIVEN), for proofs: it is the limit that contracts name.
/// The call does nothing.
pub fn longest_list()
    ensures { MOST_DRIVEN ≡ most_driven }
{}
