// The leading coefficient of a denominator in the delta operator.
ghost use Rattle.dsv_quantiser.specs.Leading.{ConvertedLeadingIsOne};

/// Where a list of coefficients begins with 1, it does so in the delta operator too.
pub fn converted_leading_is_one()
    ensures { ConvertedLeadingIsOne }
{}
