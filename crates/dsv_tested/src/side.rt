// What of a controller is tested.
ghost use Rattle.std.specs.Prelude.{◌≡◌};
ghost use Rattle.dsv_tested.specs.Tested.{side_of};

use dsv_forms::Poly;
use dsv_names::RootProperty;

/// A side of a controller's transfer function.
#[derive(Clone, Copy, Debug, PartialEq, Eq)]
pub enum Side {
    /// Its zeros decide on stability: they are the poles.
    Denominator,
    /// Its zeros decide on minimum phase.
    Numerator,
}

/// The side of a controller that a property tests.
pub fn side_of(property: RootProperty) -> Side
    ensures { result ≡ side_of property }
{
    match property {
        RootProperty::Stability => Side::Denominator,
        RootProperty::MinimumPhase => Side::Numerator,
    }
}

/// The polynomial to test, or that all of its coefficients are 0.
#[derive(Drop)]
pub enum Tested {
    NoZeros,
    Poly(Poly),
}
