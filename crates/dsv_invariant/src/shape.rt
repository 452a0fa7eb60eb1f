// What proposers are told of a quantised controller.
ghost use Rattle.std.specs.Prelude.{◌≡◌};
ghost use Rattle.dsv_invariant.specs.Shapes.{past_inputs_of, shape_of};
ghost use Rattle.dsv_template.specs.Shapes.{IsLawful};

use dsv_meaning::registers;
use dsv_names::Realisation;
use dsv_quantiser::Quantised;
use dsv_template::Shape;

/// How many of the first registers hold earlier inputs.
fn past_inputs(realisation: Realisation, order: u32) -> u32
    ensures { result ≡ past_inputs_of realisation order }
{
    match realisation {
        Realisation::Dfi => order,
        Realisation::Dfii
        | Realisation::Tdfii
        | Realisation::Ddfi
        | Realisation::Ddfii
        | Realisation::Tddfii => 0,
    }
}

/// What proposers are told of a quantised controller: how many registers it has, how many of the
/// first ones hold earlier inputs, the ends of its words and the range of its inputs.
pub fn shape_of(quantised: &Quantised) -> Shape
    ensures value { result ≡ shape_of quantised.now }
    ensures lawful { IsLawful result }
{
    let format = quantised.format();
    let realisation = quantised.realisation();
    let order = quantised.order() as u32;
    Shape {
        registers: registers(realisation, order),
        past_inputs: past_inputs(realisation, order),
        lo: format.lo(),
        hi: format.hi(),
        xlo: quantised.xlo(),
        xhi: quantised.xhi(),
    }
}
