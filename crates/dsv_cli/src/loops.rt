// What is found of loops, by their polynomials and tables.
ghost use Rattle.std.specs.Prelude.{◌≡◌, length};
ghost use Rattle.dsv_loop.specs.Loops.{loop_of};
ghost use Rattle.dsv_cli.specs.Causes.{IsPlain};
ghost use Rattle.dsv_cli.specs.Loops.{IsOfLoop, HasFewCoefficients};

use dsv_fraction::Frac;
use dsv_loop::loop_polynomial;
use dsv_quantiser::Quantised;
use dsv_reader::Plant;
use dsv_report::{Answer, Stop};
use dsv_table::finding_of;
use std::alloc::Global;

/// The answer for the loop of the controller with these sections in series, which runs with this
/// sample time, with a plant.
pub(crate) fn loop_answer(
    alloc: Global,
    sections: &[Quantised],
    sample_time: Frac,
    plant: &Plant,
) -> Result<Answer, Stop>
    ensures found { IsOfLoop (loop_of sections.now sample_time plant.now) result }
    ensures few { length sections.now ≡ 1 → HasFewCoefficients result }
    ensures plain { IsPlain result }
{
    let poly = loop_polynomial(sections, sample_time, plant, alloc)?;
    Ok(Answer::OfTable(finding_of(poly.as_slice(), alloc)?))
}
