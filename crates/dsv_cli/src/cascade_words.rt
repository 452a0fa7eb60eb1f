// The sections of a cascade: controllers made words.
ghost use Rattle.std.specs.Prelude.{◌≡◌, ◌≤◌, length, IfOk, IfErr, Ok, Err};
ghost use Rattle.dsv_cascade.specs.Sections.{IsCascade};
ghost use Rattle.dsv_command.specs.SectionNames.{most_later};
ghost use Rattle.dsv_quantiser.specs.Modes.{BecomesWords};
ghost use Rattle.dsv_quantiser.specs.declared.refusal.QuantRefusal.{QuantRefusal};
ghost use Rattle.dsv_cli.specs.Cascades.{BecomeWords, IsLaterRefused, IsNoCascade};
ghost use Rattle.dsv_report.specs.declared.stop.Stop.TheVariants as stop;

use dsv_cascade::Cascade;
use dsv_files::{SectionFiles, push_item};
use dsv_names::Design;
use dsv_quantiser::{Quantised, quantise_in};
use dsv_reader::Controller;
use dsv_report::{Stop, WhichFile};
use std::alloc::Global;

/// The words of the controller in this file.
pub(crate) fn quantise_file(
    controller: &Controller,
    which: WhichFile,
    design: Design,
) -> Result<Quantised, Stop>
    ensures words { IfOk result (λ q. BecomesWords controller.now design (Ok q)) }
    ensures refused { IfErr result (λ why. (r : QuantRefusal)
        × (why ≡ stop.QuantRefused which r) × BecomesWords controller.now design (Err r)) }
{
    match quantise_in(controller, design) {
        Ok(quantised) => Ok(quantised),
        Err(refusal) => Err(Stop::QuantRefused { which, refusal }),
    }
}

/// The words of the controllers of the sections from 1 on.
fn quantise_later(
    alloc: Global,
    controllers: &[Controller],
    design: Design,
) -> Result<Vec<Quantised>, Stop>
    requires { length controllers.now ≤ most_later }
    ensures words { IfOk result (λ qs. BecomeWords design controllers.now qs.items) }
    ensures many { IfOk result (λ qs. length qs.items ≡ length controllers.now) }
    ensures refused { IfErr result (IsLaterRefused design controllers.now) }
{
    let mut sections = Vec::new(alloc);
    for i in 0..controllers.len() {
        let which = WhichFile::Section(i as u32 + 1);
        let quantised = quantise_file(&controllers[i], which, design)?;
        push_item(&mut sections, quantised)?;
    }
    Ok(sections)
}

/// The cascade that controllers become in a design: they become words in their order, and then the
/// sections' words are joined.
pub(crate) fn quantised_cascade(
    alloc: Global,
    controllers: &SectionFiles,
    design: Design,
) -> Result<Cascade, Stop>
    ensures first { IfOk result (λ c. BecomesWords controllers.now.first design (Ok c.first)) }
    ensures later { IfOk result (λ c. BecomeWords design controllers.now.later.items c.later) }
    ensures cascade { IfOk result IsCascade }
    ensures refused { IfErr result
        (IsNoCascade design controllers.now.first controllers.now.later.items) }
{
    let first = quantise_file(&controllers.first, WhichFile::Controller, design)?;
    let later = quantise_later(alloc, controllers.later.as_slice(), design)?;
    let cascade = Cascade::new(first, later)?;
    let _sections = cascade.later_sections(); // what is true of them, for the proof
    Ok(cascade)
}
