// The words that what files have becomes in a design.
ghost use Rattle.std.specs.Prelude.{◌≡◌, IfOk, IfErr};
ghost use Rattle.dsv_cli.specs.Words.{AreWordless, BecomeJobWords};
ghost use Rattle.dsv_cli.specs.Stages.{texts_in, words_in};
ghost use Rattle.dsv_files.specs.Views.{texts_view};

use crate::cascade_words::{quantise_file, quantised_cascade};
use dsv_cascade::Cascade;
use dsv_files::{SectionFiles, Texts};
use dsv_names::Design;
use dsv_quantiser::Quantised;
use dsv_reader::{Controller, Plant};
use dsv_report::{Stop, WhichFile};
use dsv_state_file::StateFile;
use dsv_state_space::{StateSystem, quantise_state};
use std::alloc::Global;

/// What files have, with the words that it becomes.
#[derive(Drop)]
pub(crate) enum InWords<'a> {
    Controller(&'a Controller, Quantised),
    Cascade(&'a SectionFiles, Cascade),
    States(&'a StateFile, StateSystem),
    Loop(&'a Controller, &'a Plant, Quantised),
    CascadeLoop(&'a SectionFiles, &'a Plant, Cascade),
}

/// What these texts become in a design.
pub(crate) fn words_of<'a>(
    alloc: Global,
    texts: &'a Texts,
    design: Design,
) -> Result<InWords<'a>, Stop>
    ensures texts { IfOk result (λ found. texts_in found ≡ texts_view texts.entry.now) }
    ensures words { IfOk result
        (λ found. BecomeJobWords design (texts_view texts.entry.now) (words_in found)) }
    ensures refused { IfErr result (AreWordless design (texts_view texts.entry.now)) }
{
    match texts {
        Texts::Controller(controller) => Ok(InWords::Controller(
            controller,
            quantise_file(controller, WhichFile::Controller, design)?,
        )),
        Texts::Cascade(sections) => Ok(InWords::Cascade(
            sections,
            quantised_cascade(alloc, sections, design)?,
        )),
        Texts::States(file) => Ok(InWords::States(
            file,
            quantise_state(file, design.rounding, design.overflow)?,
        )),
        Texts::Loop { controller, plant } => Ok(InWords::Loop(
            controller,
            plant,
            quantise_file(controller, WhichFile::Controller, design)?,
        )),
        Texts::CascadeLoop { sections, plant } => Ok(InWords::CascadeLoop(
            sections,
            plant,
            quantised_cascade(alloc, sections, design)?,
        )),
    }
}
