// What the files of a job have.
ghost use Rattle.std.specs.Prelude.{◌≡◌, ◌≤◌, IfOk, IfErr};
ghost use Rattle.dsv_certfile.specs.Lawful.{IsWords};
ghost use Rattle.dsv_certfile.specs.Words.{words_for};
ghost use Rattle.dsv_command.specs.Views.{files_view};
ghost use Rattle.dsv_base.specs.Seen.{AreKept};
ghost use Rattle.dsv_files.specs.Digests.{AreLogged, named_by};
ghost use Rattle.dsv_files.specs.JobTexts.{AreUnread, HaveTexts, IsSaidOf};
ghost use Rattle.dsv_files.specs.Views.{texts_view};

use crate::controller_file::read_controller;
use crate::digests::Digests;
use crate::plant_file::read_plant_file;
use crate::section_files::{SectionFiles, read_sections};
use crate::state_file::read_state_file;
use dsv_base::Files;
use dsv_certfile::CertWords;
use dsv_command::JobFiles;
use dsv_reader::{Controller, Plant};
use dsv_report::{Stop, WhichFile};
use dsv_state_file::StateFile;
use std::alloc::Global;

/// What the files of a job have the texts of: one variant for each of its kinds.
#[derive(Drop)]
pub enum Texts {
    Controller(Controller),
    Cascade(SectionFiles),
    States(StateFile),
    Loop {
        controller: Controller,
        plant: Plant,
    },
    CascadeLoop {
        sections: SectionFiles,
        plant: Plant,
    },
}

/// What is said of texts beside an answer.
#[derive(Clone, Copy)]
pub struct Said {
    /// What certificates say of the format of the words.
    pub words: CertWords,
    /// How many states a state-space controller has; 0 of all else.
    pub states: u32,
}

/// What is said of a controller.
fn said_of(controller: &Controller) -> Said
    ensures words { result.words
        ≡ words_for controller.now.int_bits controller.now.frac_bits }
    ensures lawful { IsWords result.words }
    ensures states { result.states ≡ 0 }
{
    Said {
        words: CertWords::of_format(controller.int_bits(), controller.frac_bits()),
        states: 0,
    }
}

impl Texts {
    /// What is said of them.
    pub fn said(&self) -> Said
        ensures said { IsSaidOf (texts_view self.now) result.states result.words }
        ensures lawful { IsWords result.words }
    {
        match self {
            Texts::Controller(controller) | Texts::Loop { controller, .. } => said_of(controller),
            Texts::States(file) => Said {
                words: CertWords::of_format(file.int_bits(), file.frac_bits()),
                states: file.states(),
            },
            Texts::Cascade(_) | Texts::CascadeLoop { .. } => Said {
                words: CertWords::Unsaid,
                states: 0,
            },
        }
    }
}

/// The texts of the files that a job names, which are read in their order: the controller's or that
/// of section 0, those of the later sections, the plant's; their digests are added.
///
/// # Errors
///
/// Why the first file that isn't of its kind isn't, where those before it are of theirs: its bytes
/// couldn't be read ([`Stop::ReadFault`]), there are more than 65,536 ([`Stop::FileTooLong`]), or
/// they have a first fault ([`Stop::FileRefused`], [`Stop::StateRefused`]). Each says which file it
/// is. Want of memory comes wherever there is none.
pub fn read_texts<'a, F: Files>(
    alloc: Global,
    named: &JobFiles<'a>,
    files: &mut F,
    digests: &mut Digests<'a>,
) -> Result<Texts, Stop>
    ensures texts { IfOk result (λ came. HaveTexts (F.seen files.old) (files_view named.now)
        (texts_view came)) }
    ensures digests { IfOk result (λ came. AreLogged (F.seen files.old)
        (named_by (files_view named.now)) digests.old digests.new) }
    ensures unread { IfErr result
        (AreUnread (F.seen files.old) (F.seen files.new) (files_view named.now)) }
    ensures kept { AreKept (F.seen files.old) (F.seen files.new) }
    ensures came { IfOk result (λ t. (F.seen files.old).came ≤ (F.seen files.new).came) }
{
    match named {
        JobFiles::Controller(file) => Ok(Texts::Controller(read_controller(
            alloc,
            file,
            WhichFile::Controller,
            files,
            digests,
        )?)),
        JobFiles::Cascade { file, later } => {
            Ok(Texts::Cascade(read_sections(alloc, file, later, files, digests)?))
        }
        JobFiles::States(file) => Ok(Texts::States(read_state_file(alloc, file, files, digests)?)),
        JobFiles::Loop { file, plant } => {
            let controller = read_controller(alloc, file, WhichFile::Controller, files, digests)?;
            let plant = read_plant_file(alloc, plant, files, digests)?;
            Ok(Texts::Loop { controller, plant })
        }
        JobFiles::CascadeLoop { file, later, plant } => {
            let sections = read_sections(alloc, file, later, files, digests)?;
            let plant = read_plant_file(alloc, plant, files, digests)?;
            Ok(Texts::CascadeLoop { sections, plant })
        }
    }
}
