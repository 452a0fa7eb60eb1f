// The controllers in the files of a cascade's sections.
ghost use Rattle.std.specs.Prelude.{◌≡◌, ◌≤◌, [], ◌∷◌, ◌++◌, length, map, IfOk, IfErr};
ghost use Rattle.dsv_command.specs.SectionNames.{most_later};
ghost use Rattle.dsv_files.specs.JobTexts.{AreControllers, IsLaterUnread};
ghost use Rattle.dsv_base.specs.Seen.{AreKept};
ghost use Rattle.dsv_files.specs.Digests.{AreLogged, section_named};
ghost use Rattle.dsv_files.specs.LaterFiles.{IsFilesUnread};
ghost use Rattle.dsv_files.specs.Files.{a_controller, IsFileOf};

use crate::controller_file::read_controller;
use crate::digests::Digests;
use dsv_base::{Files, NoMemory};
use dsv_command::SectionNames;
use dsv_reader::Controller;
use dsv_report::{Stop, WhichFile};
use std::alloc::Global;

/// The controllers of a cascade: that of section 0, and those of the sections after it, at most
/// seven.
#[derive(Drop)]
pub struct SectionFiles {
    pub first: Controller,
    pub later: Vec<Controller>,
    ghost few: { length later.items ≤ most_later },
}

/// The list with an item more. It fails for want of memory alone.
pub fn push_item<T: Drop>(list: &mut Vec<T>, item: T) -> Result<(), NoMemory>
    ensures { IfOk result (λ u. list.new.items ≡ list.old.items ++ item ∷ []) }
{
    list.push(item)?;
    Ok(())
}

/// The controllers in the files of these names, of the sections from 1 on.
fn read_later<'a, F: Files>(
    alloc: Global,
    names: &[&'a str],
    files: &mut F,
    digests: &mut Digests<'a>,
) -> Result<Vec<Controller>, Stop>
    requires { length names.now ≤ most_later }
    ensures controllers { IfOk result (λ cs. AreControllers (F.seen files.old)
        (map (λ name. name.now) names.now) cs.items) }
    ensures digests { IfOk result (λ cs. AreLogged (F.seen files.old)
        (map section_named (map (λ name. name.now) names.now)) digests.old digests.new) }
    ensures unread { IfErr result (IsLaterUnread (F.seen files.old) (F.seen files.new)
        (map (λ name. name.now) names.now)) }
    ensures kept { AreKept (F.seen files.old) (F.seen files.new) }
    ensures came { IfOk result (λ cs. (F.seen files.old).came ≤ (F.seen files.new).came) }
{
    let mut controllers = Vec::new(alloc);
    for (i, name) in names.iter().enumerate() {
        let which = WhichFile::Section(i as u32 + 1);
        let controller = read_controller(alloc, name, which, files, digests)?;
        push_item(&mut controllers, controller)?;
    }
    Ok(controllers)
}

/// The controllers in the files of a cascade, of section 0 and of the later ones, which are read in
/// their order.
pub(crate) fn read_sections<'a, F: Files>(
    alloc: Global,
    first: &'a str,
    later: &SectionNames<'a>,
    files: &mut F,
    digests: &mut Digests<'a>,
) -> Result<SectionFiles, Stop>
    ensures first { IfOk result
        (λ found. IsFileOf a_controller (F.seen files.old) first.now found.first) }
    ensures later { IfOk result (λ found. AreControllers (F.seen files.old)
        (map (λ name. name.now) later.now.items) found.later.items) }
    ensures digests { IfOk result (λ found. AreLogged (F.seen files.old)
        (section_named first.now ∷ map section_named (map (λ name. name.now) later.now.items))
        digests.old digests.new) }
    ensures unread { IfErr result (IsFilesUnread (F.seen files.old) (F.seen files.new) first.now
        (map (λ name. name.now) later.now.items)) }
    ensures kept { AreKept (F.seen files.old) (F.seen files.new) }
    ensures came { IfOk result (λ found. (F.seen files.old).came ≤ (F.seen files.new).came) }
{
    let controller = read_controller(alloc, first, WhichFile::Controller, files, digests)?;
    let later = read_later(alloc, later.as_slice(), files, digests)?;
    Ok(SectionFiles {
        first: controller,
        later,
    })
}
