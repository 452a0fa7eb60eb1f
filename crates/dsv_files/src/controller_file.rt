// The controller in a file.
ghost use Rattle.std.specs.Prelude.{[], ◌∷◌, ◌≤◌, IfOk, IfErr};
ghost use Rattle.dsv_files.specs.FileBytes.{IsOfController, controller_kind};
ghost use Rattle.dsv_base.specs.Seen.{AreKept};
ghost use Rattle.dsv_files.specs.Digests.{AreLogged, section_named};
ghost use Rattle.dsv_files.specs.Files.{a_controller, IsFileOf, IsUnread};

use crate::digests::{Digests, log_titled};
use crate::file_bytes::read_bytes;
use crate::titles::title_of;
use dsv_base::Files;
use dsv_reader::{Controller, read};
use dsv_report::{Stop, WhichFile};
use std::alloc::Global;

/// The controller in the file of this name, which is that of a controller or of a section.
pub(crate) fn read_controller<'a, F: Files>(
    alloc: Global,
    name: &'a str,
    which: WhichFile,
    files: &mut F,
    digests: &mut Digests<'a>,
) -> Result<Controller, Stop>
    requires { IsOfController which }
    ensures controller { IfOk result (IsFileOf a_controller (F.seen files.old) name.now) }
    ensures digest { IfOk result (λ c. AreLogged (F.seen files.old)
        (section_named name.now ∷ []) digests.old digests.new) }
    ensures unread { IfErr result
        (IsUnread (controller_kind which) (F.seen files.old) (F.seen files.new) name.now) }
    ensures kept { AreKept (F.seen files.old) (F.seen files.new) }
    ensures came { IfOk result (λ c. (F.seen files.old).came ≤ (F.seen files.new).came) }
{
    let bytes = read_bytes(alloc, name, which, files)?;
    match read(alloc, bytes.as_slice()) {
        Ok(controller) => {
            let title = title_of(alloc, bytes.as_slice())?;
            log_titled(digests, name, bytes.as_slice(), title)?;
            Ok(controller)
        }
        Err(refusal) => Err(Stop::of_file(which, refusal)),
    }
}
