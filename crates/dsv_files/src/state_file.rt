// The state-space controller in a file.
ghost use Rattle.std.specs.Prelude.{[], ◌∷◌, ◌≤◌, IfOk, IfErr};
ghost use Rattle.dsv_base.specs.Seen.{AreKept};
ghost use Rattle.dsv_files.specs.Digests.{AreLogged};
ghost use Rattle.dsv_files.specs.Files.{a_state_controller, IsFileOf, IsUnread};

use crate::digests::{Digests, log_digest};
use crate::file_bytes::read_bytes;
use dsv_base::Files;
use dsv_report::{Stop, WhichFile};
use dsv_state_file::{StateFile, read_state};
use std::alloc::Global;

/// The state-space controller in the file of this name.
pub(crate) fn read_state_file<'a, F: Files>(
    alloc: Global,
    name: &'a str,
    files: &mut F,
    digests: &mut Digests<'a>,
) -> Result<StateFile, Stop>
    ensures controller { IfOk result (IsFileOf a_state_controller (F.seen files.old) name.now) }
    ensures digest { IfOk result (λ c. AreLogged (F.seen files.old)
        (record { kind = a_state_controller; name = name.now } ∷ []) digests.old digests.new) }
    ensures unread { IfErr result
        (IsUnread a_state_controller (F.seen files.old) (F.seen files.new) name.now) }
    ensures kept { AreKept (F.seen files.old) (F.seen files.new) }
    ensures came { IfOk result (λ c. (F.seen files.old).came ≤ (F.seen files.new).came) }
{
    let bytes = read_bytes(alloc, name, WhichFile::Controller, files)?;
    let file = read_state(bytes.as_slice())?;
    log_digest(alloc, digests, name, bytes.as_slice())?;
    Ok(file)
}
