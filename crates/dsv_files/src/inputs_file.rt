// The inputs of a run in a file.
ghost use Rattle.std.specs.Prelude.{[], ◌∷◌, ◌≤◌, length, IfOk, IfErr};
ghost use Rattle.dsv_base.specs.Seen.{AreKept};
ghost use Rattle.dsv_files.specs.Digests.{AreLogged};
ghost use Rattle.dsv_files.specs.Files.{some_inputs, IsFileOf, IsUnread};

use crate::digests::{Digests, log_digest};
use crate::file_bytes::read_bytes;
use dsv_base::{Files, WordList};
use dsv_input_file::read_inputs;
use dsv_report::{Stop, WhichFile};
use std::alloc::Global;

/// The inputs in the file of this name.
pub(crate) fn read_inputs_file<'a, F: Files>(
    alloc: Global,
    name: &'a str,
    files: &mut F,
    digests: &mut Digests<'a>,
) -> Result<WordList, Stop>
    ensures inputs { IfOk result (IsFileOf some_inputs (F.seen files.old) name.now) }
    ensures few { IfOk result (λ inputs. length inputs ≤ 65536) }
    ensures digest { IfOk result (λ inputs. AreLogged (F.seen files.old)
        (record { kind = some_inputs; name = name.now } ∷ []) digests.old digests.new) }
    ensures unread { IfErr result
        (IsUnread some_inputs (F.seen files.old) (F.seen files.new) name.now) }
    ensures kept { AreKept (F.seen files.old) (F.seen files.new) }
{
    let bytes = read_bytes(alloc, name, WhichFile::Inputs, files)?;
    let inputs = read_inputs(alloc, bytes.as_slice())?;
    log_digest(alloc, digests, name, bytes.as_slice())?;
    Ok(inputs)
}
