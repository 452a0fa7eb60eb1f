// The plant in a file.
ghost use Rattle.std.specs.Prelude.{[], ◌∷◌, ◌≤◌, IfOk, IfErr};
ghost use Rattle.dsv_report.specs.declared.stop.WhichFile.TheVariants as file;
ghost use Rattle.dsv_base.specs.Seen.{AreKept};
ghost use Rattle.dsv_files.specs.Digests.{AreLogged, plant_named};
ghost use Rattle.dsv_files.specs.Files.{a_plant, IsFileOf, IsUnread};

use crate::digests::{Digests, log_digest};
use crate::file_bytes::read_bytes;
use dsv_base::Files;
use dsv_reader::{Plant, read_plant};
use dsv_report::{Stop, WhichFile};
use std::alloc::Global;

/// The plant in the file of this name.
pub(crate) fn read_plant_file<'a, F: Files>(
    alloc: Global,
    name: &'a str,
    files: &mut F,
    digests: &mut Digests<'a>,
) -> Result<Plant, Stop>
    ensures plant { IfOk result (IsFileOf a_plant (F.seen files.old) name.now) }
    ensures digest { IfOk result (λ p. AreLogged (F.seen files.old)
        (plant_named name.now ∷ []) digests.old digests.new) }
    ensures unread { IfErr result
        (IsUnread a_plant (F.seen files.old) (F.seen files.new) name.now) }
    ensures kept { AreKept (F.seen files.old) (F.seen files.new) }
    ensures came { IfOk result (λ p. (F.seen files.old).came ≤ (F.seen files.new).came) }
{
    let bytes = read_bytes(alloc, name, WhichFile::Plant, files)?;
    match read_plant(alloc, bytes.as_slice()) {
        Ok(plant) => {
            log_digest(alloc, digests, name, bytes.as_slice())?;
            Ok(plant)
        }
        Err(refusal) => Err(Stop::of_file(WhichFile::Plant, refusal)),
    }
}
