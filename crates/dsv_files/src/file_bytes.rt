// The bytes of the files that the command reads.
ghost use Rattle.std.specs.Prelude.{◌≡◌, ◌≤◌, ◌^◌, length, IfOk, IfErr, IfSome};
ghost use Rattle.dsv_base.specs.Seen.{AreKept};
ghost use Rattle.dsv_files.specs.Files.{limit_of, too_long_of, NoneCame};

use dsv_base::{Bytes, Files, ReadEnd, read_all};
use dsv_report::{CertificateFault, InputsFault, Stop, WhichFile};
use std::alloc::Global;

/// The most bytes that the file of a controller or of a plant may have.
const LONGEST_FILE: u64 = 65_536;

/// The most bytes that a certificate's file may have: 64 MiB.
const LONGEST_CERTIFICATE: u64 = 1 << 26;

/// The most bytes that a file of inputs may have: 1 MiB.
const LONGEST_INPUTS: u64 = 1 << 20;

/// The most bytes that the file may have.
fn limit_of(which: WhichFile) -> u64
    ensures value { result ≡ limit_of which }
    ensures small { result ≤ 2 ^ 26 }
{
    match which {
        WhichFile::Controller | WhichFile::Section(_) | WhichFile::Plant => LONGEST_FILE,
        WhichFile::Certificate => LONGEST_CERTIFICATE,
        WhichFile::Inputs => LONGEST_INPUTS,
    }
}

/// Why there is no answer where the file has more.
fn too_long_stop(which: WhichFile) -> Stop
    ensures { result ≡ too_long_of which }
{
    match which {
        WhichFile::Certificate => Stop::CertificateRefused {
            line: 0,
            fault: CertificateFault::TooLong,
        },
        WhichFile::Inputs => Stop::InputsRefused(InputsFault::TooLong),
        which => Stop::FileTooLong { which },
    }
}

/// All bytes of the file of this name.
pub(crate) fn read_bytes<F: Files>(
    alloc: Global,
    name: &str,
    which: WhichFile,
    files: &mut F,
) -> Result<Bytes, Stop>
    ensures whole { IfOk result
        (λ bytes. IfSome ((F.seen files.old).held name.now) (λ file. bytes ≡ file)) }
    ensures fits { IfOk result (λ bytes. length bytes ≤ limit_of which) }
    ensures unread { IfErr result
        (NoneCame (F.seen files.old) (F.seen files.new) name.now which) }
    ensures kept { AreKept (F.seen files.old) (F.seen files.new) }
    ensures came { IfOk result (λ bytes. (F.seen files.old).came ≤ (F.seen files.new).came) }
{
    match read_all(alloc, files, name, limit_of(which)) {
        Ok(bytes) => Ok(bytes),
        Err(ReadEnd::Failed) => Err(Stop::ReadFault(which)),
        Err(ReadEnd::TooLong) => Err(too_long_stop(which)),
        Err(ReadEnd::NoMemory) => Err(Stop::NoMemory),
    }
}
