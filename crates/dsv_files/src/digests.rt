// The digests of files that were read.
ghost use Rattle.std.specs.Prelude.{◌≡◌, [], ◌∷◌, ◌++◌, map, IfOk};
ghost use Rattle.sha2.specs.Sha256.{sha256};
ghost use Rattle.dsv_files.specs.Digests.{digest_view};

use dsv_base::{Bytes, Items, NoMemory};
use dsv_word_lines::digest_of;
use std::alloc::Global;

/// The SHA-256 digest of the bytes of the file of this name, and of a controller's file the name
/// that it gives the controller.
#[derive(Drop)]
pub struct FileDigest<'a> {
    pub name: &'a str,
    pub digest: [u8; 32],
    pub title: Bytes,
}

/// Those of the files that were read, in the order in which they were.
pub type Digests<'a> = Items<FileDigest<'a>>;

/// Adds the digest of a file's bytes, and this name in it.
pub(crate) fn log_titled<'a>(
    digests: &mut Digests<'a>,
    name: &'a str,
    bytes: &[u8],
    title: Bytes,
) -> Result<(), NoMemory>
    ensures { IfOk result (λ u. map digest_view digests.new ≡ map digest_view digests.old
        ++ record { name = name.now; digest = sha256 bytes.now; title = title } ∷ []) }
{
    let digest = digest_of(bytes);
    digests.push(FileDigest {
        name,
        digest,
        title,
    })
}

/// Adds the digest of the bytes of a file that gives no controller a name.
pub(crate) fn log_digest<'a>(
    alloc: Global,
    digests: &mut Digests<'a>,
    name: &'a str,
    bytes: &[u8],
) -> Result<(), NoMemory>
    ensures { IfOk result (λ u. map digest_view digests.new ≡ map digest_view digests.old
        ++ record { name = name.now; digest = sha256 bytes.now; title = [] } ∷ []) }
{
    log_titled(digests, name, bytes, Bytes::new(alloc))
}
