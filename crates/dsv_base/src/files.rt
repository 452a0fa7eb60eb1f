// Files that are read in pieces.
ghost use Rattle.std.specs.Prelude.{◌≡◌, ◌+◌, ◌^◌, ◌<◌, ◌≤◌, ◌⊎◌};
ghost use Rattle.std.specs.Prelude.{length, IfOk, OnOk, IfSome, IsErrOf};
ghost use Rattle.dsv_base.specs.Counts.{Rose, RoseBy};
ghost use Rattle.dsv_base.specs.Reading.{IsChunk};
ghost use Rattle.dsv_base.specs.Seen.{FilesSeen};
ghost use Rattle.dsv_base.specs.FetchEnds.{count_of, read_end_of};
ghost use Rattle.dsv_base.specs.declared.files.ReadEnd.TheVariants as end;

use crate::{Bytes, NoMemory};
use std::alloc::Global;
use thiserror::Error;

/// How a fetch ended without bytes.
#[derive(Clone, Copy, Debug, PartialEq, Eq, Error)]
pub enum FetchEnd {
    #[error("the read failed")]
    Failed,
    #[error("out of memory")]
    NoMemory,
}

/// Files that are read in pieces, each under a name. A missing file is a fault.
pub trait Files {
    /// What they tell: the bytes of each name, how many fetches failed and which name the last of
    /// these had, and how many bytes came.
    ghost seen: { Self → FilesSeen };

    /// Reads into `room` what comes first of the file's bytes from the offset `at` on, and answers
    /// how many bytes came; none come only at the file's end or after it.
    fn fetch(&mut self, name: &str, at: u64, room: &mut [u8]) -> Result<usize, FetchEnd>
        requires has_room { 0 < length room.old }
        requires at { at ≤ 2 ^ 26 }
        ensures held { (seen self.new).held ≡ (seen self.old).held }
        ensures count { IfOk result (λ c. c ≤ length room.old) }
        ensures piece { IfOk result
            (λ c. IfSome ((seen self.old).held name.now) (λ file. IsChunk file at c room.new)) }
        ensures came { RoseBy (count_of result) (seen self.old).came (seen self.new).came }

        ensures faults { (seen self.old).faults ≤ (seen self.new).faults }
        ensures failed { IsErrOf result FetchEnd.Failed
            → Rose (seen self.old).faults (seen self.new).faults }
        ensures blamed { IsErrOf result FetchEnd.Failed → (seen self.new).blamed ≡ Some name.now }
        ensures blamed_on_ok { OnOk result ((seen self.new).blamed ≡ (seen self.old).blamed) }
        ensures blamed_on_no_memory { IsErrOf result FetchEnd.NoMemory
            → (seen self.new).blamed ≡ (seen self.old).blamed };
}

/// How reading a file ended without it.
#[derive(Clone, Copy, Debug, PartialEq, Eq, Error)]
pub enum ReadEnd {
    /// A fetch failed.
    #[error("the read failed")]
    Failed,
    /// More bytes came than were allowed.
    #[error("the file is too long")]
    TooLong,
    #[error("out of memory")]
    NoMemory,
}

impl From<NoMemory> for ReadEnd {
    ghost from_gives = { λ _ e. e ≡ end.NoMemory };

    fn from(_: NoMemory) -> Self {
        ReadEnd::NoMemory
    }
}

impl From<FetchEnd> for ReadEnd {
    ghost from_gives = { λ f e. e ≡ read_end_of f };

    fn from(end: FetchEnd) -> Self {
        match end {
            FetchEnd::Failed => ReadEnd::Failed,
            FetchEnd::NoMemory => ReadEnd::NoMemory,
        }
    }
}

/// How many bytes are asked for at a time.
const PIECE: usize = 4096;

/// Reads the whole file of a name, where it has at most `limit` bytes.
pub fn read_all<F: Files>(
    alloc: Global,
    files: &mut F,
    name: &str,
    limit: u64,
) -> Result<Bytes, ReadEnd>
    requires { limit ≤ 2 ^ 26 }
    ensures held { (F.seen files.new).held ≡ (F.seen files.old).held }
    ensures whole { IfOk result
        (λ bytes. IfSome ((F.seen files.old).held name.now) (λ file. bytes ≡ file)) }
    ensures fits { IfOk result (λ bytes. length bytes ≤ limit) }
    ensures all { IfOk result
        (λ bytes. RoseBy (length bytes) (F.seen files.old).came (F.seen files.new).came) }

    // More than `limit` bytes came, also where the file's bytes aren't told; and else at most as
    // many.
    ensures too_long { IsErrOf result ReadEnd.TooLong
        → IfSome ((F.seen files.old).held name.now) (λ file. limit < length file) }
    ensures too_many { IsErrOf result ReadEnd.TooLong
        → Rose ((F.seen files.old).came + limit) (F.seen files.new).came }
    ensures not_too_many { IsErrOf result ReadEnd.TooLong
        ⊎ ((F.seen files.new).came ≤ (F.seen files.old).came + limit) }

    ensures faults { (F.seen files.old).faults ≤ (F.seen files.new).faults }
    ensures failed { IsErrOf result ReadEnd.Failed
        → Rose (F.seen files.old).faults (F.seen files.new).faults }
    ensures blamed { IsErrOf result ReadEnd.Failed → (F.seen files.new).blamed ≡ Some name.now }
    ensures blamed_else { IsErrOf result ReadEnd.Failed
        ⊎ ((F.seen files.new).blamed ≡ (F.seen files.old).blamed) }
{
    let mut bytes = Bytes::new(alloc);
    let mut got = 0;
    let mut room = [0; PIECE];
    for turn in 0..limit + 2 {
        let count = files.fetch(name, got, &mut room)?;
        if count == 0 {
            return Ok(bytes);
        }
        got += count as u64;
        if got > limit {
            return Err(ReadEnd::TooLong);
        }
        bytes.extend_from_slice(&room[..count])?;
    }
    unreachable!()
}
