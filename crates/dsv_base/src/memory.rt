// Want of memory, and what the objects in memory share.
ghost use Rattle.std.specs.Prelude.{◌<◌, ◌≤◌, length};
ghost use Rattle.dsv_base.specs.Reading.{IsChunk};

use std::alloc::{AllocError, AllocFailed};
use thiserror::Error;

/// There was no memory.
#[derive(Clone, Copy, Debug, PartialEq, Eq, Error)]
#[error("out of memory")]
pub struct NoMemory;

impl From<AllocError> for NoMemory {
    fn from(_: AllocError) -> Self {
        NoMemory
    }
}

impl<T: Drop> From<AllocFailed<T>> for NoMemory {
    fn from(_: AllocFailed<T>) -> Self {
        NoMemory
    }
}

/// Copies into `room` what fits there of the bytes from `at` on, and answers how many these are.
pub(crate) fn copy_from(bytes: &[u8], at: usize, room: &mut [u8]) -> usize
    requires { 0 < length room.old }
    ensures count { result ≤ length room.old }
    ensures piece { IsChunk bytes.now at result room.new }
{
    if at >= bytes.len() {
        return 0;
    }
    let rest = &bytes[at..];
    let count = rest.len().min(room.len());
    room[..count].copy_from_slice(&rest[..count]);
    count
}
