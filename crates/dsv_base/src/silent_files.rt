// Files that never fail.
use crate::memory::copy_from;
use crate::{FetchEnd, Files, NoMemory};
use std::alloc::Global;
use std::marker::Model;

/// One content under every name. It tells the content, and its fetches never fail.
#[derive(Drop)]
pub struct SilentFiles {
    bytes: Vec<u8>,
    came: u64,
}

impl Model for SilentFiles {
    ghost use Rattle.dsv_base.specs.Content.{Content};

    ghost Value = { Content };

    ghost view = { λ s. record { bytes = s.bytes.items; came = s.came } };
}

impl SilentFiles {
    ghost use Rattle.std.specs.Prelude.{◌≡◌, IfOk};

    /// This content under every name.
    pub fn new(alloc: Global, bytes: &[u8]) -> Result<Self, NoMemory>
        ensures { IfOk result (λ files. files ≡ record { bytes = bytes.now; came = 0 }) }
    {
        Ok(SilentFiles {
            bytes: Vec::from_slice(alloc, bytes)?,
            came: 0,
        })
    }
}

impl Files for SilentFiles {
    ghost use Rattle.std.specs.Prelude.{◌≡◌, ◌<◌, ◌≤◌, ◌^◌, length};
    ghost use Rattle.std.specs.Prelude.{IsOk, IfOk, Some, None};
    ghost use Rattle.dsv_base.specs.Counts.{RoseBy, count_after};
    ghost use Rattle.dsv_base.specs.Reading.{IsChunk};
    ghost use Rattle.dsv_base.specs.FetchEnds.{count_of};

    ghost seen = { λ s. record {
      held = λ name. Some s.bytes;
      faults = 0;
      blamed = None;
      came = s.came;
    } };

    fn fetch(&mut self, _name: &str, at: u64, room: &mut [u8]) -> Result<usize, FetchEnd>
        requires has_room { 0 < length room.old }
        requires at { at ≤ 2 ^ 26 }
        ensures never_fails { IsOk result }
        ensures count { IfOk result (λ c. c ≤ length room.old) }
        ensures piece { IfOk result (λ c. IsChunk self.old.bytes at c room.new) }
        ensures state { self.new ≡ record self.old {
          came = count_after self.old.came (count_of result);
        } }
        ensures came { RoseBy (count_of result) self.old.came self.new.came }
    {
        let count = copy_from(&self.bytes, at as usize, room);
        self.came = self.came.saturating_add(count as u64);
        Ok(count)
    }
}
