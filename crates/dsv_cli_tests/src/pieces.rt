// Files that give one byte at a time.
ghost use Rattle.dsv_base.specs.Held.{seen_of};
ghost use Rattle.dsv_base.specs.FilesView.{state_of};

use dsv_base::{FetchEnd, Files, MemFiles};

/// Files in memory of which each fetch gives one byte at most.
#[derive(Drop)]
pub(crate) struct OneByOne {
    pub(crate) files: MemFiles,
}

impl Files for OneByOne {
    ghost seen = { λ s. seen_of (state_of s.files) };

    fn fetch(&mut self, name: &str, at: u64, room: &mut [u8]) -> Result<usize, FetchEnd> {
        self.files.fetch(name, at, &mut room[..1])
    }
}
