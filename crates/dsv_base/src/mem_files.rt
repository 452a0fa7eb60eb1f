// Files in memory, whose fetches fail where they are told to.
use crate::memory::copy_from;
use crate::{FetchEnd, Files, NoMemory};
use std::alloc::Global;
use std::collections::BTreeMap;

/// Files in memory, each under its name. Fetches are numbered from 0; those that it was told of
/// fail, and so does a fetch of a name that isn't held. It tells the bytes of the files that it
/// holds.
#[derive(Drop)]
pub struct MemFiles {
    alloc: Global,
    files: BTreeMap<String, Vec<u8>>,
    failing: Vec<u64>,
    calls: u64,
    faults: u64,
    came: u64,
    blamed: Option<String>,
}

impl MemFiles {
    ghost use Rattle.std.specs.Prelude.{◌≡◌, ◌∷◌, [], ◌++◌, OnOk, OnErr, Result, Err};
    ghost use Rattle.dsv_base.specs.Held.{no_files, HoldsToo, after_fetch};
    ghost use Rattle.dsv_base.specs.FilesView.{state_of};

    /// No files.
    pub fn new(alloc: Global) -> Self
        ensures { state_of result ≡ no_files }
    {
        MemFiles {
            alloc,
            files: BTreeMap::new(alloc),
            failing: Vec::new(alloc),
            calls: 0,
            faults: 0,
            came: 0,
            blamed: None,
        }
    }

    /// Holds a file of this name, in place of one that was held under it before.
    pub fn hold(&mut self, name: &str, bytes: &[u8]) -> Result<(), NoMemory>
        ensures ok { OnOk result (HoldsToo (state_of self.old).held (state_of self.new).held
            name.now bytes.now) }
        ensures rest { state_of self.new
            ≡ record (state_of self.old) { held = (state_of self.new).held } }
        ensures err { OnErr result (state_of self.new ≡ state_of self.old) }
    {
        let key = String::from_str(self.alloc, name)?;
        let held = Vec::from_slice(self.alloc, bytes)?;
        self.files.insert(key, held)?;
        Ok(())
    }

    /// Makes the fetch of this number fail.
    pub fn fail_at(&mut self, call: u64) -> Result<(), NoMemory>
        ensures ok { OnOk result (state_of self.new
            ≡ record (state_of self.old) { failing = (state_of self.old).failing ++ call ∷ [] }) }
        ensures err { OnErr result (state_of self.new ≡ state_of self.old) }
    {
        self.failing.push(call)?;
        Ok(())
    }
}

impl MemFiles {
    ghost use Rattle.std.specs.Prelude.{◌≡◌, ◌≤◌, IsErr, IsErrOf, IfErr};
    ghost use Rattle.dsv_base.specs.Counts.{Rose};
    ghost use Rattle.dsv_base.specs.Held.{failed_fetch};
    ghost use Rattle.dsv_base.specs.FilesView.{state_of};

    /// Counts a fault and blames the name, or finds no memory for it.
    fn fail(&mut self, name: &str) -> Result<usize, FetchEnd>
        ensures err { IsErr result }
        ensures state { IfErr result (λ end. state_of self.new
            ≡ failed_fetch (state_of self.old) name.now end) }
        ensures came { (state_of self.new).came ≡ (state_of self.old).came }
        ensures faults { (state_of self.old).faults ≤ (state_of self.new).faults }
        ensures failed { IsErrOf result FetchEnd.Failed
            → Rose (state_of self.old).faults (state_of self.new).faults }
    {
        match String::from_str(self.alloc, name) {
            Ok(blamed) => {
                self.blamed = Some(blamed);
                self.faults = self.faults.saturating_add(1);
                Err(FetchEnd::Failed)
            }
            Err(_) => Err(FetchEnd::NoMemory),
        }
    }
}

impl Files for MemFiles {
    ghost use Rattle.std.specs.Prelude.{◌≡◌, ◌<◌, ◌≤◌, ◌^◌, not, is_ok, length};
    ghost use Rattle.std.specs.Prelude.{IfOk, OnOk, IfSome, IsErrOf, Some};
    ghost use Rattle.dsv_base.specs.Counts.{Rose, RoseBy};
    ghost use Rattle.dsv_base.specs.Reading.{IsChunk};
    ghost use Rattle.dsv_base.specs.FetchEnds.{count_of};
    ghost use Rattle.dsv_base.specs.Held.{seen_of, fetch_fails, after_fetch};
    ghost use Rattle.dsv_base.specs.FilesView.{state_of};

    ghost seen = { λ s. seen_of (state_of s) };

    fn fetch(&mut self, name: &str, at: u64, room: &mut [u8]) -> Result<usize, FetchEnd>
        requires has_room { 0 < length room.old }
        requires at { at ≤ 2 ^ 26 }
        // It fails exactly where it is told to or the file isn't held.
        ensures answers { is_ok result ≡ not (fetch_fails (state_of self.old) name.now) }
        ensures state { state_of self.new ≡ after_fetch (state_of self.old) name.now result }
        ensures count { IfOk result (λ c. c ≤ length room.old) }
        ensures piece { IfOk result
            (λ c. IfSome ((state_of self.old).held name.now) (λ file. IsChunk file at c room.new)) }
        ensures came { RoseBy (count_of result) (state_of self.old).came (state_of self.new).came }
        ensures faults { (state_of self.old).faults ≤ (state_of self.new).faults }
        ensures failed { IsErrOf result FetchEnd.Failed
            → Rose (state_of self.old).faults (state_of self.new).faults }
    {
        let call = self.calls;
        self.calls = self.calls.saturating_add(1);
        if self.failing.contains(&call) {
            return self.fail(name);
        }
        match self.files.get(name) {
            Some(bytes) => {
                let count = copy_from(bytes, at as usize, room);
                self.came = self.came.saturating_add(count as u64);
                Ok(count)
            }
            None => self.fail(name),
        }
    }
}
