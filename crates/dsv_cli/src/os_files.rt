// The real files and the real output. They tell nothing of content: no clause says what a file
// holds or an output took.
ghost use Rattle.std.specs.Prelude.{◌≡◌, ◌≤◌, length, None, IfOk, string_bytes};
ghost use Rattle.std.specs.Option.{option_map};
ghost use Rattle.dsv_base.specs.Counts.{RoseBy};

use dsv_base::{Failed, FetchEnd, Files, Sink};
use std::alloc::Global;
use std::fs::File;
use std::io;
use std::io::{ErrorKind, Read, Seek, SeekFrom, Write};

/// A file that is open, of which so many bytes were read.
#[derive(Drop)]
struct OpenFile {
    name: String,
    file: File,
    read: u64,
}

/// The files of the system. They count faults and the bytes that came, and keep the name of the
/// last fetch that failed. The file that was read last stays open, so that one which can't be read
/// twice, as a pipe, is read once, from its beginning on.
#[derive(Drop)]
pub struct OsFiles {
    rt: HostRuntime,
    alloc: Global,
    faults: u64,
    came: u64,
    blamed: Option<String>,
    last: Option<OpenFile>,
}

impl OsFiles {
    /// The files of the system, of which nothing was read.
    pub fn new(rt: HostRuntime, alloc: Global) -> Self
        ensures { ⟦<OsFiles as Files>⟧.seen result
            ≡ record { held = λ _. None; faults = 0; blamed = None; came = 0 } }
    {
        OsFiles {
            rt,
            alloc,
            faults: 0,
            came: 0,
            blamed: None,
            last: None,
        }
    }

    /// Opens the file of this name, whose next byte is the one at this place.
    fn open(&self, name: &str, at: u64) -> io::Result<OpenFile> {
        let name_kept = String::from_str(self.alloc, name)?;
        let mut file = File::open(&self.rt, name)?;
        if at > 0 {
            file.seek(SeekFrom::Start(at))?;
        }
        Ok(OpenFile {
            name: name_kept,
            file,
            read: at,
        })
    }

    /// The file of this name, whose next byte is the one at this place: the file that was read
    /// last, if it is this one and was read so far, and else one that is opened.
    fn file_at(&mut self, name: &str, at: u64) -> io::Result<OpenFile>
        ensures { self.new ≡ record self.old { last = self.new.last } }
    {
        if let Some(last) = self.last.take() {
            if last.read == at && last.name.as_str() == name {
                return Ok(last);
            }
        }
        self.open(name, at)
    }

    /// Reads a piece of the file of this name.
    fn read_piece(&mut self, name: &str, at: u64, room: &mut [u8]) -> io::Result<usize>
        ensures few { IfOk result (λ count. count ≤ length room.old) }
        ensures rest { self.new ≡ record self.old { last = self.new.last } }
    {
        let mut open = self.file_at(name, at)?;
        let count = open.file.read(room)?;
        open.read = open.read.saturating_add(count as u64);
        self.last = Some(open);
        Ok(count)
    }

    /// Counts bytes that came.
    fn count(&mut self, bytes: usize)
        ensures came { RoseBy bytes self.old.came self.new.came }
        ensures rest { self.new ≡ record self.old { came = self.new.came } }
    {
        self.came = self.came.saturating_add(bytes as u64);
    }
}

impl Files for OsFiles {
    ghost seen = { λ s. record {
      held = λ _. None;
      faults = s.faults;
      blamed = option_map string_bytes s.blamed;
      came = s.came;
    } };

    fn fetch(&mut self, name: &str, at: u64, room: &mut [u8]) -> Result<usize, FetchEnd> {
        match self.read_piece(name, at, room) {
            Ok(count) => {
                self.count(count);
                Ok(count)
            }
            Err(error) if error.kind() == ErrorKind::OutOfMemory => Err(FetchEnd::NoMemory),
            Err(_) => {
                let Ok(blamed) = String::from_str(self.alloc, name) else {
                    return Err(FetchEnd::NoMemory);
                };
                self.blamed = Some(blamed);
                self.faults = self.faults.saturating_add(1);
                Err(FetchEnd::Failed)
            }
        }
    }
}

/// Standard output. It counts the writes that failed or took nothing.
#[derive(Drop)]
pub struct OsOut {
    rt: HostRuntime,
    faults: u64,
}

impl OsOut {
    /// Standard output, to which nothing was written.
    pub fn new(rt: HostRuntime) -> Self
        ensures { ⟦<OsOut as Sink>⟧.seen result ≡ record { taken = None; faults = 0 } }
    {
        OsOut { rt, faults: 0 }
    }
}

impl Sink for OsOut {
    ghost seen = { λ s. record { taken = None; faults = s.faults } };

    fn put(&mut self, piece: &[u8]) -> Result<usize, Failed> {
        match io::writer(&self.rt).write(piece) {
            Ok(count) if count > 0 => Ok(count),
            _ => {
                self.faults = self.faults.saturating_add(1);
                Err(Failed)
            }
        }
    }
}
