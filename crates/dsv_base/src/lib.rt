//! The outside of the verifier, seen through two traits: files that are read in pieces, and a sink
//! that takes bytes. Beside them stand their forms in memory, the small lists that other crates
//! hand on, and the writers of text.
#![tactic(auto)]

mod files;
mod items;
mod mem_files;
mod mem_sink;
mod memory;
mod silent_files;
mod sink;
mod text;

pub use files::{FetchEnd, Files, ReadEnd, read_all};
pub use items::{Bytes, Items, WordList};
pub use mem_files::MemFiles;
pub use mem_sink::MemSink;
pub use memory::NoMemory;
pub use silent_files::SilentFiles;
pub use sink::{Failed, Sink, put_all};
pub use text::{put_line, put_number, put_spaced};
