// A sink in memory that grows.
use dsv_base::{Bytes, Failed, Sink};
use std::alloc::Global;
use std::marker::Model;

/// A text in memory, which grows as it is written. A put fails if there is no memory for it.
#[derive(Drop)]
pub struct TextSink {
    /// The bytes that were taken.
    taken: Vec<u8>,
    /// How many puts failed; the count stands still at the last number that fits.
    faults: u64,
}

impl Model for TextSink {
    ghost use Rattle.dsv_word_lines.specs.Texts.{TextView};

    ghost Value = { TextView };

    ghost view = { λ s. record { taken = s.taken.items; faults = s.faults } };
}

impl TextSink {
    ghost use Rattle.std.specs.Prelude.{◌≡◌};
    ghost use Rattle.dsv_word_lines.specs.Texts.{empty_text};

    /// No text.
    pub fn new(alloc: Global) -> TextSink
        ensures { result ≡ empty_text }
    {
        TextSink {
            taken: Vec::new(alloc),
            faults: 0,
        }
    }

    /// The bytes that were taken.
    pub fn into_bytes(self) -> Bytes
        ensures { result ≡ self.taken }
    {
        Bytes::from(self.taken)
    }
}

impl Sink for TextSink {
    ghost use Rattle.std.specs.Prelude.{◌≡◌, ◌<◌, ◌≤◌, length, IfOk, OnErr, Some};
    ghost use Rattle.dsv_base.specs.Counts.{Rose};
    ghost use Rattle.dsv_word_lines.specs.Texts.{after_put};

    ghost seen = { λ s. record { taken = Some s.taken; faults = s.faults } };

    fn put(&mut self, piece: &[u8]) -> Result<usize, Failed>
        requires { 0 < length piece.now }
        ensures whole { IfOk result (λ c. c ≡ length piece.now) }
        ensures state { self.new ≡ after_put self.old piece.now result }
        ensures some { IfOk result (λ c. (1 ≤ c) × (c ≤ length piece.now)) }
        ensures faults { self.old.faults ≤ self.new.faults }
        ensures failed { OnErr result (Rose self.old.faults self.new.faults) }
    {
        match self.taken.extend_from_slice(piece) {
            Ok(()) => Ok(piece.len()),
            Err(_) => {
                self.faults = self.faults.saturating_add(1);
                Err(Failed)
            }
        }
    }
}
