// A sink that takes bytes.
ghost use Rattle.std.specs.Prelude.{◌≡◌, ◌<◌, ◌≤◌, length, take, IfOk, OnErr};
ghost use Rattle.dsv_base.specs.Counts.{Rose};
ghost use Rattle.dsv_base.specs.Seen.{SinkSeen};
ghost use Rattle.dsv_base.specs.Taking.{Grew, Writes};

use thiserror::Error;

/// The sink failed.
#[derive(Clone, Copy, Debug, PartialEq, Eq, Error)]
#[error("the sink failed")]
pub struct Failed;

/// What takes bytes, as standard output does.
pub trait Sink {
    /// What it tells: the bytes that it took and how many puts failed.
    ghost seen: { Self → SinkSeen };

    /// Takes one byte or more from the front of the piece, and answers how many.
    fn put(&mut self, piece: &[u8]) -> Result<usize, Failed>
        requires { 0 < length piece.now }
        ensures some { IfOk result (λ c. (1 ≤ c) × (c ≤ length piece.now)) }
        ensures taken { IfOk result
            (λ c. Grew (seen self.old).taken (seen self.new).taken (take c piece.now)) }
        ensures kept { OnErr result ((seen self.new).taken ≡ (seen self.old).taken) }
        ensures faults { (seen self.old).faults ≤ (seen self.new).faults }
        ensures failed { OnErr result (Rose (seen self.old).faults (seen self.new).faults) };
}

/// Puts the whole piece, or after `Failed` a prefix of it. It takes no memory.
pub fn put_all<K: Sink>(sink: &mut K, piece: &[u8]) -> Result<(), Failed>
    ensures { Writes (K.seen sink.old) (K.seen sink.new) result piece.now }
{
    let mut rest = piece;
    while !rest.is_empty() {
        let count = sink.put(rest)?;
        rest = &rest[count..];
    }
    Ok(())
}
