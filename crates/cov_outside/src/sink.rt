// Where bytes go.
ghost use Rattle.std.specs.Prelude.{ℕ, ◌<◌, ◌≤◌, List, Option, length, IsErrOf, IfOk};
ghost use Rattle.cov_outside.specs.Outside.{HasCause, Writes, WritesAll};

use crate::faults::SinkFault;

/// Where bytes go.
pub trait Sink {
    /// The bytes written, where told.
    ghost written: { Self → Option (List ℕ) };

    /// How many faults there were.
    ghost faults: { Self → ℕ };

    /// How often memory was wanting.
    ghost wants: { Self → ℕ };

    /// Appends the first bytes of the piece, and says how many: at least one, if the piece isn't
    /// empty. After a fault nothing was taken.
    fn write(&mut self, piece: &[u8]) -> Result<usize, SinkFault>
        ensures fits { IfOk result (λ n. n ≤ length piece.now) }
        ensures goes { IfOk result (λ n. 0 < length piece.now → 0 < n) }
        ensures writes { Writes (written self.old) (written self.new) result piece.now }
        ensures cause { HasCause (faults self.old) (faults self.new)
            (IsErrOf result SinkFault.Failed) }
        ensures want { HasCause (wants self.old) (wants self.new)
            (IsErrOf result SinkFault.NoMemory) };
}

/// Appends all the bytes. After a fault a front of them was written.
pub fn write_all<K: Sink>(sink: &mut K, bytes: &[u8]) -> Result<(), SinkFault>
    ensures writes { WritesAll (K.written sink.old) (K.written sink.new) result bytes.now }
    ensures cause { HasCause (K.faults sink.old) (K.faults sink.new)
        (IsErrOf result SinkFault.Failed) }
    ensures want { HasCause (K.wants sink.old) (K.wants sink.new)
        (IsErrOf result SinkFault.NoMemory) }
{
    let mut at = 0;
    while at < bytes.len() {
        at += sink.write(&bytes[at..])?;
    }
    Ok(())
}
