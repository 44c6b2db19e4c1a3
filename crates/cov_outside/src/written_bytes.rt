// Bytes that are appended at the end.
ghost use Rattle.std.specs.Prelude.{◌≡◌, [], ◌++◌, length, OnErr, OnOk, IfOk, IfErr};

use crate::faults::SinkFault;
use std::alloc::Global;
use std::marker::Model;

/// The bytes that were written.
#[derive(Drop)]
pub(crate) struct WrittenBytes {
    bytes: Vec<u8>,
}

impl Model for WrittenBytes {
    ghost use Rattle.std.specs.Prelude.{List, ℕ};

    ghost Value = { List ℕ };

    ghost view = { λ k. k.bytes.items };
}

impl WrittenBytes {
    pub(crate) fn new(alloc: Global) -> WrittenBytes
        ensures { result ≡ [] }
    {
        WrittenBytes {
            bytes: Vec::new(alloc),
        }
    }

    pub(crate) fn bytes(&self) -> &[u8]
        ensures { result.now ≡ self.now }
    {
        &self.bytes
    }

    /// Appends the whole piece, if memory is found.
    pub(crate) fn append(&mut self, piece: &[u8]) -> Result<usize, SinkFault>
        ensures count { IfOk result (λ n. n ≡ length piece.now) }
        ensures ok { OnOk result (self.new ≡ self.old ++ piece.now) }
        ensures fault { IfErr result (λ fault. fault ≡ SinkFault.NoMemory) }
        ensures err { OnErr result (self.new ≡ self.old) }
    {
        self.bytes.extend_from_slice(piece)?;
        Ok(piece.len())
    }
}
