// Bytes that are read from the front.
ghost use Rattle.std.specs.Prelude.{◌≡◌, min, take, drop, length, ◌++◌};

use std::marker::Model;

/// The bytes that are left.
#[derive(Drop)]
pub(crate) struct RemainingBytes {
    bytes: Vec<u8>,
    at: usize,
}

impl Model for RemainingBytes {
    ghost use Rattle.std.specs.Prelude.{List, ℕ, drop, length, ◌≤◌};

    ghost Value = { List ℕ };

    ghost view = { λ l. drop l.at l.bytes.items };

    ghost invariant = { λ l. l.at ≤ length l.bytes.items };
}

impl RemainingBytes {
    pub(crate) fn new(bytes: Vec<u8>) -> RemainingBytes
        ensures { result ≡ bytes.items }
    {
        RemainingBytes { bytes, at: 0 }
    }

    /// Takes as many bytes as there are and fit.
    pub(crate) fn take(&mut self, into: &mut [u8]) -> usize
        ensures count { result ≡ min (length into.old) (length self.old) }
        ensures into { into.new ≡ take result self.old ++ drop result into.old }
        ensures rest { self.new ≡ drop result self.old }
    {
        let rest = &self.bytes[self.at..];
        let count = into.len().min(rest.len());
        into[..count].copy_from_slice(&rest[..count]);
        self.at += count;
        count
    }
}
