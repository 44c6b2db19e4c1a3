//! What a run reads, and where it puts bytes.

ghost use Rattle.std.specs.Prelude.{◌≡◌, ◌<◌, ◌≤◌, ℕ, List, [], ◌∷◌, ◌++◌, length, nat_lt, Bool, true, false, MatchOption, IfSome, vec_len, vec_capacity};
ghost use Rattle.cov_base.specs.Limits.{output_limit};
ghost use Rattle.stack_machine.specs.Streams.{with_byte};

use cov_base::OUTPUT_LIMIT;

/// The input and the output of a run.
pub(crate) trait Streams {
    /// The bytes that are left, and those that were put.
    ghost left: { Self → List ℕ };

    ghost written: { Self → List ℕ };

    /// Reads the next byte; none at the end.
    fn next(&mut self) -> Option<u8>
        ensures taken { MatchOption result ((left self.old ≡ []) × (left self.new ≡ []))
            (λ byte. left self.old ≡ byte ∷ left self.new) }
        ensures written { written self.new ≡ written self.old }
        ensures byte { IfSome result (λ byte. byte < 256) };

    /// Puts a byte, where the output has room for it.
    fn put(&mut self, byte: u8) -> bool
        ensures room { result ≡ nat_lt (length (written self.old)) output_limit }
        ensures put { written self.new ≡ with_byte result byte (written self.old) }
        ensures left { left self.new ≡ left self.old };
}

/// An input in memory, and an output in a room that was taken before.
#[derive(Drop)]
pub(crate) struct Slices<'a> {
    pub(crate) input: &'a [u8],
    pub(crate) output: Vec<u8>,
    ghost room: { output_limit ≤ vec_capacity output },
}

impl Streams for Slices<'_> {
    ghost left = { λ s. s.input.now };

    ghost written = { λ s. s.output.items };

    #[inline(always)]
    fn next(&mut self) -> Option<u8> {
        let (first, rest) = self.input.split_first()?;
        let byte = *first;
        self.input = rest;
        Some(byte)
    }

    #[inline(always)]
    fn put(&mut self, byte: u8) -> bool {
        if self.output.len() >= OUTPUT_LIMIT {
            return false;
        }
        self.output.push_reserved(byte);
        true
    }
}
