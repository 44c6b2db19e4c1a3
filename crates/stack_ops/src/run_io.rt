//! What a run reads and what it puts.

ghost use Rattle.std.specs.Prelude.{◌≡◌, ◌+◌, ◌<◌, ◌≤◌, ◌^◌, ℕ, List, [], ◌∷◌, ◌++◌, length, drop, IfOk, OnOk, OnErr, MatchOption, IfSome, IsTrue, ◌↔◌};
ghost use Rattle.stack_ops.specs.Stack.{bytes_left};

use cov_base::NoMemory;
use std::alloc::Global;
use std::marker::Model;

/// The bytes of the input with a place in them, and the output within a limit whose room was taken
/// before.
#[derive(Drop)]
pub struct RunIo {
    alloc: Global,
    input: Vec<u8>,
    place: usize,
    output: Vec<u8>,
    limit: u32,
}

impl Model for RunIo {
    ghost use Rattle.std.specs.Prelude.{◌≤◌, vec_len, vec_capacity};
    ghost use Rattle.stack_ops.specs.Stack.{IoValue};

    ghost Value = { IoValue };

    ghost view = { λ io.
        record {
          input = io.input.items;
          place = io.place;
          output = io.output.items;
          limit = io.limit;
        } };

    ghost invariant = { λ io. (io.place ≤ vec_len io.input) × (vec_len io.output ≤ io.limit)
        × (io.limit ≤ vec_capacity io.output) };
}

impl RunIo {
    /// No input and no output, with room for limit bytes of output.
    pub fn new(alloc: Global, limit: u32) -> Result<RunIo, NoMemory>
        ensures { IfOk result
            (λ io. io ≡ record { input = []; place = 0; output = []; limit = limit }) }
    {
        Ok(RunIo {
            alloc,
            input: Vec::new(alloc),
            place: 0,
            output: Vec::with_capacity(alloc, limit as usize)?,
            limit,
        })
    }

    /// Puts these bytes in place of the input, to be read from their first.
    pub fn give(&mut self, input: &[u8]) -> Result<(), NoMemory>
        ensures ok { OnOk result (self.new ≡ record self.old { input = input.now; place = 0 }) }
        ensures err { OnErr result (self.new ≡ self.old) }
    {
        self.input = Vec::from_slice(self.alloc, input)?;
        self.place = 0;
        Ok(())
    }

    /// What was put, the first byte first.
    pub fn output(&self) -> &[u8]
        ensures value { result.now ≡ self.now.output }
        ensures within { length self.now.output ≤ self.now.limit }
    {
        &self.output
    }

    /// Forgets what was put.
    pub fn clear(&mut self)
        ensures { self.new ≡ record self.old { output = [] } }
    {
        self.output.clear();
    }

    /// Reads the next byte of the input; none at its end.
    pub(crate) fn next(&mut self) -> Option<u8>
        ensures taken { MatchOption result
            ((bytes_left self.old ≡ []) × (self.new ≡ self.old))
            (λ byte. bytes_left self.old ≡ byte ∷ bytes_left self.new) }
        ensures kept { self.new ≡ record self.old { place = self.new.place } }
        ensures within { self.new.place ≤ length self.new.input }
        ensures byte { IfSome result (λ byte. byte < 256) }
    {
        if self.place >= self.input.len() {
            return None;
        }
        let byte = self.input[self.place];
        self.place += 1;
        Some(byte)
    }

    /// There are as many bytes in the output as may be.
    pub(crate) fn is_full(&self) -> bool
        ensures full { IsTrue result ↔ (self.now.limit ≤ length self.now.output) }
        ensures within { length self.now.output ≤ self.now.limit }
        ensures place { self.now.place ≤ length self.now.input }
    {
        self.output.len() >= self.limit as usize
    }

    /// Appends a byte to the output.
    pub(crate) fn put(&mut self, byte: u8)
        requires { length self.old.output < self.old.limit }
        ensures { self.new ≡ record self.old { output = self.old.output ++ byte ∷ [] } }
    {
        self.output.push_reserved(byte);
    }
}
