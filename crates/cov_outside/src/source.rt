// Where bytes come from.
ghost use Rattle.std.specs.Prelude.{ℕ, ◌≤◌, List, Option, length, IsErr, IfOk};
ghost use Rattle.cov_outside.specs.Outside.{HasCause, Reads};

use crate::faults::Failed;

/// Where bytes come from.
pub trait Source {
    /// The bytes that no read took yet, where told.
    ghost remaining: { Self → Option (List ℕ) };

    /// How many faults there were.
    ghost faults: { Self → ℕ };

    /// Takes the next bytes into the front of `into`, and says how many. None for a piece that
    /// isn't empty is the end. After `Failed` nothing was taken.
    fn read(&mut self, into: &mut [u8]) -> Result<usize, Failed>
        ensures fits { IfOk result (λ n. n ≤ length into.new) }
        ensures reads { Reads (remaining self.old) (remaining self.new) result into.new }
        ensures cause { HasCause (faults self.old) (faults self.new) (IsErr result) };
}
