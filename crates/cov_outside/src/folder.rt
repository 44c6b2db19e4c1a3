// Where files lie.
ghost use Rattle.std.specs.Prelude.{◌≡◌, ℕ, ◌≤◌, List, Option, length, IsErrOf, IfOk, IfSome};
ghost use Rattle.cov_outside.specs.Outside.{HasCause, Loads, Replaces};

use crate::faults::{LoadFault, SinkFault};

/// Files by name.
pub trait Folder {
    /// The bytes under each name, where told.
    ghost files: { Self → Option (List ℕ → Option (List ℕ)) };

    /// How many faults there were.
    ghost faults: { Self → ℕ };

    /// The bytes under the name, at most `limit` of them. `None` where the name has no file, and
    /// `TooLong` where its file is longer than the limit.
    fn load(&mut self, name: &str, limit: usize) -> Result<Option<Vec<u8>>, LoadFault>
        ensures limit { IfOk result (λ found. IfSome found (λ bytes. length bytes.items ≤ limit)) }
        ensures loads { Loads (files self.old) name.now limit result }
        ensures kept { files self.new ≡ files self.old }
        ensures cause { HasCause (faults self.old) (faults self.new)
            (IsErrOf result LoadFault.Failed) };

    /// Puts the bytes under the name. Where that fails, the files are as they were.
    fn replace(&mut self, name: &str, bytes: &[u8]) -> Result<(), SinkFault>
        ensures replaces { Replaces (files self.old) (files self.new) name.now bytes.now result }
        ensures cause { HasCause (faults self.old) (faults self.new)
            (IsErrOf result SinkFault.Failed) };
}
