// The single calls on files of which a folder is made.
ghost use Rattle.std.specs.Prelude.{
  ◌≡◌,
  ◌<◌,
  ◌≤◌,
  ℕ,
  List,
  Option,
  Bool,
  true,
  length,
  IfOk,
  OnOk,
};
ghost use Rattle.cov_outside.specs.FileCalls.{
  Appends,
  Creates,
  IsCallFault,
  KeepsOthers,
  Opens,
  Renames,
  Told,
};
ghost use Rattle.cov_outside.specs.Outside.{HasCause, Reads};

use crate::faults::CallFault;

/// The calls of a file system. Each is made once, and its answer handed on.
pub(crate) trait FileCalls {
    /// An open file.
    type File: Drop;

    /// The bytes under each name, where told.
    ghost files: { Self → Option (List ℕ → Option (List ℕ)) };

    /// How many calls failed or were interrupted.
    ghost faults: { Self → ℕ };

    /// The bytes of a file opened for reading that no read took yet, where told.
    ghost unread: { Self.File → Option (List ℕ) };

    /// The name of a created file, where files are told.
    ghost name_of: { Self.File → List ℕ };

    /// Whether all that was written to a created file is on the disk.
    ghost is_synced: { Self.File → Bool };

    /// Opens a file for reading. `None` where the name has no file.
    fn open(&mut self, name: &str) -> Result<Option<Self::File>, CallFault>
        ensures opens { Opens unread (files self.old) name.now result }
        ensures stands { files self.new ≡ files self.old }
        ensures cause { HasCause (faults self.old) (faults self.new) (IsCallFault result) };

    /// Takes the next bytes of a file, and says how many. None for a piece that isn't empty is the
    /// end.
    fn read(&mut self, file: &mut Self::File, into: &mut [u8]) -> Result<usize, CallFault>
        ensures fits { IfOk result (λ n. n ≤ length into.new) }
        ensures reads { Reads (unread file.old) (unread file.new) result into.new }
        ensures stands { files self.new ≡ files self.old }
        ensures cause { HasCause (faults self.old) (faults self.new) (IsCallFault result) };

    /// Makes an empty file for writing, in place of one of that name.
    fn create(&mut self, name: &str) -> Result<Self::File, CallFault>
        ensures creates { Told (Creates name_of name.now result) (files self.old) (files self.new) }
        ensures cause { HasCause (faults self.old) (faults self.new) (IsCallFault result) };

    /// Puts the first bytes of the piece at the end of a created file, and says how many: at least
    /// one, if the piece isn't empty.
    fn write(&mut self, file: &mut Self::File, piece: &[u8]) -> Result<usize, CallFault>
        ensures fits { IfOk result (λ n. n ≤ length piece.now) }
        ensures goes { IfOk result (λ n. 0 < length piece.now → 0 < n) }
        ensures named { name_of file.new ≡ name_of file.old }
        ensures appends { Told (Appends (name_of file.old) result piece.now) (files self.old)
            (files self.new) }
        ensures cause { HasCause (faults self.old) (faults self.new) (IsCallFault result) };

    /// Waits until all that was written to a created file is on the disk.
    fn sync(&mut self, file: &mut Self::File) -> Result<(), CallFault>
        ensures synced { OnOk result (is_synced file.new ≡ true) }
        ensures named { name_of file.new ≡ name_of file.old }
        ensures stands { files self.new ≡ files self.old }
        ensures cause { HasCause (faults self.old) (faults self.new) (IsCallFault result) };

    /// Closes a created file and puts it under another name, in place of one of that name. A file
    /// that may not be on the disk yet isn't renamed: where the machine stops, the name would have
    /// neither file.
    fn rename(&mut self, file: Self::File, from: &str, to: &str) -> Result<(), CallFault>
        requires synced { is_synced file ≡ true }
        ensures renames { Told (Renames from.now to.now result) (files self.old) (files self.new) }
        ensures cause { HasCause (faults self.old) (faults self.new) (IsCallFault result) };

    /// Removes a file. After a fault it may be there still.
    fn remove(&mut self, name: &str) -> Result<(), CallFault>
        ensures removes { Told (KeepsOthers name.now) (files self.old) (files self.new) }
        ensures cause { HasCause (faults self.old) (faults self.new) (IsCallFault result) };
}
