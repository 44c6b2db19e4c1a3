//! Files that a command replaces, and texts that it writes.

ghost use Rattle.std.specs.Prelude.{◌≡◌, IsErrOf, IfErr};
ghost use Rattle.cov_outside.specs.Outside.{HasCause};
ghost use Rattle.command_steps.specs.Puts.{IsUnput, Puts, Told, IsUntold};

use cov_answers::End;
use cov_outside::{Folder, Sink, SinkFault, write_all};

/// Replaces a file by these bytes. Where that fails, all files are as they were.
///
/// # Errors
///
/// `FolderFault` where it couldn't be replaced; `NoMemory`.
pub fn replace<F: Folder>(folder: &mut F, name: &str, bytes: &[u8]) -> Result<(), End>
    ensures puts { Puts (F.files folder.old) (F.files folder.new) name.now bytes.now result }
    ensures kind { IfErr result IsUnput }
    ensures cause { HasCause (F.faults folder.old) (F.faults folder.new)
        (IsErrOf result End.FolderFault) }
{
    match folder.replace(name, bytes) {
        Ok(()) => Ok(()),
        Err(SinkFault::Failed) => Err(End::FolderFault),
        Err(SinkFault::NoMemory) => Err(End::NoMemory),
    }
}

/// Writes the whole text. After a fault its first bytes are written.
///
/// # Errors
///
/// `WriteFault` where it couldn't be written whole; `NoMemory`.
pub fn write_text<K: Sink>(out: &mut K, text: &[u8]) -> Result<(), End>
    ensures writes { Told (K.written out.old) (K.written out.new) text.now result }
    ensures kind { IfErr result IsUntold }
    ensures cause { HasCause (K.faults out.old) (K.faults out.new) (IsErrOf result End.WriteFault) }
    ensures wants { HasCause (K.wants out.old) (K.wants out.new) ⊥ }
{
    match write_all(out, text) {
        Ok(()) => Ok(()),
        Err(SinkFault::Failed) => Err(End::WriteFault),
        Err(SinkFault::NoMemory) => Err(End::NoMemory),
    }
}
