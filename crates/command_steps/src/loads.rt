//! Files that a command loads.

ghost use Rattle.std.specs.Prelude.{◌≡◌, ◌≤◌, length, IfErr, IfOk, IsErrOf};
ghost use Rattle.cov_outside.specs.Outside.{HasCause};
ghost use Rattle.command_steps.specs.Files.{LoadsFile};
ghost use Rattle.command_steps.specs.Steps.{Comes};

use cov_answers::End;
use cov_outside::{Folder, LoadFault};
use std::alloc::Global;

/// The bytes of a file that is there and no longer than the limit.
///
/// # Errors
///
/// `Missing` and `TooLong` with its name; `FolderFault` where it couldn't be read; `NoMemory`.
pub fn load<F: Folder>(
    alloc: Global,
    folder: &mut F,
    name: &str,
    limit: usize,
) -> Result<Vec<u8>, End>
    ensures loads { Comes (λ v. v.items) (LoadsFile (F.files folder.old) name.now limit) result }
    ensures fits { IfOk result (λ bytes. length bytes.items ≤ limit) }
    ensures files { F.files folder.new ≡ F.files folder.old }
    ensures cause { HasCause (F.faults folder.old) (F.faults folder.new)
        (IsErrOf result End.FolderFault) }
{
    match folder.load(name, limit) {
        Ok(Some(bytes)) => Ok(bytes),
        Ok(None) => Err(End::Missing(String::from_str(alloc, name)?)),
        Err(LoadFault::TooLong) => Err(End::TooLong(String::from_str(alloc, name)?)),
        Err(LoadFault::Failed) => Err(End::FolderFault),
        Err(LoadFault::NoMemory) => Err(End::NoMemory),
    }
}
