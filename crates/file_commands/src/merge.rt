//! The command `merge`.

ghost use Rattle.std.specs.Prelude.{◌≡◌, IfErr, IsErrOf};
ghost use Rattle.cov_outside.specs.Outside.{HasCause};
ghost use Rattle.gcda_format.specs.Data.{IsData};
ghost use Rattle.command_steps.specs.Names.{data_name};
ghost use Rattle.command_steps.specs.Puts.{IsUnput, Puts, Replaces};
ghost use Rattle.command_steps.specs.Steps.{Comes};
ghost use Rattle.file_commands.specs.Merge.{AddSteps, MergeSteps, SecondSteps};

use command_steps::{data_name, load_data, merge, replace};
use cov_answers::End;
use cov_outside::Folder;
use gcda_format::{Data, write_data};
use std::alloc::Global;

/// Adds the data of two programs, and replaces the data of a third by those of both. All files
/// stand where the answer isn't `Done`.
///
/// # Errors
///
/// Those of loading data, of the first program and then of the second. Then `OtherBuild`,
/// `OtherShape`, `RunsPassed` or `CountPassed`, the first that stands, where they can't be added.
/// `FolderFault` where the third couldn't be replaced; `NoMemory`.
pub fn merge_files<F: Folder>(
    alloc: Global,
    first: &str,
    second: &str,
    out: &str,
    folder: &mut F,
) -> End
    ensures replaces { Replaces (MergeSteps (F.files folder.old) first.now second.now)
        (data_name out.now) (F.files folder.old) (F.files folder.new) result }
    ensures cause { HasCause (F.faults folder.old) (F.faults folder.new)
        (result ≡ End.FolderFault) }
{
    match merged_file(alloc, first, second, folder) {
        Ok(bytes) => match put(alloc, out, &bytes, folder) {
            Ok(()) => End::Done,
            Err(end) => end,
        },
        Err(end) => end,
    }
}

/// The file of the data of both.
fn merged_file<F: Folder>(
    alloc: Global,
    first: &str,
    second: &str,
    folder: &mut F,
) -> Result<Vec<u8>, End>
    ensures steps { Comes (λ v. v.items)
        (MergeSteps (F.files folder.old) first.now second.now) result }
    ensures files { F.files folder.new ≡ F.files folder.old }
    ensures cause { HasCause (F.faults folder.old) (F.faults folder.new)
        (IsErrOf result End.FolderFault) }
{
    let counts = load_data(alloc, folder, first)?;
    with_second(alloc, counts, second, folder)
}

/// The file of these data and those of the second program.
fn with_second<F: Folder>(
    alloc: Global,
    first: Data,
    second: &str,
    folder: &mut F,
) -> Result<Vec<u8>, End>
    requires { IsData first }
    ensures steps { Comes (λ v. v.items)
        (SecondSteps (F.files folder.old) second.now first) result }
    ensures files { F.files folder.new ≡ F.files folder.old }
    ensures cause { HasCause (F.faults folder.old) (F.faults folder.new)
        (IsErrOf result End.FolderFault) }
{
    let counts = load_data(alloc, folder, second)?;
    added_file(alloc, first, &counts)
}

/// The file of the data of both, where they can be added.
fn added_file(alloc: Global, first: Data, second: &Data) -> Result<Vec<u8>, End>
    requires first { IsData first }
    requires second { IsData second.now }
    ensures steps { Comes (λ v. v.items) (AddSteps first second.now) result }
    ensures folder { IfErr result (λ end. end ≡ End.FolderFault → ⊥) }
{
    let mut both = first;
    merge(&mut both, second)?;
    Ok(write_data(alloc, &both)?)
}

/// Replaces the data of a program.
fn put<F: Folder>(alloc: Global, name: &str, bytes: &[u8], folder: &mut F) -> Result<(), End>
    ensures puts { Puts (F.files folder.old) (F.files folder.new) (data_name name.now) bytes.now
        result }
    ensures kind { IfErr result IsUnput }
    ensures cause { HasCause (F.faults folder.old) (F.faults folder.new)
        (IsErrOf result End.FolderFault) }
{
    let file = data_name(alloc, name)?;
    replace(folder, &file, bytes)
}
