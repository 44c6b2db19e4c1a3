//! The source and the data of a program.

ghost use Rattle.std.specs.Prelude.{◌≡◌, IfErr, IfOk, IfSome, IsErrOf};
ghost use Rattle.cov_outside.specs.Outside.{HasCause};
ghost use Rattle.gcda_format.specs.Data.{IsData};
ghost use Rattle.command_steps.specs.Steps.{Comes};
ghost use Rattle.file_commands.specs.Report.{FindsData, IsNoted, SourceAt};

use command_steps::{load, load_data, source_name};
use cov_answers::End;
use cov_base::SOURCE_LIMIT;
use cov_outside::Folder;
use gcda_format::Data;
use gcno_format::Notes;
use source_code::stamp;
use std::alloc::Global;

/// The source that these notes of the program are of.
///
/// # Errors
///
/// Those of loading a file, and `SourceChanged` where its stamp isn't that of the notes.
pub fn load_source<F: Folder>(
    alloc: Global,
    folder: &mut F,
    name: &str,
    notes: &Notes,
) -> Result<Vec<u8>, End>
    ensures told { Comes (λ v. v.items) (SourceAt (F.files folder.old) name.now notes.now) result }
    ensures files { F.files folder.new ≡ F.files folder.old }
    ensures cause { HasCause (F.faults folder.old) (F.faults folder.new)
        (IsErrOf result End.FolderFault) }
{
    let file = source_name(alloc, name)?;
    let text = load(alloc, folder, &file, SOURCE_LIMIT)?;
    noted(notes, text)
}

/// The text, where it has the stamp of the notes.
fn noted(notes: &Notes, text: Vec<u8>) -> Result<Vec<u8>, End>
    ensures told { Comes (λ v. v.items) (IsNoted notes.now text.items) result }
    ensures folder { IfErr result (λ end. end ≡ End.FolderFault → ⊥) }
{
    let given = stamp(notes.limit, &text);
    if notes.stamp == given {
        Ok(text)
    } else {
        Err(End::SourceChanged(notes.stamp, given))
    }
}

/// The data of a program, or none where it has no such file.
///
/// # Errors
///
/// Those of loading data but `Missing`.
pub fn find_data<F: Folder>(alloc: Global, folder: &mut F, name: &str) -> Result<Option<Data>, End>
    ensures told { FindsData (F.files folder.old) name.now result }
    ensures fits { IfOk result (λ found. IfSome found IsData) }
    ensures files { F.files folder.new ≡ F.files folder.old }
    ensures cause { HasCause (F.faults folder.old) (F.faults folder.new)
        (IsErrOf result End.FolderFault) }
{
    match load_data(alloc, folder, name) {
        Ok(counts) => Ok(Some(counts)),
        Err(End::Missing(_)) => Ok(None),
        Err(end) => Err(end),
    }
}
