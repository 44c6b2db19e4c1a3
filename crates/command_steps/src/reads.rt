//! Files that a command loads and reads.

ghost use Rattle.std.specs.Prelude.{◌≡◌, None, IfErr, IfOk, IsErrOf};
ghost use Rattle.code_runs.specs.CodeChecks.{code_fault};
ghost use Rattle.cov_outside.specs.Outside.{HasCause};
ghost use Rattle.gcda_format.specs.Data.{IsData};
ghost use Rattle.gcno_format.specs.Spelling.{IsNotes};
ghost use Rattle.command_steps.specs.Files as spec;

use crate::loads::load;
use crate::names::{code_name, data_name, notes_name};
use code_file::read_code;
use cov_answers::End;
use cov_base::{FILE_LIMIT, Refusal};
use cov_outside::Folder;
use gcda_format::{Data, read_data};
use gcno_format::{Notes, read_notes};
use stack_ops::Code;
use std::alloc::Global;

/// The data of a program.
///
/// # Errors
///
/// Those of loading a file, and `BadData` with the first fault that stands in its bytes.
pub fn load_data<F: Folder>(alloc: Global, folder: &mut F, name: &str) -> Result<Data, End>
    ensures told { spec.DataAt (F.files folder.old) name.now result }
    ensures fits { IfOk result IsData }
    ensures files { F.files folder.new ≡ F.files folder.old }
    ensures cause { HasCause (F.faults folder.old) (F.faults folder.new)
        (IsErrOf result End.FolderFault) }
{
    let file = data_name(alloc, name)?;
    let bytes = load(alloc, folder, &file, FILE_LIMIT)?;
    data_in(alloc, &bytes)
}

/// The data in these bytes.
fn data_in(alloc: Global, bytes: &[u8]) -> Result<Data, End>
    ensures told { spec.ReadsData bytes.now result }
    ensures fits { IfOk result IsData }
{
    match read_data(alloc, bytes) {
        Ok(counts) => Ok(counts),
        Err(Refusal::Refused(fault)) => Err(End::BadData(fault)),
        Err(Refusal::NoMemory) => Err(End::NoMemory),
    }
}

/// The notes of a program.
///
/// # Errors
///
/// Those of loading a file, and `BadNotes` with the first fault that stands in its bytes.
pub fn load_notes<F: Folder>(alloc: Global, folder: &mut F, name: &str) -> Result<Notes, End>
    ensures told { spec.NotesAt (F.files folder.old) name.now result }
    ensures fits { IfOk result IsNotes }
    ensures files { F.files folder.new ≡ F.files folder.old }
    ensures cause { HasCause (F.faults folder.old) (F.faults folder.new)
        (IsErrOf result End.FolderFault) }
{
    let file = notes_name(alloc, name)?;
    let bytes = load(alloc, folder, &file, FILE_LIMIT)?;
    notes_in(alloc, &bytes)
}

/// The notes in these bytes.
fn notes_in(alloc: Global, bytes: &[u8]) -> Result<Notes, End>
    ensures told { spec.ReadsNotes bytes.now result }
    ensures fits { IfOk result IsNotes }
{
    match read_notes(alloc, bytes) {
        Ok(notes) => Ok(notes),
        Err(Refusal::Refused(fault)) => Err(End::BadNotes(fault)),
        Err(Refusal::NoMemory) => Err(End::NoMemory),
    }
}

/// The code of a program, which breaks no rule.
///
/// # Errors
///
/// Those of loading a file, and `BadCode` with the first fault that stands in its bytes.
pub fn load_code<F: Folder>(alloc: Global, folder: &mut F, name: &str) -> Result<Code, End>
    ensures told { spec.CodeAt (F.files folder.old) name.now result }
    ensures checked { IfOk result (λ code. code_fault code ≡ None) }
    ensures files { F.files folder.new ≡ F.files folder.old }
    ensures cause { HasCause (F.faults folder.old) (F.faults folder.new)
        (IsErrOf result End.FolderFault) }
{
    let file = code_name(alloc, name)?;
    let bytes = load(alloc, folder, &file, FILE_LIMIT)?;
    code_in(alloc, &bytes)
}

/// The code in these bytes.
fn code_in(alloc: Global, bytes: &[u8]) -> Result<Code, End>
    ensures told { spec.ReadsCode bytes.now result }
    ensures checked { IfOk result (λ code. code_fault code ≡ None) }
{
    match read_code(alloc, bytes) {
        Ok(checked) => Ok(checked.into_code()),
        Err(Refusal::Refused(fault)) => Err(End::BadCode(fault)),
        Err(Refusal::NoMemory) => Err(End::NoMemory),
    }
}
