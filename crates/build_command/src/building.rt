//! The command `build`.

ghost use Rattle.std.specs.Prelude.{◌≡◌, ◌≤◌, None, IfErr, IfOk, IsErrOf};
ghost use Rattle.code_runs.specs.CodeChecks.{code_fault};
ghost use Rattle.cov_outside.specs.Outside.{HasCause};
ghost use Rattle.code_file.specs.Spelling.{code_bytes};
ghost use Rattle.gcno_format.specs.Spelling.{IsWritable, notes_bytes};
ghost use Rattle.command_steps.specs.Names.{code_name, notes_name};
ghost use Rattle.command_steps.specs.Puts.{IsUnput, Puts, Replaces};
ghost use Rattle.command_steps.specs.Steps.{Comes};
ghost use Rattle.build_command.specs.Build.{BuildSteps, Builds, PlainSteps, PutsBoth};

use crate::compiled::{compile, compile_plain};
use code_file::write_code;
use command_steps::{code_name, load, notes_name, replace};
use cov_answers::End;
use cov_base::SOURCE_LIMIT;
use cov_outside::Folder;
use covered_code::Covered;
use gcno_format::write_notes;
use std::alloc::Global;

/// Builds the program of this name from the source of that name, without counting: replaces its
/// code.
pub fn build_plain<F: Folder>(alloc: Global, source: &str, name: &str, folder: &mut F) -> End
    ensures replaces { Replaces (PlainSteps (F.files folder.old) source.now) (code_name name.now)
        (F.files folder.old) (F.files folder.new) result }
    ensures cause { HasCause (F.faults folder.old) (F.faults folder.new)
        (result ≡ End.FolderFault) }
{
    match plain_file(alloc, source, folder) {
        Ok(bytes) => match put_code(alloc, name, &bytes, folder) {
            Ok(()) => End::Done,
            Err(end) => end,
        },
        Err(end) => end,
    }
}

/// Builds the program of this name from the source of that name, with counting; the limit of paths
/// is at most 65,536: replaces its notes, and then its code.
pub fn build<F: Folder>(alloc: Global, limit: u32, source: &str, name: &str, folder: &mut F) -> End
    requires { limit ≤ 65536 }
    ensures builds { Builds (F.files folder.old) limit source.now name.now (F.files folder.new)
        result }
    ensures cause { HasCause (F.faults folder.old) (F.faults folder.new)
        (result ≡ End.FolderFault) }
{
    match compiled(alloc, limit, source, folder) {
        Ok(covered) => match put_both(alloc, name, &covered, folder) {
            Ok(()) => End::Done,
            Err(end) => end,
        },
        Err(end) => end,
    }
}

/// The file of the code of a source, which doesn't count.
fn plain_file<F: Folder>(alloc: Global, source: &str, folder: &mut F) -> Result<Vec<u8>, End>
    ensures steps { Comes (λ v. v.items) (PlainSteps (F.files folder.old) source.now) result }
    ensures files { F.files folder.new ≡ F.files folder.old }
    ensures cause { HasCause (F.faults folder.old) (F.faults folder.new)
        (IsErrOf result End.FolderFault) }
{
    let text = load(alloc, folder, source, SOURCE_LIMIT)?;
    let code = compile_plain(alloc, &text)?;
    Ok(write_code(alloc, &code)?)
}

/// The code of a source that counts, and its notes.
fn compiled<F: Folder>(
    alloc: Global,
    limit: u32,
    source: &str,
    folder: &mut F,
) -> Result<Covered, End>
    requires { limit ≤ 65536 }
    ensures checked { IfOk result (λ covered. code_fault covered.code ≡ None) }
    ensures writable { IfOk result (λ covered. IsWritable covered.notes) }
    ensures steps { BuildSteps (F.files folder.old) limit source.now result }
    ensures files { F.files folder.new ≡ F.files folder.old }
    ensures cause { HasCause (F.faults folder.old) (F.faults folder.new)
        (IsErrOf result End.FolderFault) }
{
    let text = load(alloc, folder, source, SOURCE_LIMIT)?;
    compile(alloc, &text, limit)
}

/// Replaces the code of a program.
fn put_code<F: Folder>(alloc: Global, name: &str, bytes: &[u8], folder: &mut F) -> Result<(), End>
    ensures puts { Puts (F.files folder.old) (F.files folder.new) (code_name name.now) bytes.now
        result }
    ensures kind { IfErr result IsUnput }
    ensures cause { HasCause (F.faults folder.old) (F.faults folder.new)
        (IsErrOf result End.FolderFault) }
{
    let file = code_name(alloc, name)?;
    replace(folder, &file, bytes)
}

/// Replaces the notes of a program.
fn put_notes<F: Folder>(alloc: Global, name: &str, bytes: &[u8], folder: &mut F) -> Result<(), End>
    ensures puts { Puts (F.files folder.old) (F.files folder.new) (notes_name name.now) bytes.now
        result }
    ensures kind { IfErr result IsUnput }
    ensures cause { HasCause (F.faults folder.old) (F.faults folder.new)
        (IsErrOf result End.FolderFault) }
{
    let file = notes_name(alloc, name)?;
    replace(folder, &file, bytes)
}

/// Replaces the notes of a program, and then its code.
fn put_both<F: Folder>(
    alloc: Global,
    name: &str,
    covered: &Covered,
    folder: &mut F,
) -> Result<(), End>
    requires checked { code_fault covered.now.code ≡ None }
    requires writable { IsWritable covered.now.notes }
    ensures puts { PutsBoth name.now covered.now (F.files folder.old) (F.files folder.new) result }
    ensures cause { HasCause (F.faults folder.old) (F.faults folder.new)
        (IsErrOf result End.FolderFault) }
{
    let notes = write_notes(alloc, &covered.notes)?;
    let code = write_code(alloc, &covered.code)?;
    put_notes(alloc, name, &notes, folder)?;
    put_code(alloc, name, &code, folder)
}
