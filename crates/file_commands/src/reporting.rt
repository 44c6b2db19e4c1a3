//! The command `report`.

ghost use Rattle.std.specs.Prelude.{◌≡◌, IfErr, IfSome, IsErrOf};
ghost use Rattle.cov_outside.specs.Outside.{HasCause};
ghost use Rattle.gcda_format.specs.Data.{IsData};
ghost use Rattle.gcno_format.specs.Spelling.{IsNotes};
ghost use Rattle.command_steps.specs.Puts.{Writes};
ghost use Rattle.command_steps.specs.Steps.{Comes};
ghost use Rattle.file_commands.specs.Report as spec;

use crate::loads::{find_data, load_source};
use crate::tallying::tallied;
use command_steps::{load_notes, write_text};
use cov_answers::End;
use cov_outside::{Folder, Sink};
use gcda_format::Data;
use gcno_format::Notes;
use path_report::text;
use std::alloc::Global;

/// Writes the report on the runs of a program: from its notes, the source that they are of, and its
/// data, or as of no run where it has no file of data. All files stand.
///
/// # Errors
///
/// Those of loading notes and then the source, and `SourceChanged` where it isn't that of the
/// notes. Those of loading data but `Missing`. Then `OtherBuild`, `OtherShape` or `NotAFlow`, the
/// first that stands, where notes and data have no tally. Up to there nothing is written.
/// `WriteFault` where the text couldn't be written whole, and `NoMemory`, behind which its first
/// bytes may be.
pub fn report<K: Sink, F: Folder>(alloc: Global, name: &str, out: &mut K, folder: &mut F) -> End
    ensures writes { Writes (spec.ReportSteps (F.files folder.old) name.now)
        (K.written out.old) (K.written out.new) result }
    ensures unwritten { spec.IsUnwritten result → out.new ≡ out.old }
    ensures files { F.files folder.new ≡ F.files folder.old }
    ensures folder_cause { HasCause (F.faults folder.old) (F.faults folder.new)
        (result ≡ End.FolderFault) }
    ensures write_cause { HasCause (K.faults out.old) (K.faults out.new)
        (result ≡ End.WriteFault) }
    ensures wants { HasCause (K.wants out.old) (K.wants out.new) ⊥ }
{
    match made_text(alloc, name, folder) {
        Ok(text) => match write_text(out, &text) {
            Ok(()) => End::Done,
            Err(end) => end,
        },
        Err(end) => end,
    }
}

/// The text of the report.
fn made_text<F: Folder>(alloc: Global, name: &str, folder: &mut F) -> Result<Vec<u8>, End>
    ensures steps { Comes (λ v. v.items) (spec.ReportSteps (F.files folder.old) name.now) result }
    ensures files { F.files folder.new ≡ F.files folder.old }
    ensures cause { HasCause (F.faults folder.old) (F.faults folder.new)
        (IsErrOf result End.FolderFault) }
{
    let notes = load_notes(alloc, folder, name)?;
    from_notes(alloc, name, &notes, folder)
}

/// The text of the report, where the notes are loaded.
fn from_notes<F: Folder>(
    alloc: Global,
    name: &str,
    notes: &Notes,
    folder: &mut F,
) -> Result<Vec<u8>, End>
    requires { IsNotes notes.now }
    ensures steps { Comes (λ v. v.items)
        (spec.SourceSteps (F.files folder.old) name.now notes.now) result }
    ensures files { F.files folder.new ≡ F.files folder.old }
    ensures cause { HasCause (F.faults folder.old) (F.faults folder.new)
        (IsErrOf result End.FolderFault) }
{
    let source = load_source(alloc, folder, name, notes)?;
    from_source(alloc, name, notes, &source, folder)
}

/// The text of the report, where the notes and the source are loaded.
fn from_source<F: Folder>(
    alloc: Global,
    name: &str,
    notes: &Notes,
    source: &[u8],
    folder: &mut F,
) -> Result<Vec<u8>, End>
    requires { IsNotes notes.now }
    ensures steps { Comes (λ v. v.items)
        (spec.DataSteps (F.files folder.old) name.now notes.now source.now) result }
    ensures files { F.files folder.new ≡ F.files folder.old }
    ensures cause { HasCause (F.faults folder.old) (F.faults folder.new)
        (IsErrOf result End.FolderFault) }
{
    let counts = find_data(alloc, folder, name)?;
    tallied_text(alloc, name, source, notes, &counts)
}

/// The text of the report on the source with these notes and the data, if there are any.
fn tallied_text(
    alloc: Global,
    name: &str,
    source: &[u8],
    notes: &Notes,
    counts: &Option<Data>,
) -> Result<Vec<u8>, End>
    requires notes { IsNotes notes.now }
    requires counts { IfSome counts.now IsData }
    ensures steps { Comes (λ v. v.items)
        (spec.TextSteps name.now source.now notes.now counts.now) result }
    ensures folder { IfErr result (λ end. end ≡ End.FolderFault → ⊥) }
{
    let tally = tallied(alloc, notes, counts)?;
    Ok(text(alloc, name, source, notes, &tally)?)
}
