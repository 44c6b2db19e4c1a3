//! The command `cover`.

ghost use Rattle.std.specs.Prelude.{◌≡◌, ◌≤◌, ◌^◌, ◌++◌, map, string_bytes};
ghost use Rattle.std.specs.Prelude.{length, Some, None, IfErr, IsErrOf};
ghost use Rattle.cov_base.specs.Limits.{source_limit};
ghost use Rattle.code_runs.specs.CodeChecks.{code_fault};
ghost use Rattle.cov_outside.specs.Outside.{HasCause};
ghost use Rattle.gcda_format.specs.Data.{IsData};
ghost use Rattle.gcno_format.specs.Spelling.{IsNotes};
ghost use Rattle.path_report.specs.Report.{report_text};
ghost use Rattle.command_steps.specs.Names.{stem};
ghost use Rattle.command_steps.specs.Puts.{Writes};
ghost use Rattle.command_steps.specs.Steps.{Comes, Makes, Then};
ghost use Rattle.file_commands.specs.Report.{IsUnwritten};
ghost use Rattle.file_commands.specs.Tallied.{IsTallied};
ghost use Rattle.cover_command.specs.Cover.{CompileSteps, CoverSteps, RunSteps};

use crate::runs::{Gained, run_all};
use build_command::compile;
use command_steps::{load, write_text};
use cov_answers::End;
use cov_base::SOURCE_LIMIT;
use cov_outside::{Folder, Sink};
use covered_code::Covered;
use file_commands::tallied;
use gcno_format::Notes;
use path_report::text;
use std::alloc::Global;

/// What the words of a `cover` give it.
#[derive(Clone, Copy, Debug)]
pub struct CoverWords<'a> {
    /// The turns of each run, at most 2 to 40.
    pub turns: u64,
    /// The most prime paths of a function that are listed, at most 65,536.
    pub limit: u32,
    /// The source's name.
    pub source: &'a str,
    /// The source's name without its `.c`.
    pub name: &'a str,
    /// The names of the inputs.
    pub inputs: &'a [String],
}

/// Covers the source on the inputs: makes the texts of the runs and the report, and writes them.
pub fn cover<K: Sink, F: Folder>(
    alloc: Global,
    words: CoverWords<'_>,
    out: &mut K,
    folder: &mut F,
) -> End
    requires turns { words.turns ≤ 2 ^ 40 }
    requires limit { words.limit ≤ 65536 }
    requires name { words.name.now ≡ stem words.source.now }
    ensures writes { Writes (CoverSteps (F.files folder.old) words.entry.turns words.entry.limit
        words.entry.source.now (map string_bytes words.entry.inputs.now))
        (K.written out.old) (K.written out.new) result }
    ensures unwritten { IsUnwritten result → out.new ≡ out.old }
    ensures files { F.files folder.new ≡ F.files folder.old }
    ensures write_cause { HasCause (K.faults out.old) (K.faults out.new) (result ≡ End.WriteFault) }
    ensures wants { HasCause (K.wants out.old) (K.wants out.new) ⊥ }
    ensures folder_cause { HasCause (F.faults folder.old) (F.faults folder.new)
        (result ≡ End.FolderFault) }
{
    match cover_text(alloc, words, folder) {
        Ok(text) => match write_text(out, &text) {
            Ok(()) => End::Done,
            Err(end) => end,
        },
        Err(end) => end,
    }
}

/// The text of a `cover`.
fn cover_text<F: Folder>(
    alloc: Global,
    words: CoverWords<'_>,
    folder: &mut F,
) -> Result<Vec<u8>, End>
    requires turns { words.turns ≤ 2 ^ 40 }
    requires limit { words.limit ≤ 65536 }
    requires name { words.name.now ≡ stem words.source.now }
    ensures steps { Comes (λ v. v.items) (CoverSteps (F.files folder.old) words.entry.turns
        words.entry.limit words.entry.source.now (map string_bytes words.entry.inputs.now)) result }
    ensures files { F.files folder.new ≡ F.files folder.old }
    ensures cause { HasCause (F.faults folder.old) (F.faults folder.new)
        (IsErrOf result End.FolderFault) }
{
    let text = load(alloc, folder, words.source, SOURCE_LIMIT)?;
    source_text(alloc, words, &text, folder)
}

/// The text of a `cover` of this source.
fn source_text<F: Folder>(
    alloc: Global,
    words: CoverWords<'_>,
    source: &[u8],
    folder: &mut F,
) -> Result<Vec<u8>, End>
    requires length { length source.now ≤ source_limit }
    requires turns { words.turns ≤ 2 ^ 40 }
    requires limit { words.limit ≤ 65536 }
    ensures steps { Comes (λ v. v.items) (CompileSteps (F.files folder.old) words.entry.turns
        words.entry.limit words.entry.name.now (map string_bytes words.entry.inputs.now)
        source.now) result }
    ensures files { F.files folder.new ≡ F.files folder.old }
    ensures cause { HasCause (F.faults folder.old) (F.faults folder.new)
        (IsErrOf result End.FolderFault) }
{
    let covered = compile(alloc, source, words.limit)?;
    covered_text(alloc, words, source, covered, folder)
}

/// The texts of the runs of a compiled source, and the report.
fn covered_text<F: Folder>(
    alloc: Global,
    words: CoverWords<'_>,
    source: &[u8],
    covered: Covered,
    folder: &mut F,
) -> Result<Vec<u8>, End>
    requires turns { words.turns ≤ 2 ^ 40 }
    requires checked { code_fault covered.code ≡ None }
    requires notes { IsNotes covered.notes }
    ensures steps { Comes (λ v. v.items) (RunSteps (F.files folder.old) words.entry.turns
        words.entry.name.now source.now (map string_bytes words.entry.inputs.now) covered) result }
    ensures files { F.files folder.new ≡ F.files folder.old }
    ensures cause { HasCause (F.faults folder.old) (F.faults folder.new)
        (IsErrOf result End.FolderFault) }
{
    let Covered { code, notes } = covered;
    let gained = run_all(alloc, code, words.turns, words.inputs, folder)?;
    with_report(alloc, words.name, source, &notes, gained)
}

/// The texts of the runs, and the report on what they have counted.
fn with_report(
    alloc: Global,
    name: &str,
    source: &[u8],
    notes: &Notes,
    gained: Gained,
) -> Result<Vec<u8>, End>
    requires notes { IsNotes notes.now }
    requires counts { IsData gained.counts }
    ensures steps { Comes (λ v. v.items) (Then (IsTallied notes.now (Some gained.counts))
        (λ tally. Makes (gained.text.items ++ report_text name.now source.now notes.now tally)))
        result }
    ensures folder { IfErr result (λ end. end ≡ End.FolderFault → ⊥) }
{
    let Gained {
        counts,
        text: mut whole,
    } = gained;
    let tally = tallied(alloc, notes, &Some(counts))?;
    let report = text(alloc, name, source, notes, &tally)?;
    whole.extend_from_slice(&report)?;
    Ok(whole)
}
