//! What a run has counted, in the data of its program.

ghost use Rattle.std.specs.Prelude.{◌≡◌, ◌≤◌, length, true, None};
ghost use Rattle.std.specs.Prelude.{IfErr, IfOk, IfSome, IsErrOf, OnOk};
ghost use Rattle.code_runs.specs.CodeChecks.{code_fault};
ghost use Rattle.code_runs.specs.CodeRun.{Ran};
ghost use Rattle.cov_outside.specs.Outside.{HasCause};
ghost use Rattle.function_tallies.specs.Tallies.{ends_below};
ghost use Rattle.gcda_format.specs.Data.{IsData, word_limit};
ghost use Rattle.run_counts.specs.Counts.{counts_of};
ghost use Rattle.run_counts.specs.Texts as texts;
ghost use Rattle.stack_machine.specs.Machine.{Shows};
ghost use Rattle.command_steps.specs.Names.{data_name};
ghost use Rattle.command_steps.specs.Puts.{IsUnput, Puts};
ghost use Rattle.command_steps.specs.Steps.{Comes};
ghost use Rattle.run_command.specs.Ran as spec;
ghost use Rattle.run_command.specs.Run.{Keeps};
ghost use Rattle.run_command.specs.Shown.{HasFewCounts};

use crate::finished::Finished;
use command_steps::{data_name, replace};
use cov_answers::End;
use cov_base::{NoMemory, Refusal};
use cov_outside::Folder;
use file_commands::find_data;
use gcda_format::{Data, FunctionData, write_data};
use run_counts::{is_closed, merge_closed, no_counts};
use run_merge::MergeFault;
use stack_ops::{Code, FunctionCode, Outcome};
use std::alloc::Global;

/// Adds what a run has counted to the data of its program, where it is counted, and says how the
/// run ended.
pub fn keep<F: Folder>(
    alloc: Global,
    turns: u64,
    name: &str,
    finished: &Finished,
    folder: &mut F,
) -> End
    requires checked { code_fault finished.now.machine.code ≡ None }
    requires few { HasFewCounts finished.now.machine }
    ensures keeps { (ran : Ran) → Shows ran finished.now.ending finished.now.machine
        → Keeps (F.files folder.old) turns name.now finished.now.machine.code ran
        (F.files folder.new) result }
    ensures late { spec.IsLate result }
    ensures cause { HasCause (F.faults folder.old) (F.faults folder.new)
        (result ≡ End.FolderFault) }
{
    if !finished.machine.code().covered || !is_closed(finished.ending) {
        return end_of(turns, finished.ending);
    }
    match data_file(alloc, name, finished, folder) {
        Ok(bytes) => match put_data(alloc, name, &bytes, folder) {
            Ok(()) => end_of(turns, finished.ending),
            Err(end) => end,
        },
        Err(end) => end,
    }
}

/// The answer to how a run of so many turns ended.
fn end_of(turns: u64, ending: Outcome) -> End
    ensures { result ≡ spec.end_of turns ending }
{
    match ending {
        Outcome::Returned(status) | Outcome::Exited(status) => End::Ran(status),
        Outcome::Trapped(trap, line) => End::Trapped(trap, line),
        Outcome::OutOfTurns => End::OutOfTurns(turns),
    }
}

/// The file of a program's data, once the run is counted.
fn data_file<F: Folder>(
    alloc: Global,
    name: &str,
    finished: &Finished,
    folder: &mut F,
) -> Result<Vec<u8>, End>
    requires checked { code_fault finished.now.machine.code ≡ None }
    requires closed { texts.is_closed finished.now.ending ≡ true }
    requires few { HasFewCounts finished.now.machine }
    ensures steps { (ran : Ran) → Shows ran finished.now.ending finished.now.machine
        → Comes (λ v. v.items) (spec.DataSteps (F.files folder.old) name.now
        finished.now.machine.code ran) result }
    ensures late { IfErr result spec.IsLate }
    ensures files { F.files folder.new ≡ F.files folder.old }
    ensures cause { HasCause (F.faults folder.old) (F.faults folder.new)
        (IsErrOf result End.FolderFault) }
{
    let found = find_data(alloc, folder, name)?;
    joined_file(alloc, finished, found)
}

/// The file of the counts of the run, added to those that were found.
fn joined_file(alloc: Global, finished: &Finished, found: Option<Data>) -> Result<Vec<u8>, End>
    requires checked { code_fault finished.now.machine.code ≡ None }
    requires closed { texts.is_closed finished.now.ending ≡ true }
    requires found { IfSome found IsData }
    requires few { HasFewCounts finished.now.machine }
    ensures steps { (ran : Ran) → Shows ran finished.now.ending finished.now.machine
        → Comes (λ v. v.items) (spec.JoinSteps finished.now.machine.code ran found) result }
    ensures late { IfErr result spec.IsLate }
    ensures folder { IfErr result (λ end. end ≡ End.FolderFault → ⊥) }
{
    let past = past_in(finished.machine.code(), &found);
    let mut counts = start_of(alloc, finished.machine.code(), found)?;
    join(alloc, finished, past, &mut counts)?;
    Ok(write_data(alloc, &counts)?)
}

/// The counts that were found, or none.
fn start_of(alloc: Global, code: &Code, found: Option<Data>) -> Result<Data, NoMemory>
    requires checked { code_fault code.now ≡ None }
    requires found { IfSome found IsData }
    ensures start { IfOk result (λ counts. counts ≡ spec.start_of code.now found) }
    ensures data { IfOk result IsData }
{
    match found {
        Some(old) => Ok(old),
        None => no_counts(alloc, code),
    }
}

/// Adds the counts of the run to others, and answers why they can't be added.
fn join(alloc: Global, finished: &Finished, past: Option<u32>, counts: &mut Data) -> Result<(), End>
    requires checked { code_fault finished.now.machine.code ≡ None }
    requires closed { texts.is_closed finished.now.ending ≡ true }
    requires data { IsData counts.old }
    requires few { HasFewCounts finished.now.machine }
    ensures joins { (ran : Ran) → Shows ran finished.now.ending finished.now.machine
        → spec.Joined past (counts_of finished.now.machine.code ran.tally) counts.old counts.new
        result }
    ensures data { OnOk result (IsData counts.new) }
    ensures late { IfErr result spec.IsLate }
    ensures folder { IfErr result (λ end. end ≡ End.FolderFault → ⊥) }
{
    match merge_closed(alloc, &finished.machine, finished.ending, counts) {
        Ok(()) => match past {
            None => Ok(()),
            Some(function) => Err(End::OtherShape(function)),
        },
        Err(Refusal::Refused(fault)) => Err(answer_in(past, fault)),
        Err(Refusal::NoMemory) => Err(End::NoMemory),
    }
}

/// The answer to why the counts of a run can't be added to those of a file, where this function is
/// the first of the file whose bits go past its paths.
fn answer_in(past: Option<u32>, fault: MergeFault) -> End
    ensures answer { result ≡ spec.answer_in past fault }
    ensures late { spec.IsLate result }
    ensures folder { result ≡ End.FolderFault → ⊥ }
{
    match past {
        None => match fault {
            MergeFault::OtherBuild(old, new) => End::OtherBuild(new, old),
            MergeFault::OtherShape(function) => End::OtherShape(function),
            MergeFault::RunsPassed => End::RunsPassed,
            MergeFault::CountPassed(function, counter) => End::CountPassed(function, counter),
        },
        Some(first) => match fault {
            MergeFault::OtherBuild(old, new) => End::OtherBuild(new, old),
            MergeFault::OtherShape(function) => End::OtherShape(first.min(function)),
            _ => End::OtherShape(first),
        },
    }
}

/// The first function of the data whose bits go past its paths.
fn past_in(code: &Code, found: &Option<Data>) -> Option<u32>
    requires { length code.now.functions ≤ word_limit }
    ensures { result ≡ spec.past_in code.now found.now }
{
    match found {
        Some(old) => past_paths(&code.functions, &old.functions),
        None => None,
    }
}

/// The first function whose bits go past its paths.
fn past_paths(functions: &[FunctionCode], counts: &[FunctionData]) -> Option<u32>
    requires { length functions.now ≤ word_limit }
    ensures { result ≡ spec.past_paths 0 functions.now counts.now }
{
    let count = functions.len().min(counts.len());
    for k in 0..count {
        let function = &functions[k];
        let found = &counts[k];
        if !ends_below(function.paths, &found.bits) {
            return Some(k as u32);
        }
    }
    None
}

/// Whether no bit at or above the number is set in these words, which are at most as many as so
/// many bits need.
fn ends_below(count: u32, words: &[u64]) -> bool
    ensures { result ≡ ends_below count words.now }
{
    match words.get((count / 64) as usize) {
        Some(word) => word >> (count % 64) == 0,
        None => true,
    }
}

/// Replaces the data of a program.
fn put_data<F: Folder>(alloc: Global, name: &str, bytes: &[u8], folder: &mut F) -> Result<(), End>
    ensures puts { Puts (F.files folder.old) (F.files folder.new) (data_name name.now) bytes.now
        result }
    ensures kind { IfErr result IsUnput }
    ensures cause { HasCause (F.faults folder.old) (F.faults folder.new)
        (IsErrOf result End.FolderFault) }
{
    let file = data_name(alloc, name)?;
    replace(folder, &file, bytes)
}
