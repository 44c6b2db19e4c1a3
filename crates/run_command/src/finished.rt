//! Runs of programs from files.

ghost use Rattle.std.specs.Prelude.{◌≡◌, ◌≤◌, ◌^◌, None, IfErr, IfOk, IsErrOf};
ghost use Rattle.code_runs.specs.CodeChecks.{code_fault};
ghost use Rattle.code_runs.specs.CodeRun.{Ran, CodeRun};
ghost use Rattle.cov_outside.specs.Outside.{HasCause};
ghost use Rattle.stack_machine.specs.Machine.{Shows};
ghost use Rattle.command_steps.specs.Steps.{Comes};
ghost use Rattle.run_command.specs.Run.{IsUnread, ReadsInput};
ghost use Rattle.run_command.specs.Shown.{Finishes, HasFewCounts};

use command_steps::load_code;
use cov_answers::End;
use cov_base::{FILE_LIMIT, NoMemory};
use cov_outside::{Folder, ReadRefusal, Source, read_all};
use stack_machine::Machine;
use stack_ops::{Code, Outcome};
use std::alloc::Global;

/// A machine that ran a program, and how the run ended.
#[derive(Drop)]
pub struct Finished {
    pub machine: Machine,
    pub ending: Outcome,
}

/// Loads the code of a program, reads standard input to its end and runs the code on it.
pub fn run_program<S: Source, F: Folder>(
    alloc: Global,
    turns: u64,
    name: &str,
    input: &mut S,
    folder: &mut F,
) -> Result<Finished, End>
    requires { turns ≤ 2 ^ 40 }
    ensures finishes { Finishes (F.files folder.old) (S.remaining input.old) turns name.now result }
    ensures checked { IfOk result (λ f. code_fault f.machine.code ≡ None) }
    ensures few { IfOk result (λ f. HasFewCounts f.machine) }
    ensures unread { IfErr result (λ end. IsUnread end → input.new ≡ input.old) }
    ensures files { F.files folder.new ≡ F.files folder.old }
    ensures read_cause { HasCause (S.faults input.old) (S.faults input.new)
        (IsErrOf result End.ReadFault) }
    ensures folder_cause { HasCause (F.faults folder.old) (F.faults folder.new)
        (IsErrOf result End.FolderFault) }
{
    let code = load_code(alloc, folder, name)?;
    let bytes = read_input(alloc, input)?;
    Ok(run_code(alloc, code, turns, &bytes)?)
}

/// The bytes of standard input to its end, no more than a file may have.
fn read_input<S: Source>(alloc: Global, input: &mut S) -> Result<Vec<u8>, End>
    ensures reads { Comes (λ v. v.items) (ReadsInput (S.remaining input.old)) result }
    ensures cause { HasCause (S.faults input.old) (S.faults input.new)
        (IsErrOf result End.ReadFault) }
    ensures folder { IfErr result (λ end. end ≡ End.FolderFault → ⊥) }
    ensures late { IfErr result (λ end. IsUnread end → ⊥) }
{
    match read_all(alloc, input, FILE_LIMIT) {
        Ok(bytes) => Ok(bytes),
        Err(ReadRefusal::TooLong) => Err(End::TooLong(String::from_str(alloc, "input")?)),
        Err(ReadRefusal::Failed) => Err(End::ReadFault),
        Err(ReadRefusal::NoMemory) => Err(End::NoMemory),
    }
}

/// Runs the code on the input.
fn run_code(alloc: Global, code: Code, turns: u64, input: &[u8]) -> Result<Finished, NoMemory>
    requires checked { code_fault code ≡ None }
    requires turns { turns ≤ 2 ^ 40 }
    ensures shows { IfOk result (λ f. (ran : Ran) × CodeRun code input.now turns ran
        × Shows ran f.ending f.machine) }
    ensures code { IfOk result (λ f. f.machine.code ≡ code) }
    ensures few { IfOk result (λ f. HasFewCounts f.machine) }
{
    let mut machine = Machine::new(alloc, code, turns)?;
    let ending = machine.run(input);
    Ok(Finished { machine, ending })
}
