//! The command `run`.

ghost use Rattle.std.specs.Prelude.{◌≡◌, ◌≤◌, ◌^◌, None};
ghost use Rattle.code_runs.specs.CodeChecks.{code_fault};
ghost use Rattle.code_runs.specs.CodeRun.{Ran};
ghost use Rattle.cov_outside.specs.Outside.{HasCause};
ghost use Rattle.stack_machine.specs.Machine.{Shows};
ghost use Rattle.run_command.specs.Run.{Ends, IsUnread, IsUnshown, Runs};
ghost use Rattle.run_command.specs.Shown.{HasFewCounts};

use crate::finished::{Finished, run_program};
use crate::kept::keep;
use command_steps::write_text;
use cov_answers::End;
use cov_outside::{Folder, Sink, Source};
use std::alloc::Global;

/// Runs the program of this name with so many turns, at most 2 to 40: loads its code, reads
/// standard input to its end, runs the code on it and writes the output. Where the code counts and
/// the run returned or exited, it adds what was counted to the program's data.
///
/// The answer tells how the run ended: `Ran`, `Trapped` or `OutOfTurns`. Or the command ends
/// before the run, at a code that is `Missing`, `TooLong` or `BadCode` or an input that is
/// `TooLong` or can't be read; after it, at an output that can't be written, at data that are
/// `TooLong` or `BadData`, of another build or shape, or that would pass a limit, or at a folder
/// that fails; or for want of memory.
pub fn run<S: Source, K: Sink, F: Folder>(
    alloc: Global,
    turns: u64,
    name: &str,
    input: &mut S,
    out: &mut K,
    folder: &mut F,
) -> End
    requires { turns ≤ 2 ^ 40 }
    ensures runs { Runs (F.files folder.old) (S.remaining input.old) turns name.now
        (K.written out.old) (K.written out.new) (F.files folder.new) result }
    ensures unread { IsUnread result → input.new ≡ input.old }
    ensures unshown { IsUnshown result → out.new ≡ out.old }
    ensures read_cause { HasCause (S.faults input.old) (S.faults input.new)
        (result ≡ End.ReadFault) }
    ensures write_cause { HasCause (K.faults out.old) (K.faults out.new) (result ≡ End.WriteFault) }
    ensures wants { HasCause (K.wants out.old) (K.wants out.new) ⊥ }
    ensures folder_cause { HasCause (F.faults folder.old) (F.faults folder.new)
        (result ≡ End.FolderFault) }
{
    match run_program(alloc, turns, name, input, folder) {
        Ok(finished) => show(alloc, turns, name, &finished, out, folder),
        Err(end) => end,
    }
}

/// Writes the output of a run, and then keeps what it has counted.
fn show<K: Sink, F: Folder>(
    alloc: Global,
    turns: u64,
    name: &str,
    finished: &Finished,
    out: &mut K,
    folder: &mut F,
) -> End
    requires checked { code_fault finished.now.machine.code ≡ None }
    requires few { HasFewCounts finished.now.machine }
    ensures ends { (ran : Ran) → Shows ran finished.now.ending finished.now.machine
        → Ends (F.files folder.old) turns name.now finished.now.machine.code ran
        (K.written out.old) (K.written out.new) (F.files folder.new) result }
    ensures read { result ≡ End.ReadFault → ⊥ }
    ensures unread { IsUnread result → ⊥ }
    ensures unshown { IsUnshown result → ⊥ }
    ensures write_cause { HasCause (K.faults out.old) (K.faults out.new) (result ≡ End.WriteFault) }
    ensures wants { HasCause (K.wants out.old) (K.wants out.new) ⊥ }
    ensures folder_cause { HasCause (F.faults folder.old) (F.faults folder.new)
        (result ≡ End.FolderFault) }
{
    match write_text(out, finished.machine.output()) {
        Ok(()) => keep(alloc, turns, name, finished, folder),
        Err(end) => end,
    }
}
