//! The runs of a code on inputs from files.

ghost use Rattle.std.specs.Prelude.{◌≡◌, ◌≤◌, ◌^◌, map, string_bytes, None, IfErr, IfOk, IsErrOf};
ghost use Rattle.std.specs.Prelude.{OnOk};
ghost use Rattle.code_runs.specs.CodeChecks.{code_fault};
ghost use Rattle.cov_outside.specs.Outside.{HasCause};
ghost use Rattle.gcda_format.specs.Data.{IsData};
ghost use Rattle.command_steps.specs.Merged.{answer_of};
ghost use Rattle.command_steps.specs.Steps.{Comes};
ghost use Rattle.cover_command.specs.Cover.{RunsAll, RunsInto, RunsName, untold};
ghost use Rattle.cover_command.specs.Gains.{Leaves, told_by_runs};

use command_steps::load;
use cov_answers::End;
use cov_base::{FILE_LIMIT, Refusal};
use cov_outside::Folder;
use gcda_format::Data;
use run_counts::{no_counts, run_into};
use run_merge::MergeFault;
use stack_machine::Machine;
use stack_ops::Code;
use std::alloc::Global;

/// The counts of runs, and their texts.
#[derive(Drop)]
pub struct Gained {
    pub counts: Data,
    pub text: Vec<u8>,
}

/// The runs of a code on the inputs of these names.
pub fn run_all<F: Folder>(
    alloc: Global,
    code: Code,
    turns: u64,
    inputs: &[String],
    folder: &mut F,
) -> Result<Gained, End>
    requires checked { code_fault code ≡ None }
    requires turns { turns ≤ 2 ^ 40 }
    ensures steps { Comes told_by_runs (RunsAll (F.files folder.old) code turns
        (map string_bytes inputs.now) (untold code)) result }
    ensures data { IfOk result (λ gained. IsData gained.counts) }
    ensures files { F.files folder.new ≡ F.files folder.old }
    ensures cause { HasCause (F.faults folder.old) (F.faults folder.new)
        (IsErrOf result End.FolderFault) }
{
    let mut gained = Gained {
        counts: no_counts(alloc, &code)?,
        text: Vec::new(alloc),
    };
    let mut machine = Machine::new(alloc, code, turns)?;
    run_names(alloc, &mut machine, inputs, &mut gained, folder)?;
    Ok(gained)
}

/// Runs the machine's code on the inputs of these names, in order.
fn run_names<F: Folder>(
    alloc: Global,
    machine: &mut Machine,
    names: &[String],
    gained: &mut Gained,
    folder: &mut F,
) -> Result<(), End>
    requires checked { code_fault machine.old.code ≡ None }
    requires data { IsData gained.old.counts }
    ensures steps { Leaves (RunsAll (F.files folder.old) machine.old.code machine.old.turns
        (map string_bytes names.now) (told_by_runs gained.old)) (told_by_runs gained.new) result }
    ensures data { OnOk result (IsData gained.new.counts) }
    ensures files { F.files folder.new ≡ F.files folder.old }
    ensures cause { HasCause (F.faults folder.old) (F.faults folder.new)
        (IsErrOf result End.FolderFault) }
{
    for (k, name) in names.iter().enumerate() {
        run_name(alloc, machine, name, gained, folder)?;
    }
    Ok(())
}

/// Runs the machine's code on the input of this name.
fn run_name<F: Folder>(
    alloc: Global,
    machine: &mut Machine,
    name: &str,
    gained: &mut Gained,
    folder: &mut F,
) -> Result<(), End>
    requires checked { code_fault machine.old.code ≡ None }
    requires data { IsData gained.old.counts }
    ensures steps { Leaves (RunsName (F.files folder.old) machine.old.code machine.old.turns
        name.now (told_by_runs gained.old)) (told_by_runs gained.new) result }
    ensures data { OnOk result (IsData gained.new.counts) }
    ensures code { machine.new.code ≡ machine.old.code }
    ensures turns { machine.new.turns ≡ machine.old.turns }
    ensures files { F.files folder.new ≡ F.files folder.old }
    ensures cause { HasCause (F.faults folder.old) (F.faults folder.new)
        (IsErrOf result End.FolderFault) }
{
    let input = load(alloc, folder, name, FILE_LIMIT)?;
    run_on(alloc, machine, name, &input, gained)
}

/// Runs the machine's code on the input, and answers why its counts can't be added.
fn run_on(
    alloc: Global,
    machine: &mut Machine,
    name: &str,
    input: &[u8],
    gained: &mut Gained,
) -> Result<(), End>
    requires checked { code_fault machine.old.code ≡ None }
    requires data { IsData gained.old.counts }
    ensures steps { Leaves (RunsInto machine.old.code machine.old.turns name.now input.now
        (told_by_runs gained.old)) (told_by_runs gained.new) result }
    ensures data { OnOk result (IsData gained.new.counts) }
    ensures code { machine.new.code ≡ machine.old.code }
    ensures turns { machine.new.turns ≡ machine.old.turns }
    ensures folder { IfErr result (λ end. end ≡ End.FolderFault → ⊥) }
{
    match run_into(
        alloc,
        machine,
        name,
        input,
        &mut gained.counts,
        &mut gained.text,
    ) {
        Ok(_) => Ok(()),
        Err(Refusal::Refused(fault)) => Err(answer_of(fault)),
        Err(Refusal::NoMemory) => Err(End::NoMemory),
    }
}

/// The answer to why the counts of a run can't be added.
fn answer_of(fault: MergeFault) -> End
    ensures { result ≡ answer_of fault }
{
    match fault {
        MergeFault::OtherBuild(old, new) => End::OtherBuild(old, new),
        MergeFault::OtherShape(function) => End::OtherShape(function),
        MergeFault::RunsPassed => End::RunsPassed,
        MergeFault::CountPassed(function, counter) => End::CountPassed(function, counter),
    }
}
