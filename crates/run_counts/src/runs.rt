//! Runs, whose counts are merged into those of others.

ghost use Rattle.std.specs.Prelude.{◌≡◌, ℕ, ◌≤◌, length, None};
ghost use Rattle.code_runs.specs.CodeChecks.{code_fault};
ghost use Rattle.code_runs.specs.CodeRun.{Ran, CodeRun};
ghost use Rattle.gcda_format.specs.Data.{IsData, word_limit};
ghost use Rattle.run_counts.specs.Counts.{data_of};
ghost use Rattle.run_counts.specs.Runs as spec;
ghost use Rattle.run_counts.specs.Texts as texts;
ghost use Rattle.run_merge.specs.Merging.{HasFew};

use crate::texts::{is_closed, run_text};
use crate::whole_data::last_data;
use cov_base::Refusal;
use gcda_format::Data;
use run_merge::{MergeFault, merge_into};
use stack_machine::Machine;
use stack_ops::Outcome;
use std::alloc::Global;

/// Merges the data of the last run into counts where it is closed.
pub fn merge_closed(
    alloc: Global,
    machine: &Machine,
    ending: Outcome,
    counts: &mut Data,
) -> Result<(), Refusal<MergeFault>>
    requires functions { length machine.now.code.functions ≤ word_limit }
    requires old_few { HasFew counts.old }
    requires run_few { HasFew (data_of machine.now.code machine.now.counters machine.now.words) }
    ensures merged { spec.MergesWhere (texts.is_closed ending) counts.old
        (data_of machine.now.code machine.now.counters machine.now.words) counts.new result }
    ensures few { HasFew counts.new }
    ensures file { IsData counts.old → IsData counts.new }
{
    if !is_closed(ending) {
        return Ok(());
    }
    let run = last_data(alloc, machine)?;
    match merge_into(counts, &run) {
        Ok(()) => Ok(()),
        Err(fault) => Err(Refusal::Refused(fault)),
    }
}

/// Runs the code of a machine on an input from its start, and appends the run's text: the name of
/// the input, how the run ended, how many bytes it put, and these. Where the run is closed, which
/// is where it returned or exited, its data is merged into the counts.
///
/// A refusal is that of merging, or `NoMemory`; it leaves counts and text as they were.
pub fn run_into(
    alloc: Global,
    machine: &mut Machine,
    name: &str,
    input: &[u8],
    counts: &mut Data,
    text: &mut Vec<u8>,
) -> Result<Outcome, Refusal<MergeFault>>
    requires checked { code_fault machine.old.code ≡ None }
    requires few { HasFew counts.old }
    ensures ran { (ran : Ran) × CodeRun machine.old.code input.now machine.old.turns ran
        × spec.Tells machine.old.code name.now ran
        (record { counts = counts.old; text = text.old.items })
        (record { counts = counts.new; text = text.new.items }) result }
    ensures only { (ran : Ran) → CodeRun machine.old.code input.now machine.old.turns ran
        → spec.Tells machine.old.code name.now ran
        (record { counts = counts.old; text = text.old.items })
        (record { counts = counts.new; text = text.new.items }) result }
    ensures code { machine.new.code ≡ machine.old.code }
    ensures turns { machine.new.turns ≡ machine.old.turns }
    ensures few { HasFew counts.new }
    ensures file { IsData counts.old → IsData counts.new }
{
    let ending = machine.run(input);
    let told = run_text(alloc, name, ending, machine.output())?;
    text.reserve(told.len())?;
    merge_closed(alloc, machine, ending, counts)?;
    text.extend_from_slice(&told)?;
    Ok(ending)
}
