//! The data of no run, and of one.

ghost use Rattle.std.specs.Prelude.{◌≡◌, ◌≤◌, length, None, IfOk};
ghost use Rattle.std.specs.List.{All};
ghost use Rattle.code_runs.specs.CodeChecks.{code_fault};
ghost use Rattle.gcda_format.specs.Data.{IsData, word_limit};
ghost use Rattle.run_counts.specs.Counts as spec;
ghost use Rattle.run_counts.specs.Counts.{HasLongs};
ghost use Rattle.run_merge.specs.Merging.{HasFew};

use crate::function_data::{all_counts, all_zeros};
use cov_base::NoMemory;
use gcda_format::Data;
use stack_machine::Machine;
use stack_ops::Code;
use std::alloc::{AllocError, Global};

/// The data of no run of a code: each function's counters and path words are 0.
pub fn no_counts(alloc: Global, code: &Code) -> Result<Data, NoMemory>
    ensures value { IfOk result (λ d. d ≡ spec.no_counts code.now) }
    ensures few { code_fault code.now ≡ None → IfOk result (λ d. HasFew d) }
    ensures file { code_fault code.now ≡ None → IfOk result (λ d. IsData d) }
{
    let stamp = code.stamp;
    Ok(Data {
        stamp,
        runs: 0,
        functions: all_zeros(alloc, &code.functions)?,
    })
}

/// The data of the last run of a machine, or of a run that counted nothing before the first.
pub fn last_data(alloc: Global, machine: &Machine) -> Result<Data, AllocError>
    requires { length machine.now.code.functions ≤ word_limit }
    ensures value { IfOk result (λ d. d
        ≡ spec.data_of machine.now.code machine.now.counters machine.now.words) }
    ensures longs { IfOk result (λ d. All HasLongs d.functions) }
{
    Ok(Data {
        stamp: machine.code().stamp,
        runs: 1,
        functions: all_counts(alloc, machine, &machine.code().functions)?,
    })
}

/// The data of the last run of a machine; before the first, that of a run that counted nothing.
pub fn run_data(alloc: Global, machine: &Machine) -> Result<Data, NoMemory>
    requires { code_fault machine.now.code ≡ None }
    ensures { IfOk result (λ d. d
        ≡ spec.data_of machine.now.code machine.now.counters machine.now.words) }
{
    Ok(last_data(alloc, machine)?)
}
