//! What runs count in functions, as data.

ghost use Rattle.std.specs.Prelude.{◌≡◌, ◌≤◌, [], length, map, slice_index_or, IfOk};
ghost use Rattle.std.specs.List.{All};
ghost use Rattle.code_runs.specs.Tables as tables;
ghost use Rattle.gcda_format.specs.Data.{word_limit};
ghost use Rattle.run_counts.specs.Counts as spec;
ghost use Rattle.run_counts.specs.Counts.{HasLongs};

use gcda_format::FunctionData;
use stack_machine::Machine;
use stack_ops::FunctionCode;
use std::alloc::{AllocError, Global};

/// How many words hold a bit for each of so many paths.
fn words_in(paths: u32) -> usize
    ensures { result ≡ tables.words_in paths }
{
    (paths as usize + 63) / 64
}

/// The checksum of a function, and its counters and path words, all 0.
fn function_zeros(alloc: Global, function: &FunctionCode) -> Result<FunctionData, AllocError>
    ensures value { IfOk result (λ d. d ≡ spec.function_zeros function.now) }
    ensures checksum { IfOk result (λ d. d.checksum ≤ word_limit) }
{
    let checksum = function.checksum;
    Ok(FunctionData {
        checksum,
        counters: Vec::from_elem(alloc, 0, function.counters as usize)?,
        bits: Vec::from_elem(alloc, 0, words_in(function.paths))?,
    })
}

/// The same of each function.
pub fn all_zeros(alloc: Global, functions: &[FunctionCode]) -> Result<Vec<FunctionData>, AllocError>
    ensures value { IfOk result (λ v. v.items ≡ map spec.function_zeros functions.now) }
    ensures checksums { IfOk result (λ v. All (λ d. d.checksum ≤ word_limit) v.items) }
{
    let mut all = Vec::new(alloc);
    for function in functions {
        all.push(function_zeros(alloc, function)?)?;
    }
    Ok(all)
}

/// The counters and path words of function k after the last run, with this checksum.
fn function_counts(
    alloc: Global,
    machine: &Machine,
    k: u32,
    checksum: u32,
) -> Result<FunctionData, AllocError>
    ensures value { IfOk result (λ d. d ≡ record {
      checksum = checksum;
      counters = slice_index_or machine.now.counters k [];
      bits = slice_index_or machine.now.words k [];
    }) }
    ensures longs { IfOk result (λ d. HasLongs d) }
{
    let words = machine.path_words(k);
    Ok(FunctionData {
        checksum,
        counters: Vec::from_slice(alloc, machine.counters(k))?,
        bits: Vec::from_slice(alloc, words)?,
    })
}

/// The checksum of each function, and the counters and path words of its number after the last run.
pub fn all_counts(
    alloc: Global,
    machine: &Machine,
    functions: &[FunctionCode],
) -> Result<Vec<FunctionData>, AllocError>
    requires { length functions.now ≤ word_limit }
    ensures value { IfOk result (λ v. v.items
        ≡ spec.counts_from 0 machine.now.counters machine.now.words functions.now) }
    ensures longs { IfOk result (λ v. All HasLongs v.items) }
{
    let mut all = Vec::new(alloc);
    for (k, function) in functions.iter().enumerate() {
        all.push(function_counts(alloc, machine, k as u32, function.checksum)?)?;
    }
    Ok(all)
}
