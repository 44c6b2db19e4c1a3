//! Why counts may not be merged.

ghost use Rattle.std.specs.Prelude.{◌≡◌, ◌+◌, ◌≤◌, nat_lt, length};
ghost use Rattle.std.specs.List.{All};
ghost use Rattle.gcda_format.specs.Data.{count_limit, word_limit};
ghost use Rattle.run_merge.specs.Merging as spec;

use crate::merging::MergeFault;
use gcda_format::{COUNT_LIMIT, Data, FunctionData};

/// The first reason not to merge the run into the old counts.
pub fn first_fault(old: &Data, run: &Data) -> Option<MergeFault>
    requires old_few { spec.HasFew old.now }
    requires run_few { spec.HasFew run.now }
    ensures { result ≡ spec.merge_fault old.now run.now }
{
    if old.stamp != run.stamp {
        return Some(MergeFault::OtherBuild(old.stamp, run.stamp));
    }
    if let Some(function) = other_shape(&old.functions, &run.functions) {
        return Some(MergeFault::OtherShape(function));
    }
    if old.runs > u32::MAX - run.runs {
        return Some(MergeFault::RunsPassed);
    }
    count_passed(&old.functions, &run.functions)
}

/// The first function that one lacks or that has another shape.
fn other_shape(old: &[FunctionData], run: &[FunctionData]) -> Option<u32>
    requires old_few { length old.now ≤ word_limit }
    requires run_few { length run.now ≤ word_limit }
    ensures { result ≡ spec.other_shape 0 old.now run.now }
{
    for (number, function) in old.iter().enumerate() {
        if number == run.len() {
            return Some(number as u32);
        }
        if !is_same_shape(function, &run[number]) {
            return Some(number as u32);
        }
    }
    if run.len() > old.len() {
        return Some(old.len() as u32);
    }
    None
}

fn is_same_shape(old: &FunctionData, run: &FunctionData) -> bool
    ensures { result ≡ spec.same_shape old.now run.now }
{
    old.checksum == run.checksum
        && old.counters.len() == run.counters.len()
        && old.bits.len() == run.bits.len()
}

/// The first counter whose sum passes the limit.
fn count_passed(old: &[FunctionData], run: &[FunctionData]) -> Option<MergeFault>
    requires few { length old.now ≤ word_limit }
    requires counters { All (λ f. length f.counters ≤ word_limit) old.now }
    ensures { result ≡ spec.count_passed 0 old.now run.now }
{
    let count = old.len().min(run.len());
    for number in 0..count {
        let function = &old[number];
        let other = &run[number];
        if let Some(counter) = passed(&function.counters, &other.counters) {
            return Some(MergeFault::CountPassed(number as u32, counter));
        }
    }
    None
}

/// The first of a function's counters whose sum passes the limit.
fn passed(old: &[u64], run: &[u64]) -> Option<u32>
    requires { length old.now ≤ word_limit }
    ensures { result ≡ spec.passed 0 old.now run.now }
{
    let count = old.len().min(run.len());
    for counter in 0..count {
        if passes(old[counter], run[counter]) {
            return Some(counter as u32);
        }
    }
    None
}

/// Whether the sum passes the limit.
fn passes(a: u64, b: u64) -> bool
    ensures { result ≡ nat_lt count_limit (a + b) }
{
    match a.checked_add(b) {
        Some(sum) => sum > COUNT_LIMIT,
        None => true,
    }
}
