//! Counts added up.

ghost use Rattle.std.specs.Prelude.{◌≡◌, length, None, true};
ghost use Rattle.run_merge.specs.Merging as spec;

use gcda_format::FunctionData;

/// Each function's counts are those of both.
pub fn add_functions(old: &mut [FunctionData], run: &[FunctionData])
    requires shapes { spec.other_shape 0 old.old run.now ≡ None }
    requires counts { spec.count_passed 0 old.old run.now ≡ None }
    ensures { old.new ≡ spec.add_functions old.old run.now }
{
    for i in 0..old.len() {
        add_function(&mut old[i], &run[i]);
    }
}

fn add_function(old: &mut FunctionData, run: &FunctionData)
    requires shape { spec.same_shape old.old run.now ≡ true }
    requires counts { spec.passed 0 old.old.counters run.now.counters ≡ None }
    ensures { old.new ≡ spec.add_function old.old run.now }
{
    add_counters(&mut old.counters, &run.counters);
    join_bits(&mut old.bits, &run.bits);
}

fn add_counters(old: &mut [u64], run: &[u64])
    requires long { length old.old ≡ length run.now }
    requires counts { spec.passed 0 old.old run.now ≡ None }
    ensures { old.new ≡ spec.sums old.old run.now }
{
    for i in 0..old.len() {
        old[i] += run[i];
    }
}

fn join_bits(old: &mut [u64], run: &[u64])
    requires { length old.old ≡ length run.now }
    ensures { old.new ≡ spec.ors old.old run.now }
{
    for i in 0..old.len() {
        old[i] |= run[i];
    }
}
