//! The counts of a run, or of several, merged into others.

ghost use Rattle.std.specs.Prelude.{◌≡◌};
ghost use Rattle.run_merge.specs.Merging.{HasFew, Merges};

use crate::adding::add_functions;
use crate::faults::first_fault;
use gcda_format::Data;

/// Why counts were not merged.
#[derive(Clone, Copy, Debug, PartialEq, Eq)]
pub enum MergeFault {
    /// The stamps differ, of the old counts and of the run.
    OtherBuild(u32, u32),
    /// The first function that one of both lacks, or whose checksum, number of counters or number
    /// of longs of bits differ.
    OtherShape(u32),
    /// There would be more than 4,294,967,295 runs.
    RunsPassed,
    /// A sum would be above 2^63 - 1: the first function, and its first such counter.
    CountPassed(u32, u32),
}

/// Adds the counts and the runs to the old ones, and sets the path bits that are set in either. A
/// refusal tells the first reason that stands and leaves the old counts as they were. Takes no
/// memory.
pub fn merge_into(old: &mut Data, run: &Data) -> Result<(), MergeFault>
    requires old_few { HasFew old.old }
    requires run_few { HasFew run.now }
    ensures { Merges old.old run.now old.new result }
{
    if let Some(fault) = first_fault(old, run) {
        return Err(fault);
    }
    old.runs += run.runs;
    add_functions(&mut old.functions, &run.functions);
    Ok(())
}
