//! Data that a command merges.

ghost use Rattle.std.specs.Prelude.{◌≡◌};
ghost use Rattle.gcda_format.specs.Data.{IsData};
ghost use Rattle.run_merge.specs.Merging.{HasFew};
ghost use Rattle.command_steps.specs.Merged.{Merged, answer_of};

use cov_answers::End;
use gcda_format::Data;
use run_merge::{MergeFault, merge_into};

/// Adds the second data to the first; the answer where they can't be added tells why, and the first
/// are then as they were.
pub fn merge(first: &mut Data, second: &Data) -> Result<(), End>
    requires first_few { HasFew first.old }
    requires second_few { HasFew second.now }
    ensures { Merged first.old second.now first.new result }
{
    match merge_into(first, second) {
        Ok(()) => Ok(()),
        Err(fault) => Err(answer_of(fault)),
    }
}

/// The answer to why data can't be merged.
pub fn answer_of(fault: MergeFault) -> End
    ensures { result ≡ answer_of fault }
{
    match fault {
        MergeFault::OtherBuild(old, new) => End::OtherBuild(old, new),
        MergeFault::OtherShape(function) => End::OtherShape(function),
        MergeFault::RunsPassed => End::RunsPassed,
        MergeFault::CountPassed(function, counter) => End::CountPassed(function, counter),
    }
}
