//! A report from notes and data.

ghost use Rattle.std.specs.Prelude.{◌≡◌, ◌≤◌, length, true, IfOk, IfErr};
ghost use Rattle.std.specs.List.{All};
ghost use Rattle.function_tallies.specs.Tallies.{HasCounts};
ghost use Rattle.gcda_format.specs.Data.{count_limit, word_limit};
ghost use Rattle.gcno_format.specs.Notes.{path_limit};
ghost use Rattle.report_rows.specs.Reporting as spec;

use cov_base::{NoMemory, Refusal};
use gcda_format::{COUNT_LIMIT, Data};
use gcno_format::Notes;
use path_report::{TallyFault, tally, text};
use std::alloc::Global;

/// The report on the source NAME.c of this text, from notes and data, or the first fault.
pub fn report_of(
    alloc: Global,
    name: &str,
    source: &[u8],
    notes: &Notes,
    counts: &Data,
) -> Result<Vec<u8>, Refusal<TallyFault>>
    requires limit { notes.now.limit ≤ path_limit }
    requires notes_few { length notes.now.functions ≤ word_limit }
    requires counts_few { length counts.now.functions ≤ word_limit }
    requires counts { All HasCounts counts.now.functions }
    ensures ok { IfOk result (λ v. spec.IsReport name.now source.now notes.now counts.now v.items) }
    ensures err { IfErr result (spec.Refuses notes.now counts.now) }
{
    let tally = tally(alloc, notes, counts)?;
    match text(alloc, name, source, notes, &tally) {
        Ok(text) => Ok(text),
        Err(NoMemory) => Err(Refusal::NoMemory),
    }
}

/// Whether each counter is at most 2^63 - 1.
pub fn counts_fit(counts: &Data) -> bool
    ensures { result ≡ true → All HasCounts counts.now.functions }
{
    for function in &counts.functions {
        if !counters_fit(&function.counters) {
            return false;
        }
    }
    true
}

fn counters_fit(counters: &[u64]) -> bool
    ensures { result ≡ true → All (λ n. n ≤ count_limit) counters.now }
{
    for counter in counters {
        if *counter > COUNT_LIMIT {
            return false;
        }
    }
    true
}
