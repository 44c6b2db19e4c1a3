//! The text of a report.

ghost use Rattle.std.specs.Prelude.{◌≡◌, ◌≤◌, ◌<◌, ◌^◌, length, IfOk};
ghost use Rattle.gcda_format.specs.Data.{word_limit};
ghost use Rattle.path_report.specs.Report.{report_text};
ghost use Rattle.path_report.specs.Tallies.{IsTallyOf};

use crate::shown::all_shown;
use crate::tallies::Tally;
use cov_base::NoMemory;
use gcno_format::Notes;
use report_parts::push_report;
use std::alloc::Global;

/// The report on the source NAME.c of this text, from these notes and a tally of them.
pub fn text(
    alloc: Global,
    name: &str,
    source: &[u8],
    notes: &Notes,
    tally: &Tally,
) -> Result<Vec<u8>, NoMemory>
    requires tally { IsTallyOf notes.now tally.now }
    requires few { length notes.now.functions ≤ word_limit }
    ensures { IfOk result (λ v. v.items ≡ report_text name.now source.now notes.now tally.now) }
{
    let mut out = Vec::new(alloc);
    let functions = all_shown(alloc, notes.limit, &notes.functions, &tally.functions)?;
    push_report(
        alloc,
        &mut out,
        name,
        source,
        tally.runs,
        notes.limit,
        &functions,
    )?;
    Ok(out)
}
