//! A whole report.

ghost use Rattle.std.specs.Prelude.{◌≡◌, ◌<◌, ◌^◌, ◌++◌, length, OnOk};
ghost use Rattle.std.specs.List.{All};
ghost use Rattle.report_parts.specs.Report.{shown_text};
ghost use Rattle.report_parts.specs.Shown.{IsShown};

use crate::counts::line_counts;
use crate::functions::push_functions;
use crate::lines::{push_head, push_lines};
use crate::pieces::count_lines;
use crate::shown::Shown;
use crate::sums::push_sums;
use std::alloc::{AllocError, Global};

/// Appends the report on the source NAME.c of this text after so many runs: the head, each source
/// line with its count, each function, and the sums.
#[tactic(auto, unfolding(crate::specs::Report::shown_text))]
pub fn push_report(
    alloc: Global,
    out: &mut Vec<u8>,
    name: &str,
    source: &[u8],
    runs: u32,
    limit: u32,
    functions: &[Shown<'_>],
) -> Result<(), AllocError>
    requires shown { All IsShown functions.now }
    requires few { length functions.now < 2 ^ 32 }
    ensures { OnOk result (out.new.items ≡ out.old.items
        ++ shown_text name.now source.now runs limit functions.now) }
{
    let lines = count_lines(source);
    let Some(size) = lines.checked_add(1) else {
        return Err(AllocError);
    };
    let counts = line_counts(alloc, functions, size)?;
    push_head(alloc, out, name, runs)?;
    push_lines(out, source, &counts)?;
    push_functions(out, limit, functions)?;
    push_sums(out, &counts, lines, functions)?;
    Ok(())
}
