//! Counts of source lines.

ghost use Rattle.std.specs.Prelude.{◌≡◌, ℕ, ◌+◌, ◌*◌, ◌^◌, ◌<◌, ◌≤◌, [], length, replicate};
ghost use Rattle.std.specs.Prelude.{slice_set};
ghost use Rattle.std.specs.Prelude.{IfOk, Some, None, true, if◌then◌else◌};
ghost use Rattle.std.specs.List.{All};
ghost use Rattle.cov_base.specs.Net.{IsNet, ascends};
ghost use Rattle.report_parts.specs.CountSteps as spec;
ghost use Rattle.report_parts.specs.CountSteps.{count_at, count_or_zero};
ghost use Rattle.report_parts.specs.Lines.{holds, line_count};
ghost use Rattle.report_parts.specs.Shown.{IsShown};

use crate::shown::Shown;
use cov_base::{FlowArc, Net};
use std::alloc::{AllocError, Global};

/// Begins the count of a line at 0, where there is room for it.
fn begin(line: usize, counts: &mut [Option<u128>])
    ensures { counts.new ≡ slice_set counts.old line (Some 0) }
{
    if line < counts.len() {
        counts[line] = Some(0);
    }
}

/// Begins the counts of these lines at 0, where there is room for them.
fn begin_lines(lines: &[u32], counts: &mut [Option<u128>])
    ensures { counts.new ≡ spec.begin_lines lines.now counts.old }
{
    for line in lines {
        begin(*line as usize, counts);
    }
}

/// Begins the counts of the lines of the net's blocks at 0.
fn begin_net(net: &Net, counts: &mut [Option<u128>])
    ensures { counts.new ≡ spec.begin_all net.now.lines counts.old }
{
    for block in 0..net.blocks() {
        begin_lines(net.lines(block), counts);
    }
}

/// Begins the counts of the lines of these functions at 0.
fn begin_functions(functions: &[Shown<'_>], counts: &mut [Option<u128>])
    ensures { counts.new ≡ spec.begin_functions functions.now counts.old }
{
    for function in functions {
        begin_net(function.net, counts);
    }
}

/// Adds to the count of a line, where there is room for it and the line isn't among others.
fn add(count: u128, others: &[u32], line: u32, counts: &mut [Option<u128>])
    requires { line < length counts.old → count_or_zero counts.old line + count < 2 ^ 128 }
    ensures { counts.new
        ≡ (if holds others.now line then counts.old else spec.add_at line count counts.old) }
{
    let at = line as usize;
    if at < counts.len() && !others.contains(&line) {
        counts[at] = Some(counts[at].unwrap_or(0) + count);
    }
}

/// Adds to the counts of these lines, but for those that are among others.
fn add_to_lines(count: u128, others: &[u32], lines: &[u32], counts: &mut [Option<u128>])
    requires ascend { ascends 0 lines.now ≡ true }
    requires fits { (line : ℕ) → line < length counts.old
        → count_or_zero counts.old line + count < 2 ^ 128 }
    ensures { counts.new ≡ spec.add_to_lines count others.now lines.now counts.old }
{
    for line in lines {
        add(count, others, *line, counts);
    }
}

/// Adds the count of an arc to the counts of the lines that it comes to.
fn add_arc(net: &Net, arc: &FlowArc, count: u128, counts: &mut [Option<u128>])
    requires from { arc.now.from < net.now.blocks }
    requires to { arc.now.to < net.now.blocks }
    requires fits { (line : ℕ) → line < length counts.old
        → count_or_zero counts.old line + count < 2 ^ 128 }
    ensures { counts.new ≡ spec.add_arc net.now arc.now count counts.old }
{
    add_to_lines(count, net.lines(arc.from), net.lines(arc.to), counts);
}

/// Adds the count of each arc to the counts of the lines that it comes to.
fn add_arcs(net: &Net, numbers: &[u128], counts: &mut [Option<u128>])
    requires long { length numbers.now ≡ length net.now.arcs }
    requires small { All (λ n. n ≤ 2 ^ 80) numbers.now }
    requires room { (line : ℕ) → count_or_zero counts.old line ≤ 2 ^ 124 }
    ensures added { counts.new ≡ spec.add_arcs net.now net.now.arcs numbers.now counts.old }
    ensures net { IsNet net.now }
    ensures room { (line : ℕ) → count_or_zero counts.new line
        ≤ count_or_zero counts.old line + 4096 * 2 ^ 80 }
{
    for (i, arc) in net.arcs().iter().enumerate() {
        add_arc(net, arc, numbers[i], counts);
    }
}

/// Adds the counts of the arcs of these functions, where no line is counted yet.
fn add_functions(functions: &[Shown<'_>], counts: &mut [Option<u128>])
    requires shown { All IsShown functions.now }
    requires few { length functions.now < 2 ^ 32 }
    requires fresh { (line : ℕ) → count_or_zero counts.old line ≡ 0 }
    ensures { counts.new ≡ spec.add_functions functions.now counts.old }
{
    for function in functions {
        add_arcs(function.net, &function.counts, counts);
    }
}

/// Counts the lines of these functions, where no line is counted yet.
fn put_counts(functions: &[Shown<'_>], counts: &mut [Option<u128>])
    requires shown { All IsShown functions.now }
    requires few { length functions.now < 2 ^ 32 }
    requires none { counts.old ≡ replicate (length counts.old) None }
    ensures { counts.new
        ≡ spec.add_functions functions.now (spec.begin_functions functions.now counts.old) }
{
    begin_functions(functions, counts);
    add_functions(functions, counts);
}

/// The count of each of so many lines, by its number.
pub fn line_counts(
    alloc: Global,
    functions: &[Shown<'_>],
    size: usize,
) -> Result<Vec<Option<u128>>, AllocError>
    requires shown { All IsShown functions.now }
    requires few { length functions.now < 2 ^ 32 }
    ensures { IfOk result (λ counts. (line : ℕ) → line < size
        → count_at counts.items line ≡ line_count functions.now line) }
{
    let mut counts = vec![in alloc; None; size]?;
    put_counts(functions, &mut counts);
    Ok(counts)
}
