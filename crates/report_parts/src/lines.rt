//! The head of a report, and the source's lines with their counts.

ghost use Rattle.std.specs.Prelude.{◌≡◌, ◌+◌, ◌<◌, ◌≤◌, ◌^◌, ◌++◌, length, codes, IfOk, OnOk};
ghost use Rattle.std.specs.String.{string_bytes};
ghost use Rattle.report_parts.specs.Lines.{report_line, count_text, head_text, report_lines};
ghost use Rattle.report_parts.specs.Lines.{lines_in};
ghost use Rattle.report_parts.specs.CountSteps.{count_at};

use crate::pieces::{push_right, split_line};
use itoa::Buffer;
use std::alloc::{AllocError, Global};

/// Appends a line of the report: a count, a line number and a text.
#[tactic(auto, unfolding(crate::specs::Lines::report_line))]
fn push_line(out: &mut Vec<u8>, count: &str, number: usize, text: &[u8]) -> Result<(), AllocError>
    ensures { OnOk result (out.new.items ≡ out.old.items ++ report_line count.now number text.now) }
{
    push_right(out, 9, count.as_bytes())?;
    out.push(b':')?;
    push_right(out, 5, Buffer::new().format(number).as_bytes())?;
    out.push(b':')?;
    out.extend_from_slice(text)?;
    out.push(b'\n')?;
    Ok(())
}

/// Appends a line of the head, which has no count and the number 0.
fn push_head_line(out: &mut Vec<u8>, text: &str) -> Result<(), AllocError>
    ensures { OnOk result (out.new.items ≡ out.old.items ++ report_line (codes "-") 0 text.now) }
{
    push_line(out, "-", 0, text.as_bytes())?;
    Ok(())
}

/// Appends the report's head for the source NAME.c after so many runs.
#[tactic(auto, unfolding(crate::specs::Lines::head_text))]
pub fn push_head(alloc: Global, out: &mut Vec<u8>, name: &str, runs: u32) -> Result<(), AllocError>
    ensures { OnOk result (out.new.items ≡ out.old.items ++ head_text name.now runs) }
{
    push_head_line(out, format!(in alloc; "Source:{name}.c")?.as_str())?;
    push_head_line(out, format!(in alloc; "Graph:{name}.gcno")?.as_str())?;
    push_head_line(out, format!(in alloc; "Data:{name}.gcda")?.as_str())?;
    push_head_line(out, format!(in alloc; "Runs:{runs}")?.as_str())?;
    Ok(())
}

/// Appends a source line with its count: `-` where the line has no code, `#####` where it was never
/// run.
#[tactic(auto, unfolding(crate::specs::Lines::count_text))]
fn push_counted(
    out: &mut Vec<u8>,
    count: Option<u128>,
    number: usize,
    text: &[u8],
) -> Result<(), AllocError>
    ensures { OnOk result (out.new.items
        ≡ out.old.items ++ report_line (count_text count) number text.now) }
{
    match count {
        None => push_line(out, "-", number, text)?,
        Some(0) => push_line(out, "#####", number, text)?,
        Some(n) => push_line(out, Buffer::new().format(n), number, text)?,
    }
    Ok(())
}

/// The count of a line, by its number: none past the end.
pub fn count_of(counts: &[Option<u128>], number: usize) -> Option<u128>
    ensures { result ≡ count_at counts.now number }
{
    counts.get(number).copied().unwrap_or(None)
}

/// Appends each source line with its count; `counts` holds the count of line n at n, and none past
/// its end.
pub fn push_lines(
    out: &mut Vec<u8>,
    source: &[u8],
    counts: &[Option<u128>],
) -> Result<(), AllocError>
    requires { length (lines_in source.now) + 1 < 2 ^ 64 }
    ensures { OnOk result (out.new.items ≡ out.old.items
        ++ report_lines (count_at counts.now) 1 (lines_in source.now)) }
{
    let mut rest = source;
    let mut number = 1;
    while !rest.is_empty() {
        let (line, after) = split_line(rest);
        push_counted(out, count_of(counts, number), number, line)?;
        rest = after;
        number += 1;
    }
    Ok(())
}
